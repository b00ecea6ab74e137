// Runs the list of vectors of the crate `spatial` (docs/VECTORS.md), and says how many rows were
// checked and how many were wrong. A row that cannot be read is wrong.
#![tactic(auto)]

ghost use Rattle.std.specs.Prelude.{◌≡◌, true, ◌+◌, ◌≤◌, length};
ghost use Rattle.std.specs.Float.{binary32};
ghost use Rattle.laws.specs.Interpolate.{InRange};
ghost use Rattle.spatial.specs.Spatial.{PositionIn, DistancesIn};

use spatial::{Distances, Position};
use std::io;

fn is_coordinate(x: f32) -> bool
    ensures { result ≡ true → InRange binary32 1000 1000 x }
{
    if -1000.0 <= x {
        return x <= 1000.0;
    }
    false
}

fn is_position(p: Position) -> bool
    ensures { result ≡ true → PositionIn p }
{
    if is_coordinate(p.x) {
        if is_coordinate(p.y) {
            return is_coordinate(p.z);
        }
    }
    false
}

fn is_distance(x: f32) -> bool
    ensures { result ≡ true → InRange binary32 0 1000 x }
{
    if 0.0 <= x {
        return x <= 1000.0;
    }
    false
}

fn are_distances(d: Distances) -> bool
    ensures { result ≡ true → DistancesIn d }
{
    if is_distance(d.min_distance) {
        if is_distance(d.max_distance) {
            return d.min_distance < d.max_distance;
        }
    }
    false
}

// Only positions and distances in range have a level.
fn has_level(listener: Position, position: Position, distances: Distances, level: u32) -> bool {
    if is_position(listener) {
        if is_position(position) {
            if are_distances(distances) {
                let given = spatial::attenuation(listener, position, distances);
                return float_bits::is_f32(given.0, level);
            }
        }
    }
    false
}

fn number_at(row: &[u8], at: usize) -> Option<f32>
    requires { at + 8 ≤ length row.now }
{
    Some(float_bits::f32_from_bits(test_replay::hex32_at(row, at, 8)?))
}

fn position_at(row: &[u8], at: usize) -> Option<Position>
    requires { at + 26 ≤ length row.now }
{
    let x = number_at(row, at)?;
    let y = number_at(row, at + 9)?;
    let z = number_at(row, at + 18)?;
    Some(Position { x, y, z })
}

// A row `x y z x y z near far level`: the listener's position and the track's, in bits.
fn is_right(row: &[u8]) -> Option<bool> {
    if row.len() != 80 {
        return None;
    }
    let listener = position_at(row, 0)?;
    let position = position_at(row, 27)?;
    let min_distance = number_at(row, 54)?;
    let max_distance = number_at(row, 63)?;
    let level = test_replay::hex32_at(row, 72, 8)?;
    Some(has_level(
        listener,
        position,
        Distances {
            min_distance,
            max_distance,
        },
        level,
    ))
}

fn main(rt: HostRuntime) -> io::Result<()> {
    let mut buffer = test_replay::buffer::<204800>();
    test_replay::run_list(
        &rt,
        b"attenuation",
        b"attenuation.txt",
        &mut buffer,
        |row| { Some(is_right(row).unwrap_or(false)) },
    )
}
