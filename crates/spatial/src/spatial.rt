// kira's `SpatialData::spatialize`, with strength 0 and linear attenuation: the level of a track at a
// distance from the listener.
ghost use Rattle.std.specs.Prelude.{◌≡◌};
ghost use Rattle.spatial.specs.Spatial.{clamp, distance, relative_distance, attenuation, PositionIn, DistancesIn};

use decibels::Decibels;
use tween::Easing;

// `Decibels::SILENCE` and `Decibels::IDENTITY`.
const SILENCE: f32 = -60.0;

const IDENTITY: f32 = 0.0;

#[derive(Clone, Copy)]
pub struct Position {
    pub x: f32,
    pub y: f32,
    pub z: f32,
}

// kira's `SpatialTrackDistances`.
#[derive(Clone, Copy)]
pub struct Distances {
    pub min_distance: f32,
    pub max_distance: f32,
}

impl Distances {
    fn relative_distance(self, d: f32) -> f32
        ensures { result ≡ relative_distance self d }
    {
        let min = self.min_distance;
        let max = self.max_distance;
        (clamp(d, min, max) - min) / (max - min)
    }
}

// `f32::clamp`.
fn clamp(x: f32, min: f32, max: f32) -> f32
    ensures { result ≡ clamp x min max }
{
    if x < min {
        return min;
    }
    if x > max {
        return max;
    }
    x
}

// The length of `listener - position`.
fn distance(listener: Position, position: Position) -> f32
    requires { PositionIn listener × PositionIn position }
    ensures { result ≡ distance listener position }
{
    let x = listener.x - position.x;
    let y = listener.y - position.y;
    let z = listener.z - position.z;
    root::root(x * x + y * y + z * z)
}

pub fn attenuation(listener: Position, position: Position, distances: Distances) -> Decibels
    requires positions_in_range { PositionIn listener × PositionIn position }
    requires distances_in_range { DistancesIn distances }
    ensures { result ≡ attenuation listener position distances }
{
    let relative_distance = distances.relative_distance(distance(listener, position));
    let easing = Easing::Linear;
    let relative_volume = rounding::f64_to_f32(easing.apply((1.0 - relative_distance) as f64));
    tween::interpolate(
        Decibels(SILENCE),
        Decibels(IDENTITY),
        relative_volume as f64,
    )
}
