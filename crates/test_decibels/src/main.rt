// Runs the list of vectors of the crate `decibels` (docs/VECTORS.md), and says how many rows were
// checked and how many were wrong. A row that cannot be read is wrong.
#![tactic(auto)]

use std::io;

// Whether the routine answers this number, and leaves that amplitude or, on a refusal, the -1.0 that
// no amplitude is.
fn answers(decibels: f32, number: u64, amplitude: u32) -> bool {
    let mut place: f32 = -1.0;
    let answer = decibels::write_amplitude(decibels, &mut place) as u64;
    if answer != number {
        return false;
    }
    if answer == 0 {
        return float_bits::is_f32(place, amplitude);
    }
    place == -1.0
}

// A row `f32 number f32`.
fn is_right(row: &[u8]) -> Option<bool> {
    if row.len() != 20 {
        return None;
    }
    let from = test_replay::hex32_at(row, 0, 8)?;
    let number = test_replay::hex_at(row, 9, 2)?;
    let to = test_replay::hex32_at(row, 12, 8)?;
    Some(answers(float_bits::f32_from_bits(from), number, to))
}

fn main(rt: HostRuntime) -> io::Result<()> {
    let mut buffer = test_replay::buffer::<204800>();
    test_replay::run_list(&rt, b"amplitude", b"amplitude.txt", &mut buffer, |row| {
        Some(is_right(row).unwrap_or(false))
    })
}
