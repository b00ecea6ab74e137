// Runs the lists of vectors of the crate `rounding` (docs/VECTORS.md), and says of each list how many
// rows were checked and how many were wrong. A row that cannot be read is wrong.
#![tactic(auto)]

use std::io;

// A row `f64 f32`, in bits.
fn rounds(row: &[u8]) -> Option<bool> {
    if row.len() != 25 {
        return None;
    }
    let from = test_replay::hex_at(row, 0, 16)?;
    let to = test_replay::hex32_at(row, 17, 8)?;
    Some(float_bits::is_f32(rounding::f64_to_f32(float_bits::f64_from_bits(from)), to))
}

// Only 0 to 3,600 seconds have an answer.
fn has_nanoseconds(seconds: f64, nanoseconds: u64) -> bool {
    if seconds >= 0.0 {
        if seconds <= 3600.0 {
            return rounding::nanos_from_secs_f64(seconds) == nanoseconds;
        }
    }
    false
}

// A row `f64 nanoseconds`.
fn counts_nanoseconds(row: &[u8]) -> Option<bool> {
    if row.len() != 33 {
        return None;
    }
    let from = test_replay::hex_at(row, 0, 16)?;
    let to = test_replay::hex_at(row, 17, 16)?;
    Some(has_nanoseconds(float_bits::f64_from_bits(from), to))
}

// A row `milliseconds f64`.
fn gives_seconds(row: &[u8]) -> Option<bool> {
    if row.len() != 25 {
        return None;
    }
    let from = test_replay::hex32_at(row, 0, 8)?;
    let to = test_replay::hex_at(row, 9, 16)?;
    Some(float_bits::is_f64(rounding::secs_f64_from_millis(from), to))
}

fn main(rt: HostRuntime) -> io::Result<()> {
    let mut buffer = test_replay::buffer::<524288>();
    test_replay::run_list(&rt, b"rounding", b"rounding.txt", &mut buffer, |row| {
        Some(rounds(row).unwrap_or(false))
    })?;
    test_replay::run_list(
        &rt,
        b"nanoseconds",
        b"nanoseconds.txt",
        &mut buffer,
        |row| { Some(counts_nanoseconds(row).unwrap_or(false)) },
    )?;
    test_replay::run_list(&rt, b"seconds", b"seconds.txt", &mut buffer, |row| {
        Some(gives_seconds(row).unwrap_or(false))
    })
}
