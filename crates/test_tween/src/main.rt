// Runs the lists of vectors of the crate `tween` (docs/VECTORS.md), and says of each list how many
// rows were checked and how many were wrong. A row that cannot be read is wrong.
#![tactic(auto)]

use decibels::Decibels;
use std::io;

// A row `kind power f64 f64`: the easing, in kira's order, x, and what it gives.
fn eases(row: &[u8]) -> Option<bool> {
    if row.len() != 37 {
        return None;
    }
    let kind = test_replay::hex(&row[0..1])?;
    let power = test_replay::hex32(&row[2..3])?;
    let x = test_replay::hex(&row[4..20])?;
    let eased = test_replay::hex(&row[21..37])?;
    let easing = test_trace::easing(kind, power);
    Some(float_bits::is_f64(easing.apply(float_bits::f64_from_bits(x)), eased))
}

// A row `f32 f32 f64 f32`: two levels, the amount, and the level between.
fn interpolates(row: &[u8]) -> Option<bool> {
    if row.len() != 43 {
        return None;
    }
    let a = test_replay::hex32(&row[0..8])?;
    let b = test_replay::hex32(&row[9..17])?;
    let amount = test_replay::hex(&row[18..34])?;
    let between = test_replay::hex32(&row[35..43])?;
    let level = tween::interpolate(
        Decibels(float_bits::f32_from_bits(a)),
        Decibels(float_bits::f32_from_bits(b)),
        float_bits::f64_from_bits(amount),
    );
    Some(float_bits::is_f32(level.0, between))
}

fn main(rt: HostRuntime) -> io::Result<()> {
    let mut buffer = test_replay::buffer::<204800>();
    test_replay::run_list(&rt, b"easing", b"easing.txt", &mut buffer, |row| {
        Some(eases(row).unwrap_or(false))
    })?;
    test_replay::run_list(
        &rt,
        b"interpolation",
        b"interpolation.txt",
        &mut buffer,
        |row| { Some(interpolates(row).unwrap_or(false)) },
    )
}
