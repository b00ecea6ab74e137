// The columns that every update has: its chunk, and the levels after it.
ghost use Rattle.std.specs.Prelude.{◌≡◌, true, ◌≤◌, IfSome};
ghost use Rattle.rounding.specs.Duration.{InAnHour};

use clock::Clocks;
use decibels::Decibels;

// How many clocks are there, the seconds, and where in the chunk the level between is read.
#[derive(Clone, Copy)]
pub struct Chunk {
    pub count: usize,
    pub dt: f64,
    pub amount: f64,
}

// Columns `count dt amount`.
pub fn read_chunk(columns: &[u8]) -> Option<Chunk> {
    if columns.len() != 35 {
        return None;
    }
    let count = test_replay::hex(&columns[0..1])?;
    let dt = test_replay::hex(&columns[2..18])?;
    let amount = test_replay::hex(&columns[19..35])?;
    Some(Chunk {
        count: count as usize,
        dt: float_bits::f64_from_bits(dt),
        amount: float_bits::f64_from_bits(amount),
    })
}

// What an update asks of its seconds.
pub fn in_an_hour(dt: f64) -> bool
    ensures { result ≡ true → InAnHour dt }
{
    dt >= 0.0 && dt <= 3600.0
}

// The first `count` of the clocks are there.
pub fn counted(all: Clocks, count: usize) -> Clocks
    ensures { result.count ≡ count }
{
    let clocks = all.clocks;
    Clocks { clocks, count }
}

// The same where there can be so many.
pub fn counted_in_table(all: Clocks, count: usize) -> Option<Clocks>
    ensures { IfSome result (λ there. there.count ≤ 8) }
{
    if 8 < count {
        return None;
    }
    Some(counted(all, count))
}

// Columns `value previous interpolated`, and whether the levels are those.
pub fn are_levels(
    value: Decibels,
    previous: Decibels,
    interpolated: Decibels,
    columns: &[u8],
) -> Option<bool> {
    if columns.len() != 26 {
        return None;
    }
    let after = test_replay::hex32(&columns[0..8])?;
    let before = test_replay::hex32(&columns[9..17])?;
    let between = test_replay::hex32(&columns[18..26])?;
    Some(
        float_bits::is_f32(value.0, after)
            && float_bits::is_f32(previous.0, before)
            && float_bits::is_f32(interpolated.0, between),
    )
}
