// kira's decibels.rs: a change in volume, and the factor that it stands for.
ghost use Rattle.std.specs.Prelude.{◌≡◌, not, ◌^◌, ◌≤◌, ◌<◌, T};
ghost use Rattle.std.specs.Float.Ieee as Ieee;
ghost use Rattle.laws.specs.Float.{whole};
ghost use Rattle.gain_table.specs.GainTable.{IsGainTable};
ghost use Rattle.decibels.specs.Decibels.{amplitude, admitted, silence, last_entry, entry_below, rest_above, curve_at};
ghost use Rattle.decibels.specs.Answer.{answered, amplitude_answer};

use gain_table::{GainTable, gain_table};

#[derive(Clone, Copy)]
pub struct Decibels(pub f32);

// A linear factor. It is a type of its own, so that a level is never taken for a factor.
#[derive(Clone, Copy)]
pub struct Amplitude(pub f32);

// The largest number of decibels that has an amplitude.
pub const LIMIT: f32 = 23.0;

// At or below it a level is silent.
pub const SILENCE: f32 = -60.0;

// Where 16 times a number of decibels stands among the table's entries: the entry below it, and how
// far above that entry it is.
#[derive(Clone, Copy)]
pub struct Position {
    pub entry: usize,
    pub rest: f64,
}

impl Decibels {
    // Nothing of a NaN, and of what is above the limit.
    pub fn as_amplitude(self) -> Option<Amplitude>
        ensures { answered result ≡ amplitude_answer self.0 }
    {
        let n = self.0;
        if n <= LIMIT {
            let table = gain_table();
            Some(self.as_amplitude_in(&table))
        } else {
            None
        }
    }

    // For a caller that keeps the table and knows that the number is not refused.
    pub fn as_amplitude_in(self, table: &GainTable) -> Amplitude
        requires gain_table { IsGainTable table.now }
        requires admitted { T (admitted self.0) }
        ensures { result.0 ≡ amplitude self.0 }
    {
        let n = self.0;
        if n == 0.0 {
            return Amplitude(1.0);
        }
        if n <= SILENCE {
            return Amplitude(0.0);
        }
        let position = position_of(n);
        let value = curve_at(table, position.entry, position.rest);
        Amplitude(rounding::f64_to_f32(value / 1099511627776.0))
    }
}

// x without its fraction: the f64's digits without those below the point.
fn whole_part(x: f64) -> u64
    requires { T (Ieee.lt x (whole (2 ^ 53))) }
    ensures { result ≡ Ieee.to_unsigned 64 x }
{
    if x < 1.0 {
        return 0;
    }
    let bits = f64::to_bits(x);
    (bits % (1 << 52) + (1 << 52)) >> (1075 - (bits >> 52))
}

// Between silence and the limit, so that every number here is small.
pub fn position_of(n: f32) -> Position
    requires admitted { T (admitted n) }
    requires above_silence { T (not (Ieee.le n silence)) }
    requires not_zero { T (not (Ieee.eq n (whole 0))) }
    ensures { (result.entry ≡ entry_below n) × (result.rest ≡ rest_above n) }
{
    let steps = (n as f64) * 16.0;
    if steps < 0.0 {
        let whole = whole_part(-steps);
        if -steps == whole as f64 {
            return Position {
                entry: (960 - whole) as usize,
                rest: 0.0,
            };
        }
        Position {
            entry: (959 - whole) as usize,
            rest: steps + ((whole + 1) as f64),
        }
    } else {
        let whole = whole_part(steps);
        Position {
            entry: (960 + whole) as usize,
            rest: steps - (whole as f64),
        }
    }
}

// The line to the next entry, less how far the curve lies below it.
fn curve_at(table: &GainTable, entry: usize, rest: f64) -> f64
    requires gain_table { IsGainTable table.now }
    requires entry_in_table { entry ≤ last_entry }
    ensures { result ≡ curve_at entry rest }
{
    let this = table[entry] as f64;
    if rest == 0.0 {
        return this;
    }
    let next = table[entry + 1] as f64;
    let after = table[entry + 2] as f64;
    let line = this + (next - this) * rest;
    let second = after - 2.0 * next + this;
    line + rest * (rest - 1.0) / 2.0 * second
}
