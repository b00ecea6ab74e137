// A segment of the gain table: the curve between two entries that stand side by side.
//
// Levels that all lie inside one need neither the table nor a test for their amplitudes, so that a
// loop over them vectorises.
ghost use Rattle.std.specs.Prelude.{◌≡◌, ◌≤◌, T};
ghost use Rattle.gain_table.specs.GainTable.{IsGainTable};
ghost use Rattle.decibels.specs.Decibels.{amplitude, admitted};
ghost use Rattle.gain_segment.specs.Segment.{steps_at, decibels_at, segment, segment_of, contains, IsSegment};

use decibels::{Amplitude, Decibels, SILENCE, position_of};
use gain_table::GainTable;

#[derive(Clone, Copy)]
pub struct Segment {
    // Its two ends in decibels.
    pub low: f32,
    pub high: f32,
    // The lower end in sixteenths of a decibel, the entry there, the rise to the next one, and how
    // much more the rise after that is.
    pub from: f64,
    pub first: f64,
    pub rise: f64,
    pub second: f64,
}

// Where an entry stands, in sixteenths of a decibel.
fn steps_at(entry: usize) -> f64
    requires { entry ≤ 1344 }
    ensures { result ≡ steps_at entry }
{
    (entry as f64) - 960.0
}

// The same in decibels.
fn decibels_at(entry: usize) -> f32
    requires { entry ≤ 1344 }
    ensures { result ≡ decibels_at entry }
{
    (entry as f32) / 16.0 - 60.0
}

// The number of the segment that a level stands on; of those with no such segment, any.
fn segment_number(level: Decibels) -> usize
    requires { T (admitted level.0) }
    ensures { result ≡ segment_of level.0 }
{
    let n = level.0;
    if n == 0.0 {
        return 960;
    }
    if n <= SILENCE {
        return 0;
    }
    let position = position_of(n);
    position.entry
}

pub fn segment_of(level: Decibels, table: &GainTable) -> Segment
    requires gain_table { IsGainTable table.now }
    requires admitted { T (admitted level.0) }
    ensures { result ≡ segment (segment_of level.0) }
{
    let entry = segment_number(level);
    let first = table[entry] as f64;
    let next = table[entry + 1] as f64;
    let after = table[entry + 2] as f64;
    Segment {
        low: decibels_at(entry),
        high: decibels_at(entry + 1),
        from: steps_at(entry),
        first,
        rise: next - first,
        second: after - 2.0 * next + first,
    }
}

impl Segment {
    // Whether a level stands between its ends.
    pub fn holds(self, level: Decibels) -> bool
        ensures { result ≡ contains self level.0 }
    {
        let n = level.0;
        if self.low < n {
            return n < self.high;
        }
        false
    }

    // The amplitude of such a level.
    pub fn amplitude_of(self, level: Decibels) -> Amplitude
        requires segment_of_the_table { IsSegment self }
        requires level_in_segment { T (contains self level.0) }
        ensures { result.0 ≡ amplitude level.0 }
    {
        let n = level.0;
        let rest = (n as f64) * 16.0 - self.from;
        let line = self.first + self.rise * rest;
        let value = line + rest * (rest - 1.0) / 2.0 * self.second;
        Amplitude(rounding::normal_f64_to_f32(value / 1099511627776.0))
    }
}
