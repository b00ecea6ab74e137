// A moving level's amplitudes. Most chunks, and most runs of frames, lie inside one segment of the gain
// table, and there nothing is tested and nothing looked up, so that the loop vectorises. Within a chunk
// a level never turns: a segment that holds two frames holds all between them.
ghost use Rattle.std.specs.Prelude.{◌≡◌, ◌&&◌, cond, ℕ, ◌≤◌, ◌<◌, T};
ghost use Rattle.std.specs.Float.{binary32};
ghost use Rattle.limits.specs.Limits.{chunk_frames_most};
ghost use Rattle.gain_table.specs.GainTable.{IsGainTable};
ghost use Rattle.decibels.specs.Decibels.{amplitude, admitted};
ghost use Rattle.gain_segment.specs.Segment.{IsSegment, contains};
ghost use Rattle.laws.specs.Interpolate.{interpolate};
ghost use Rattle.level_amplitudes.specs.Amplitudes.{value_at, with_amplitudes, with_run, Monotone};

use decibels::{Amplitude, Decibels};
use gain_segment::{Segment, segment_of};
use gain_table::GainTable;
use limits::CHUNK_FRAMES;

// The parts of a chunk at which its frames are read, and the factors of its frames.
pub type Parts = [f32; CHUNK_FRAMES];

pub type Factors = [f32; CHUNK_FRAMES];

// How many frames are tried at once where a chunk crosses segments: one is a sixteenth of a decibel,
// which a fade of seconds takes hundreds of frames to cross.
const RUN: usize = 32;

// A value between two, as kira's `Tweenable` has it.
fn value_by(before: Decibels, after: Decibels, part: f32) -> Decibels
    ensures { result.0 ≡ interpolate binary32 before.0 after.0 part }
{
    Decibels(before.0 + (after.0 - before.0) * part)
}

// Whether a segment holds both ends of a run.
fn holds_both(segment: Segment, start: Decibels, end: Decibels) -> bool
    ensures { result ≡ (contains segment start.0 && contains segment end.0) }
{
    segment.holds(start) && segment.holds(end)
}

// The factors of frames from `first` up to `to` that all lie inside the segment.
fn set_inside(
    before: Decibels,
    after: Decibels,
    parts: &Parts,
    segment: Segment,
    first: usize,
    to: usize,
    factors: &mut Factors,
)
    requires run_in_chunk { (first ≤ to) × (to ≤ chunk_frames_most) }
    requires segment_of_the_table { IsSegment segment }
    requires values_in_segment { (i : ℕ) → first ≤ i → i < to → T (contains segment (value_at before after parts.now i)) }
    ensures { factors.new ≡ with_run before after parts.now first to factors.old }
{
    for i in first..to {
        let value = value_by(before, after, parts[i]);
        let amplitude = segment.amplitude_of(value);
        factors[i] = amplitude.0;
    }
}

// The amplitude of frame i alone.
pub fn amplitude_at(
    before: Decibels,
    after: Decibels,
    parts: &Parts,
    i: usize,
    table: &GainTable,
) -> Amplitude
    requires gain_table { IsGainTable table.now }
    requires frame_in_range { i < chunk_frames_most }
    requires admitted { T (admitted (value_at before after parts.now i)) }
    ensures { result.0 ≡ amplitude (value_at before after parts.now i) }
{
    let value = value_by(before, after, parts[i]);
    value.as_amplitude_in(table)
}

// The same wherever they lie.
fn set_each(
    before: Decibels,
    after: Decibels,
    parts: &Parts,
    table: &GainTable,
    first: usize,
    to: usize,
    factors: &mut Factors,
)
    requires gain_table { IsGainTable table.now }
    requires run_in_chunk { (first ≤ to) × (to ≤ chunk_frames_most) }
    requires admitted { (i : ℕ) → i < to → T (admitted (value_at before after parts.now i)) }
    ensures { factors.new ≡ with_run before after parts.now first to factors.old }
{
    for i in first..to {
        let value = value_by(before, after, parts[i]);
        let amplitude = value.as_amplitude_in(table);
        factors[i] = amplitude.0;
    }
}

// The same where one segment holds the run's two ends, and so the whole run; says whether it does.
fn set_if_inside(
    before: Decibels,
    after: Decibels,
    parts: &Parts,
    table: &GainTable,
    first: usize,
    to: usize,
    factors: &mut Factors,
) -> bool
    requires gain_table { IsGainTable table.now }
    requires nonempty_run_in_chunk { (first < to) × (to ≤ chunk_frames_most) }
    requires admitted { (i : ℕ) → i < to → T (admitted (value_at before after parts.now i)) }
    requires monotone { Monotone before after parts.now to }
    ensures { factors.new ≡ cond result (with_run before after parts.now first to factors.old) factors.old }
{
    let last = to - 1;
    let start = value_by(before, after, parts[first]);
    let end = value_by(before, after, parts[last]);
    let segment = segment_of(start, table);
    if holds_both(segment, start, end) {
        set_inside(before, after, parts, segment, first, to, factors);
        return true;
    }
    false
}

// A run of frames.
fn set_run(
    before: Decibels,
    after: Decibels,
    parts: &Parts,
    table: &GainTable,
    first: usize,
    to: usize,
    factors: &mut Factors,
)
    requires gain_table { IsGainTable table.now }
    requires nonempty_run_in_chunk { (first < to) × (to ≤ chunk_frames_most) }
    requires admitted { (i : ℕ) → i < to → T (admitted (value_at before after parts.now i)) }
    requires monotone { Monotone before after parts.now to }
    ensures { factors.new ≡ with_run before after parts.now first to factors.old }
{
    if set_if_inside(before, after, parts, table, first, to, factors) {
        return;
    }
    set_each(before, after, parts, table, first, to, factors);
}

// Where the run from `first` on ends.
fn run_end(first: usize, frames: usize) -> usize
    requires { (first < frames) × (frames ≤ chunk_frames_most) }
    ensures { (first < result) × (result ≤ frames) }
{
    frames.min(first + RUN)
}

// The frames of a chunk, run by run.
fn set_runs(
    before: Decibels,
    after: Decibels,
    frames: usize,
    parts: &Parts,
    table: &GainTable,
    factors: &mut Factors,
)
    requires gain_table { IsGainTable table.now }
    requires frames_in_a_chunk { frames ≤ chunk_frames_most }
    requires admitted { (i : ℕ) → i < frames → T (admitted (value_at before after parts.now i)) }
    requires monotone { Monotone before after parts.now frames }
    ensures { factors.new ≡ with_amplitudes before after parts.now frames factors.old }
{
    let mut first = 0;
    while first < frames {
        let to = run_end(first, frames);
        set_run(before, after, parts, table, first, to, factors);
        first = to;
    }
}

// The amplitudes of a chunk's frames, of a level that moves from `before` to `after` in it. The whole
// chunk is tried first: most of those of a fade of seconds lie inside one segment.
pub fn amplitudes(
    before: Decibels,
    after: Decibels,
    frames: usize,
    parts: &Parts,
    table: &GainTable,
    factors: &mut Factors,
)
    requires gain_table { IsGainTable table.now }
    requires frames_in_a_chunk { frames ≤ chunk_frames_most }
    requires admitted { (i : ℕ) → i < frames → T (admitted (value_at before after parts.now i)) }
    requires monotone { Monotone before after parts.now frames }
    ensures { factors.new ≡ with_amplitudes before after parts.now frames factors.old }
{
    if frames == 0 {
        return;
    }
    if set_if_inside(before, after, parts, table, 0, frames, factors) {
        return;
    }
    set_runs(before, after, frames, parts, table, factors);
}
