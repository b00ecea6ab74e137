// kira's track/send.rs: a send track's frames, and the scaling by one level that it shares with the
// main track.
ghost use Rattle.std.specs.Prelude.{◌≡◌, true, ◌+◌, ◌*◌, ◌≤◌, length};
ghost use Rattle.limits.specs.Limits.{send_lines, chunk_frames_most};
ghost use Rattle.gain_table.specs.GainTable.{IsGainTable};
ghost use Rattle.frame.specs.Frame.{cleared};
ghost use Rattle.frame.specs.Layout.{scratch, frame_at, with_frames};
ghost use Rattle.chunk.specs.Chunk.{is_steady, parts_of, LevelInRange};
ghost use Rattle.send_track.specs.Send.{level_scaled, added_send, send_places, cleared_sends};

use chunk::Level;
use decibels::Amplitude;
use frame::{Frame, each_frame, frame_at, scale};
use gain_table::GainTable;
use level_amplitudes::Parts;
use limits::{CHUNK_FRAMES, SEND_LINES};
use track_volume::FEW;

// The inputs of all send tracks stand in one buffer, each in its own part, which has room for the
// longest chunk.
pub const SEND_PART: usize = 2 * CHUNK_FRAMES;

pub const SEND_PLACES: usize = SEND_LINES * SEND_PART;

// Clears the input that stands from place `first` on.
fn clear_send(sends: &mut [f32], first: usize, frames: usize)
    requires { first + 2 * frames ≤ length sends.old }
    ensures { sends.new ≡ with_frames (scratch first frames) cleared sends.old }
{
    each_frame(sends, first, frames, |_, _| Frame::zero());
}

// Clears the inputs of the first `count` send tracks.
pub fn clear_sends(sends: &mut [f32], count: usize, frames: usize)
    requires sends_fit { count ≤ send_lines }
    requires frames_in_a_chunk { frames ≤ chunk_frames_most }
    requires sends_sized { length sends.old ≡ send_places }
    ensures { sends.new ≡ cleared_sends frames count sends.old }
{
    for s in 0..count {
        clear_send(sends, s * SEND_PART, frames);
    }
}

// `apply_level` by an array of factors.
fn apply_factors(out: &mut [f32], level: Level, frames: usize, parts: &Parts, table: &GainTable)
    requires gain_table { IsGainTable table.now }
    requires room_for_chunk { (frames ≤ chunk_frames_most) × (2 * frames ≤ length out.old) }
    requires level_in_range { LevelInRange level }
    requires parts_of_the_chunk { parts.now ≡ parts_of frames }
    ensures { out.new ≡ with_frames (scratch 0 frames) (level_scaled level frames) out.old }
{
    let mut factors = [0.0f32; CHUNK_FRAMES];
    level.amplitudes(frames, parts, table, &mut factors);
    each_frame(
        out,
        0,
        frames,
        |i, frame| frame.scaled(Amplitude(factors[i])),
    );
}

// The same in a chunk of few frames, without the array.
#[tactic(auto, unfolding(crate::specs::Send::level_scaled))]
fn apply_each(out: &mut [f32], level: Level, frames: usize, parts: &Parts, table: &GainTable)
    requires gain_table { IsGainTable table.now }
    requires room_for_chunk { (frames ≤ chunk_frames_most) × (2 * frames ≤ length out.old) }
    requires level_in_range { LevelInRange level }
    requires parts_of_the_chunk { parts.now ≡ parts_of frames }
    ensures { out.new ≡ with_frames (scratch 0 frames) (level_scaled level frames) out.old }
{
    each_frame(out, 0, frames, |i, frame| {
        frame.scaled(level.amplitude_at(i, frames, parts, table))
    });
}

// Scales each frame by one level.
pub fn apply_level(out: &mut [f32], level: Level, frames: usize, parts: &Parts, table: &GainTable)
    requires gain_table { IsGainTable table.now }
    requires room_for_chunk { (frames ≤ chunk_frames_most) × (2 * frames ≤ length out.old) }
    requires level_in_range { LevelInRange level }
    requires parts_of_the_chunk { parts.now ≡ parts_of frames }
    ensures { out.new ≡ with_frames (scratch 0 frames) (level_scaled level frames) out.old }
{
    if level.is_steady() {
        let factor = level.steady_amplitude(table);
        scale(out, frames, factor);
        return;
    }
    if frames < FEW {
        apply_each(out, level, frames, parts, table);
        return;
    }
    apply_factors(out, level, frames, parts, table);
}

// `add_send` for a level that stands still.
fn add_steady_send(
    out: &mut [f32],
    inputs: &[f32],
    first: usize,
    level: Level,
    frames: usize,
    table: &GainTable,
)
    requires gain_table { IsGainTable table.now }
    requires room_for_chunk { (frames ≤ chunk_frames_most) × (2 * frames ≤ length out.old) }
    requires frames_in_inputs { first + 2 * frames ≤ length inputs.now }
    requires level_in_range { LevelInRange level }
    requires steady_level { is_steady level ≡ true }
    ensures { out.new ≡ with_frames (scratch 0 frames)
        (added_send level frames (frame_at (scratch first frames) inputs.now)) out.old }
{
    let factor = level.steady_amplitude(table);
    each_frame(out, 0, frames, |i, sum| {
        let input = Frame::zero().added(frame_at(inputs, first, frames, i));
        sum.added(input.scaled(factor))
    });
}

// Adds a send track's scaled frames onto the mix. Its input stands in `inputs` from place `first` on.
pub fn add_send(
    out: &mut [f32],
    inputs: &[f32],
    first: usize,
    level: Level,
    frames: usize,
    parts: &Parts,
    table: &GainTable,
)
    requires gain_table { IsGainTable table.now }
    requires room_for_chunk { (frames ≤ chunk_frames_most) × (2 * frames ≤ length out.old) }
    requires frames_in_inputs { first + 2 * frames ≤ length inputs.now }
    requires level_in_range { LevelInRange level }
    requires parts_of_the_chunk { parts.now ≡ parts_of frames }
    ensures { out.new ≡ with_frames (scratch 0 frames)
        (added_send level frames (frame_at (scratch first frames) inputs.now)) out.old }
{
    if level.is_steady() {
        add_steady_send(out, inputs, first, level, frames, table);
        return;
    }
    let mut factors = [0.0f32; CHUNK_FRAMES];
    level.amplitudes(frames, parts, table, &mut factors);
    each_frame(out, 0, frames, |i, sum| {
        let input = Frame::zero().added(frame_at(inputs, first, frames, i));
        sum.added(input.scaled(Amplitude(factors[i])))
    });
}
