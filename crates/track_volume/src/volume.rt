// What a track's frames are scaled by: its placing, and then volume times fade. kira's track/sub.rs,
// behind the effects.
ghost use Rattle.std.specs.Prelude.{◌≡◌, true, ◌*◌, ◌≤◌, length};
ghost use Rattle.gain_table.specs.GainTable.{IsGainTable};
ghost use Rattle.limits.specs.Limits.{chunk_frames_most};
ghost use Rattle.frame.specs.Frame.{scaled_by};
ghost use Rattle.frame.specs.Layout.{scratch, with_frames};
ghost use Rattle.spatial.specs.declared.placing.Placing.TheVariants.{Spatial};
ghost use Rattle.spatial.specs.Spatial.{PlacingIn};
ghost use Rattle.chunk.specs.Chunk.{is_steady, parts_of, LevelInRange};
ghost use Rattle.track_volume.specs.TrackVolume.{track_placed, track_scaled, track_placed_scaled};

use chunk::ChunkTrack;
use decibels::{Amplitude, Decibels};
use frame::{clear, each_frame, scale};
use gain_table::GainTable;
use level_amplitudes::Parts;
use limits::CHUNK_FRAMES;
use spatial::Placing;

// Chunks of fewer frames have no arrays of factors.
pub const FEW: usize = 8;

// `apply_volume` for a fade that stands still.
fn apply_moving_volume(
    out: &mut [f32],
    track: ChunkTrack,
    frames: usize,
    parts: &Parts,
    table: &GainTable,
)
    requires gain_table { IsGainTable table.now }
    requires room_for_chunk { (frames ≤ chunk_frames_most) × (2 * frames ≤ length out.old) }
    requires levels_in_range { LevelInRange track.volume × LevelInRange track.fade }
    requires parts_of_the_chunk { parts.now ≡ parts_of frames }
    requires steady_fade { is_steady track.fade ≡ true }
    ensures { out.new ≡ with_frames (scratch 0 frames) (track_scaled track frames) out.old }
{
    let volume = track.volume;
    let fade = track.fade;
    let by = fade.steady_amplitude(table);
    let mut factors = [0.0f32; CHUNK_FRAMES];
    volume.amplitudes(frames, parts, table, &mut factors);
    each_frame(out, 0, frames, |i, frame| {
        frame.scaled(Amplitude(factors[i] * by.0))
    });
}

// `apply_volume` where both may move.
fn apply_moving(out: &mut [f32], track: ChunkTrack, frames: usize, parts: &Parts, table: &GainTable)
    requires gain_table { IsGainTable table.now }
    requires room_for_chunk { (frames ≤ chunk_frames_most) × (2 * frames ≤ length out.old) }
    requires levels_in_range { LevelInRange track.volume × LevelInRange track.fade }
    requires parts_of_the_chunk { parts.now ≡ parts_of frames }
    ensures { out.new ≡ with_frames (scratch 0 frames) (track_scaled track frames) out.old }
{
    let volume = track.volume;
    let fade = track.fade;
    let mut volumes = [0.0f32; CHUNK_FRAMES];
    let mut fades = [0.0f32; CHUNK_FRAMES];
    volume.amplitudes(frames, parts, table, &mut volumes);
    fade.amplitudes(frames, parts, table, &mut fades);
    each_frame(out, 0, frames, |i, frame| {
        frame.scaled(Amplitude(volumes[i] * fades[i]))
    });
}

// The same in a chunk of few frames, where an array of factors would cost more than they do.
fn apply_each(out: &mut [f32], track: ChunkTrack, frames: usize, parts: &Parts, table: &GainTable)
    requires gain_table { IsGainTable table.now }
    requires room_for_chunk { (frames ≤ chunk_frames_most) × (2 * frames ≤ length out.old) }
    requires levels_in_range { LevelInRange track.volume × LevelInRange track.fade }
    requires parts_of_the_chunk { parts.now ≡ parts_of frames }
    ensures { out.new ≡ with_frames (scratch 0 frames) (track_scaled track frames) out.old }
{
    let volume = track.volume;
    let fade = track.fade;
    each_frame(out, 0, frames, |i, frame| {
        let a = volume.amplitude_at(i, frames, parts, table);
        let b = fade.amplitude_at(i, frames, parts, table);
        frame.scaled(Amplitude(a.0 * b.0))
    });
}

// Volume times fade scales each frame where one of them moves.
fn apply_moving_level(
    out: &mut [f32],
    track: ChunkTrack,
    frames: usize,
    parts: &Parts,
    table: &GainTable,
)
    requires gain_table { IsGainTable table.now }
    requires room_for_chunk { (frames ≤ chunk_frames_most) × (2 * frames ≤ length out.old) }
    requires levels_in_range { LevelInRange track.volume × LevelInRange track.fade }
    requires parts_of_the_chunk { parts.now ≡ parts_of frames }
    ensures { out.new ≡ with_frames (scratch 0 frames) (track_scaled track frames) out.old }
{
    let fade = track.fade;
    if frames < FEW {
        apply_each(out, track, frames, parts, table);
        return;
    }
    if fade.is_steady() {
        apply_moving_volume(out, track, frames, parts, table);
        return;
    }
    apply_moving(out, track, frames, parts, table);
}

// Volume times fade scales each frame.
fn apply_volume(out: &mut [f32], track: ChunkTrack, frames: usize, parts: &Parts, table: &GainTable)
    requires gain_table { IsGainTable table.now }
    requires room_for_chunk { (frames ≤ chunk_frames_most) × (2 * frames ≤ length out.old) }
    requires levels_in_range { LevelInRange track.volume × LevelInRange track.fade }
    requires parts_of_the_chunk { parts.now ≡ parts_of frames }
    ensures { out.new ≡ with_frames (scratch 0 frames) (track_scaled track frames) out.old }
{
    let volume = track.volume;
    let fade = track.fade;
    if fade.is_steady() {
        if volume.is_steady() {
            let a = volume.steady_amplitude(table);
            let b = fade.steady_amplitude(table);
            scale(out, frames, Amplitude(a.0 * b.0));
            return;
        }
    }
    apply_moving_level(out, track, frames, parts, table);
}

// Scales each frame by one factor, and what that gives by another.
fn scale_twice(out: &mut [f32], frames: usize, first: Amplitude, then: Amplitude)
    requires { 2 * frames ≤ length out.old }
    ensures { out.new ≡ with_frames (scratch 0 frames) (scaled_by then)
        (with_frames (scratch 0 frames) (scaled_by first) out.old) }
{
    each_frame(out, 0, frames, |_, frame| frame.scaled(first).scaled(then));
}

// A spatial track's level, and then volume times fade: one pass where both stand still.
fn apply_level_and_volume(
    out: &mut [f32],
    level: Decibels,
    track: ChunkTrack,
    frames: usize,
    parts: &Parts,
    table: &GainTable,
)
    requires gain_table { IsGainTable table.now }
    requires room_for_chunk { (frames ≤ chunk_frames_most) × (2 * frames ≤ length out.old) }
    requires levels_in_range { LevelInRange track.volume × LevelInRange track.fade }
    requires placing_in_range { PlacingIn (Spatial level) }
    requires parts_of_the_chunk { parts.now ≡ parts_of frames }
    ensures { out.new ≡ with_frames (scratch 0 frames) (track_scaled track frames)
        (with_frames (scratch 0 frames) (track_placed (Spatial level)) out.old) }
{
    let factor = level.as_amplitude_in(table);
    let volume = track.volume;
    let fade = track.fade;
    if fade.is_steady() {
        if volume.is_steady() {
            let a = volume.steady_amplitude(table);
            let b = fade.steady_amplitude(table);
            scale_twice(out, frames, factor, Amplitude(a.0 * b.0));
            return;
        }
    }
    scale(out, frames, factor);
    apply_volume(out, track, frames, parts, table);
}

// The placing scales each frame, or makes it zero where nobody listens; and then volume times fade.
pub fn apply_placing_and_volume(
    out: &mut [f32],
    track: ChunkTrack,
    frames: usize,
    parts: &Parts,
    table: &GainTable,
)
    requires gain_table { IsGainTable table.now }
    requires room_for_chunk { (frames ≤ chunk_frames_most) × (2 * frames ≤ length out.old) }
    requires levels_in_range { LevelInRange track.volume × LevelInRange track.fade }
    requires placing_in_range { PlacingIn track.placing }
    requires parts_of_the_chunk { parts.now ≡ parts_of frames }
    ensures { out.new ≡ with_frames (scratch 0 frames) (track_placed_scaled track frames) out.old }
{
    let placing = track.placing;
    match placing {
        Placing::Plain => {
            apply_volume(out, track, frames, parts, table);
        }
        Placing::Unheard => {
            clear(out, frames);
            apply_volume(out, track, frames, parts, table);
        }
        Placing::Spatial(level) => {
            apply_level_and_volume(out, level, track, frames, parts, table);
        }
    }
}
