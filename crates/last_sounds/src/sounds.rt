// The last two sounds of a track and what scales it, in one pass: each frame of the sum is read and
// written once.
ghost use Rattle.std.specs.Prelude.{◌≡◌, true, ◌*◌, ◌/◌, ◌≤◌, length};
ghost use Rattle.gain_table.specs.GainTable.{IsGainTable};
ghost use Rattle.limits.specs.Limits.{chunk_frames_most};
ghost use Rattle.frame.specs.Frame.{scaled_by};
ghost use Rattle.frame.specs.Layout.{scratch, with_frames};
ghost use Rattle.spatial.specs.declared.placing.Placing.TheVariants.{Plain};
ghost use Rattle.spatial.specs.Spatial.{PlacingIn};
ghost use Rattle.chunk.specs.Chunk.{is_steady, parts_of, LevelInRange};
ghost use Rattle.sound.specs.Part.{added_part};
ghost use Rattle.track_volume.specs.TrackVolume.{track_scaled, track_placed_scaled};

use chunk::ChunkTrack;
use decibels::Amplitude;
use frame::{each_frame, sample_frame};
use gain_table::GainTable;
use level_amplitudes::Parts;
use limits::CHUNK_FRAMES;
use sound::add_sound;
use spatial::Placing;
use track_volume::{FEW, apply_placing_and_volume};

// Adds two parts that have all of the frames, one and then the other, and scales each frame by one
// factor.
fn add_and_scale(out: &mut [f32], first: &[f32], second: &[f32], frames: usize, factor: Amplitude)
    requires room_for_frames { 2 * frames ≤ length out.old }
    requires frames_in_both { (frames ≤ length first.now / 2) × (frames ≤ length second.now / 2) }
    ensures { out.new ≡ with_frames (scratch 0 frames) (scaled_by factor)
        (with_frames (scratch 0 frames) (added_part second.now)
        (with_frames (scratch 0 frames) (added_part first.now) out.old)) }
{
    each_frame(out, 0, frames, |i, frame| {
        let sum = frame.added(sample_frame(first, i));
        sum.added(sample_frame(second, i)).scaled(factor)
    });
}

// The same with volume times fade, of which the fade stands still.
fn add_with_moving_volume(
    out: &mut [f32],
    first: &[f32],
    second: &[f32],
    track: ChunkTrack,
    frames: usize,
    parts: &Parts,
    table: &GainTable,
)
    requires gain_table { IsGainTable table.now }
    requires room_for_chunk { (frames ≤ chunk_frames_most) × (2 * frames ≤ length out.old) }
    requires frames_in_both { (frames ≤ length first.now / 2) × (frames ≤ length second.now / 2) }
    requires levels_in_range { LevelInRange track.volume × LevelInRange track.fade }
    requires parts_of_the_chunk { parts.now ≡ parts_of frames }
    requires steady_fade { is_steady track.fade ≡ true }
    ensures { out.new ≡ with_frames (scratch 0 frames) (track_scaled track frames)
        (with_frames (scratch 0 frames) (added_part second.now)
        (with_frames (scratch 0 frames) (added_part first.now) out.old)) }
{
    let volume = track.volume;
    let fade = track.fade;
    let by = fade.steady_amplitude(table);
    let mut factors = [0.0f32; CHUNK_FRAMES];
    volume.amplitudes(frames, parts, table, &mut factors);
    each_frame(out, 0, frames, |i, frame| {
        let sum = frame.added(sample_frame(first, i));
        let by = Amplitude(factors[i] * by.0);
        sum.added(sample_frame(second, i)).scaled(by)
    });
}

// The same, whether the volume moves or not.
fn add_and_apply_volume(
    out: &mut [f32],
    first: &[f32],
    second: &[f32],
    track: ChunkTrack,
    frames: usize,
    parts: &Parts,
    table: &GainTable,
)
    requires gain_table { IsGainTable table.now }
    requires room_for_chunk { (frames ≤ chunk_frames_most) × (2 * frames ≤ length out.old) }
    requires frames_in_both { (frames ≤ length first.now / 2) × (frames ≤ length second.now / 2) }
    requires levels_in_range { LevelInRange track.volume × LevelInRange track.fade }
    requires parts_of_the_chunk { parts.now ≡ parts_of frames }
    requires steady_fade { is_steady track.fade ≡ true }
    ensures { out.new ≡ with_frames (scratch 0 frames) (track_scaled track frames)
        (with_frames (scratch 0 frames) (added_part second.now)
        (with_frames (scratch 0 frames) (added_part first.now) out.old)) }
{
    let volume = track.volume;
    let fade = track.fade;
    if volume.is_steady() {
        let a = volume.steady_amplitude(table);
        let b = fade.steady_amplitude(table);
        add_and_scale(out, first, second, frames, Amplitude(a.0 * b.0));
        return;
    }
    add_with_moving_volume(out, first, second, track, frames, parts, table);
}

fn is_plain(placing: Placing) -> bool
    ensures { result ≡ true → placing ≡ Plain }
{
    matches!(placing, Placing::Plain)
}

// Whether both parts have so many frames, and those are not few: a pass of its own is cheap then.
fn both_have(first: &[f32], second: &[f32], frames: usize) -> bool
    ensures { result ≡ true → (frames ≤ length first.now / 2) × (frames ≤ length second.now / 2) }
{
    FEW <= frames && frames <= first.len() / 2 && frames <= second.len() / 2
}

// Adds what is left of two sounds, one and then the other, and then the placing and volume times fade
// scale each frame: one pass for a plain track whose fade stands still, where both sounds last.
pub fn add_last_sounds(
    out: &mut [f32],
    first: &[f32],
    second: &[f32],
    track: ChunkTrack,
    frames: usize,
    parts: &Parts,
    table: &GainTable,
)
    requires gain_table { IsGainTable table.now }
    requires room_for_chunk { (frames ≤ chunk_frames_most) × (2 * frames ≤ length out.old) }
    requires levels_in_range { LevelInRange track.volume × LevelInRange track.fade }
    requires placing_in_range { PlacingIn track.placing }
    requires parts_of_the_chunk { parts.now ≡ parts_of frames }
    ensures { out.new ≡ with_frames (scratch 0 frames) (track_placed_scaled track frames)
        (with_frames (scratch 0 frames) (added_part second.now)
        (with_frames (scratch 0 frames) (added_part first.now) out.old)) }
{
    let placing = track.placing;
    let fade = track.fade;
    if is_plain(placing) {
        if fade.is_steady() {
            if both_have(first, second, frames) {
                add_and_apply_volume(out, first, second, track, frames, parts, table);
                return;
            }
        }
    }
    add_sound(out, first, frames);
    add_sound(out, second, frames);
    apply_placing_and_volume(out, track, frames, parts, table);
}
