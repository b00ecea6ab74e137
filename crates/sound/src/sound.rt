// A sound: frames of the buffer that it is from in turn, then zeros. They are added from that buffer
// straight onto the sum: nothing is copied in between.
ghost use Rattle.std.specs.Prelude.{◌≡◌, ◌+◌, ◌*◌, ◌/◌, ◌≤◌, length};
ghost use Rattle.recordings.specs.Recordings.{recording};
ghost use Rattle.frame.specs.Frame.{from_frame};
ghost use Rattle.frame.specs.Layout.{scratch, with_first, with_frames};
ghost use Rattle.sound.specs.Part.{remaining_part, added_part, added_zero};

use chunk::ChunkSound;
use frame::{Frame, frame_at, put_frame, sample_frame};
use recordings::Recordings;

// What the sound still has to play: that part of whichever buffer it is from, and no copy of it.
pub fn remaining<'a>(heard: &Recordings<'a>, sound: ChunkSound) -> &'a [f32]
    requires { 2 * (sound.start + sound.left) ≤ length (recording heard.now sound.from) }
    ensures { result.now ≡ remaining_part heard.now sound }
{
    let start = sound.start;
    let left = sound.left;
    &heard.recording(sound.from)[2 * start..2 * (start + left)]
}

// Adds the first `count` frames of the part.
fn add_played(to: &mut [f32], part: &[f32], count: usize, frames: usize)
    requires room_for_frames { 2 * frames ≤ length to.old }
    requires played_frames_there { (count ≤ length part.now / 2) × (count ≤ frames) }
    ensures { to.new ≡ with_first (scratch 0 frames) (added_part part.now) count to.old }
{
    for i in 0..count {
        let sum = frame_at(to, 0, frames, i).added(sample_frame(part, i));
        put_frame(to, 0, frames, i, sum);
    }
}

// Adds zeros from frame `first` on.
fn add_silence(to: &mut [f32], first: usize, frames: usize)
    requires room_for_frames { 2 * frames ≤ length to.old }
    requires first_within_frames { first ≤ frames }
    ensures { to.new ≡ with_frames (scratch 0 frames) (from_frame first added_zero) to.old }
{
    for i in first..frames {
        let sum = frame_at(to, 0, frames, i).added(Frame::zero());
        put_frame(to, 0, frames, i, sum);
    }
}

// Adds what is left of a sound, and the zeros that follow it, onto the sum of a chunk.
pub fn add_sound(to: &mut [f32], part: &[f32], frames: usize)
    requires { 2 * frames ≤ length to.old }
    ensures { to.new ≡ with_frames (scratch 0 frames) (added_part part.now) to.old }
{
    let left = part.len() / 2;
    if frames <= left {
        add_played(to, part, frames, frames);
        return;
    }
    add_played(to, part, left, frames);
    add_silence(to, left, frames);
}
