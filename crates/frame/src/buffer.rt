// Buffers of frames: slices of f32. Of a sample buffer left and right stand in turn; how the frames of
// a chunk stand in what tracks are mixed in is the layout `scratch`, and only `frame_at`, `put_frame`
// and `add_to_three` know it.
ghost use Rattle.std.specs.Prelude.{◌≡◌, ℕ, ◌⊎◌, ◌+◌, ◌*◌, ◌≤◌, ◌<◌, length};
ghost use Rattle.frame.specs.Frame.{sample_frame, cleared, added_from, added_scaled, scaled_by};
ghost use Rattle.frame.specs.Layout.{scratch, frame_at, put_frame, with_frames, StepIs};

use crate::frame::Frame;
use decibels::Amplitude;

#[tactic(auto, unfolding(crate::specs::Frame::sample_frame))]
pub fn sample_frame(samples: &[f32], k: usize) -> Frame
    requires { 2 * k + 1 < length samples.now }
    ensures { result ≡ sample_frame samples.now k }
{
    Frame {
        left: samples[2 * k],
        right: samples[2 * k + 1],
    }
}

// Frame i of the `frames` frames that stand in the buffer from place `first` on.
#[tactic(auto, unfolding(crate::specs::Layout::planar, crate::specs::Layout::frame_at))]
pub fn frame_at(buffer: &[f32], first: usize, frames: usize, i: usize) -> Frame
    requires frame_in_range { i < frames }
    requires frames_in_buffer { first + 2 * frames ≤ length buffer.now }
    ensures { result ≡ frame_at (scratch first frames) buffer.now i }
{
    Frame {
        left: buffer[first + i],
        right: buffer[first + frames + i],
    }
}

#[tactic(auto, unfolding(crate::specs::Layout::planar, crate::specs::Layout::put_frame))]
pub fn put_frame(buffer: &mut [f32], first: usize, frames: usize, i: usize, frame: Frame)
    requires frame_in_range { i < frames }
    requires room_for_frames { first + 2 * frames ≤ length buffer.old }
    ensures { buffer.new ≡ put_frame (scratch first frames) buffer.old i frame }
{
    buffer[first + i] = frame.left;
    buffer[first + frames + i] = frame.right;
}

// Replaces each of the `frames` frames that stand from place `first` on by what `step` makes of its
// number and of itself.
pub fn each_frame<F: Fn(usize, Frame) -> Frame>(
    buffer: &mut [f32],
    first: usize,
    frames: usize,
    step: F,
)
    requires room_for_frames { first + 2 * frames ≤ length buffer.old }
    requires callable { (i : ℕ) (a : Frame) → i < frames → F.pre step i a }
    ensures { (f : ℕ → Frame → Frame) → StepIs frames (F.post step) f → buffer.new ≡ with_frames (scratch first frames) f buffer.old }
{
    for i in 0..frames {
        let frame = step(i, frame_at(buffer, first, frames, i));
        put_frame(buffer, first, frames, i, frame);
    }
}

pub fn clear(buffer: &mut [f32], frames: usize)
    requires { 2 * frames ≤ length buffer.old }
    ensures { buffer.new ≡ with_frames (scratch 0 frames) cleared buffer.old }
{
    each_frame(buffer, 0, frames, |_, _| Frame::zero());
}

// Adds each frame of `from` onto that of `to`.
#[tactic(auto, unfolding(crate::specs::Frame::added_from))]
pub fn add_frames(to: &mut [f32], from: &[f32], frames: usize)
    requires room_for_frames { 2 * frames ≤ length to.old }
    requires frames_to_add { 2 * frames ≤ length from.now }
    ensures { to.new ≡ with_frames (scratch 0 frames) (added_from (frame_at (scratch 0 frames) from.now)) to.old }
{
    each_frame(
        to,
        0,
        frames,
        |i, frame| frame.added(frame_at(from, 0, frames, i)),
    );
}

// Adds each frame of `from`, scaled, onto that of `to`, whose frames stand from place `first` on.
#[tactic(auto, unfolding(crate::specs::Frame::added_scaled))]
pub fn add_scaled(to: &mut [f32], first: usize, from: &[f32], frames: usize, factor: Amplitude)
    requires room_for_frames { first + 2 * frames ≤ length to.old }
    requires frames_to_add { 2 * frames ≤ length from.now }
    ensures { to.new ≡ with_frames (scratch first frames)
        (added_scaled (frame_at (scratch 0 frames) from.now) factor) to.old }
{
    each_frame(to, first, frames, |i, frame| {
        frame.added(frame_at(from, 0, frames, i).scaled(factor))
    });
}

// Adds each frame of `from` onto that of `to` and, scaled, onto that of `other`, whose frames stand
// from place `first` on: `add_frames` and `add_scaled` in one pass.
pub fn add_to_both(
    to: &mut [f32],
    other: &mut [f32],
    first: usize,
    from: &[f32],
    frames: usize,
    factor: Amplitude,
)
    requires room_for_frames { 2 * frames ≤ length to.old }
    requires room_for_first { first + 2 * frames ≤ length other.old }
    requires frames_to_add { 2 * frames ≤ length from.now }
    ensures to { to.new ≡ with_frames (scratch 0 frames) (added_from (frame_at (scratch 0 frames) from.now)) to.old }
    ensures other { other.new ≡ with_frames (scratch first frames)
        (added_scaled (frame_at (scratch 0 frames) from.now) factor) other.old }
{
    for i in 0..frames {
        let frame = frame_at(from, 0, frames, i);
        let sum = frame_at(to, 0, frames, i).added(frame);
        let sent = frame_at(other, first, frames, i).added(frame.scaled(factor));
        put_frame(to, 0, frames, i, sum);
        put_frame(other, first, frames, i, sent);
    }
}

// Adds each frame of `from` onto that of `to` and, scaled, onto two of `other`, whose frames stand from
// places `first` and `second` on: onto the one, then onto the other, which may be the same, but may not
// begin within it, since sums would be taken in another order. One loop over both sides, which stand
// side by side, so that the compiler has few parts to tell apart.
pub fn add_to_three(
    to: &mut [f32],
    other: &mut [f32],
    first: usize,
    second: usize,
    from: &[f32],
    frames: usize,
    factor: Amplitude,
    then: Amplitude,
)
    requires room_for_frames { 2 * frames ≤ length to.old }
    requires room_for_first { first + 2 * frames ≤ length other.old }
    requires room_for_second { second + 2 * frames ≤ length other.old }
    requires frames_to_add { 2 * frames ≤ length from.now }
    requires second_not_inside_first { (second ≤ first) ⊎ (first + 2 * frames ≤ second) }
    ensures to { to.new ≡ with_frames (scratch 0 frames) (added_from (frame_at (scratch 0 frames) from.now)) to.old }
    ensures other { other.new ≡ with_frames (scratch second frames)
        (added_scaled (frame_at (scratch 0 frames) from.now) then)
        (with_frames (scratch first frames)
        (added_scaled (frame_at (scratch 0 frames) from.now) factor) other.old) }
{
    for i in 0..2 * frames {
        let x = from[i];
        to[i] = to[i] + x;
        other[first + i] = other[first + i] + x * factor.0;
        other[second + i] = other[second + i] + x * then.0;
    }
}

// Scales each frame by one factor.
#[tactic(auto, unfolding(crate::specs::Frame::scaled_by))]
pub fn scale(out: &mut [f32], frames: usize, factor: Amplitude)
    requires { 2 * frames ≤ length out.old }
    ensures { out.new ≡ with_frames (scratch 0 frames) (scaled_by factor) out.old }
{
    each_frame(out, 0, frames, |_, frame| frame.scaled(factor));
}
