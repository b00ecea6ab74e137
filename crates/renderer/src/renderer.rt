// kira's backend/renderer.rs.
ghost use Rattle.std.specs.Prelude.{◌≡◌, ◌*◌, ◌≤◌, length, replicate};
ghost use Rattle.limits.specs.Limits.{chunk_frames_most, block_frames_most, channels_most, rate_most};
ghost use Rattle.laws.specs.Pieces.{pieces};
ghost use Rattle.clock.specs.ChunkTime.{chunk_time};
ghost use Rattle.frame.specs.Frame.{clamped, zero_sample};
ghost use Rattle.frame.specs.Layout.{scratch, frame_at};
ghost use Rattle.renderer.specs.Renderer.{chunk_count, chunk_frames, channels_of};

use frame::frame_at;
use scene::Head;

pub fn chunk_count(head: Head) -> usize
    requires { (1 ≤ head.buffer) × (head.buffer ≤ chunk_frames_most) × (head.block ≤ block_frames_most) }
    ensures { result ≡ chunk_count head }
{
    (head.block + head.buffer - 1) / head.buffer
}

// A chunk of `buffer` frames, or what is left of the block.
pub fn chunk_frames(head: Head, k: usize) -> usize
    requires chunk_in_block { k * head.buffer ≤ head.block }
    requires block_in_range { head.block ≤ block_frames_most }
    ensures { result ≡ chunk_frames head k }
{
    let left = head.block - k * head.buffer;
    if left < head.buffer {
        return left;
    }
    head.buffer
}

// (1.0 / rate) * n, as kira has it.
pub fn chunk_seconds(rate: usize, frames: usize) -> f64
    requires { (rate ≤ rate_most) × (frames ≤ chunk_frames_most) }
    ensures { result ≡ chunk_time rate frames }
{
    (1.0 / (rate as f64)) * (frames as f64)
}

// One channel is both sides folded. Neither here nor below is anything tested for each sample, so that
// the loops vectorise.
fn write_mono(out: &mut [f32], mix: &[f32], frames: usize)
    requires out_sized { length out.old ≡ frames * 1 }
    requires frames_in_mix { 2 * frames ≤ length mix.now }
    requires frames_in_a_chunk { frames ≤ chunk_frames_most }
    ensures { out.new ≡ pieces (λ i. channels_of 1 (clamped (frame_at (scratch 0 frames) mix.now i))) frames }
{
    let mut i = 0;
    while i < frames {
        let both = frame_at(mix, 0, frames, i).clamped();
        out[i] = (both.left + both.right) / 2.0;
        i += 1;
    }
}

// Two channels are the two sides.
fn write_stereo(out: &mut [f32], mix: &[f32], frames: usize)
    requires out_sized { length out.old ≡ frames * 2 }
    requires frames_in_mix { 2 * frames ≤ length mix.now }
    requires frames_in_a_chunk { frames ≤ chunk_frames_most }
    ensures { out.new ≡ pieces (λ i. channels_of 2 (clamped (frame_at (scratch 0 frames) mix.now i))) frames }
{
    let mut i = 0;
    while i < frames {
        let sides = frame_at(mix, 0, frames, i).clamped();
        out[2 * i] = sides.left;
        out[2 * i + 1] = sides.right;
        i += 1;
    }
}

fn silence(out: &mut [f32])
    ensures { out.new ≡ replicate (length out.old) zero_sample }
{
    let mut i = 0;
    while i < out.len() {
        out[i] = 0.0;
        i += 1;
    }
}

// Of more channels the first two are the sides, and the others silent: all of them at once, before.
fn write_wide(out: &mut [f32], channels: usize, mix: &[f32], frames: usize)
    requires out_sized { length out.old ≡ frames * channels }
    requires frames_in_mix { 2 * frames ≤ length mix.now }
    requires frames_and_channels_in_range { (frames ≤ chunk_frames_most) × (2 ≤ channels) × (channels ≤ channels_most) }
    ensures { out.new ≡ pieces (λ i. channels_of channels (clamped (frame_at (scratch 0 frames) mix.now i))) frames }
{
    silence(out);
    let mut at = 0;
    let mut i = 0;
    while i < frames {
        let frame = frame_at(mix, 0, frames, i).clamped();
        out[at] = frame.left;
        out[at + 1] = frame.right;
        at += channels;
        i += 1;
    }
}

// Frames are clamped, and then folded to the channels.
pub fn write_frames(out: &mut [f32], channels: usize, mix: &[f32], frames: usize)
    requires out_sized { length out.old ≡ frames * channels }
    requires frames_in_mix { 2 * frames ≤ length mix.now }
    requires frames_and_channels_in_range { (frames ≤ chunk_frames_most) × (1 ≤ channels) × (channels ≤ channels_most) }
    ensures { out.new ≡ pieces (λ i. channels_of channels (clamped (frame_at (scratch 0 frames) mix.now i))) frames }
{
    if channels == 1 {
        write_mono(out, mix, frames);
        return;
    }
    if channels == 2 {
        write_stereo(out, mix, frames);
        return;
    }
    write_wide(out, channels, mix, frames);
}
