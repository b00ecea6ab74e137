// A frame has a value for each channel. Of one channel both sides of a frame have the value, and the
// left side is what is written.
ghost use Rattle.std.specs.Prelude.{◌≡◌, ◌⊎◌, ◌+◌, ◌*◌, ◌/◌, ◌%◌, ◌≤◌, length};
ghost use Rattle.laws.specs.Pieces.{pieces, put_at};
ghost use Rattle.pcm.specs.Sample.{width};
ghost use Rattle.sound_data.specs.Data.{samples_in, encoded_at, data_of, AllInRange, Steps};

use byte_order::ByteOrder;
use pcm::{Encoding, put_sample, sample_at};

fn read_stereo(
    bytes: &[u8],
    start: usize,
    encoding: Encoding,
    order: ByteOrder,
    samples: &mut [f32],
)
    requires samples_in_pairs { length samples.old % 2 ≡ 0 }
    requires values_in_bytes { start + length samples.old * width encoding ≤ length bytes.now }
    ensures { samples.new ≡ samples_in encoding order 2 bytes.now start (length samples.old / 2) }
{
    let step = encoding.width();
    for i in 0..samples.len() {
        samples[i] = sample_at(bytes, start + i * step, encoding, order);
    }
}

fn read_mono(bytes: &[u8], start: usize, encoding: Encoding, order: ByteOrder, samples: &mut [f32])
    requires samples_in_pairs { length samples.old % 2 ≡ 0 }
    requires values_in_bytes { start + length samples.old / 2 * width encoding ≤ length bytes.now }
    ensures { samples.new ≡ samples_in encoding order 1 bytes.now start (length samples.old / 2) }
{
    let step = encoding.width();
    let frames = samples.len() / 2;
    for i in 0..frames {
        let x = sample_at(bytes, start + i * step, encoding, order);
        samples[i * 2] = x;
        samples[i * 2 + 1] = x;
    }
}

fn read_encoded(
    bytes: &[u8],
    start: usize,
    channels: usize,
    encoding: Encoding,
    order: ByteOrder,
    samples: &mut [f32],
)
    requires one_or_two_channels { (channels ≡ 1) ⊎ (channels ≡ 2) }
    requires samples_in_pairs { length samples.old % 2 ≡ 0 }
    requires values_in_bytes { start + length samples.old / 2 * channels * width encoding ≤ length bytes.now }
    ensures { samples.new ≡ samples_in encoding order channels bytes.now start (length samples.old / 2) }
{
    if channels == 1 {
        read_mono(bytes, start, encoding, order, samples);
    } else {
        read_stereo(bytes, start, encoding, order, samples);
    }
}

// The frames of the data that begin at `start`, as many as the samples have room for. The encoding is
// named in each call, so that each has loops of its own.
pub fn read_samples(
    bytes: &[u8],
    start: usize,
    channels: usize,
    encoding: Encoding,
    order: ByteOrder,
    samples: &mut [f32],
)
    requires one_or_two_channels { (channels ≡ 1) ⊎ (channels ≡ 2) }
    requires samples_in_pairs { length samples.old % 2 ≡ 0 }
    requires values_in_bytes { start + length samples.old / 2 * channels * width encoding ≤ length bytes.now }
    ensures { samples.new ≡ samples_in encoding order channels bytes.now start (length samples.old / 2) }
{
    match encoding {
        Encoding::Pcm16 => read_encoded(bytes, start, channels, Encoding::Pcm16, order, samples),
        Encoding::Float32 => read_encoded(
            bytes,
            start,
            channels,
            Encoding::Float32,
            order,
            samples,
        ),
    }
}

// One value for each `step` samples.
fn write_values(
    samples: &[f32],
    step: usize,
    count: usize,
    encoding: Encoding,
    order: ByteOrder,
    bytes: &mut [u8],
    start: usize,
)
    requires samples_in_range { AllInRange samples.now }
    requires values_among_samples { Steps step count (length samples.now) }
    requires room_for_values { start + count * width encoding ≤ length bytes.old }
    ensures { bytes.new ≡ put_at start (pieces (encoded_at encoding order samples.now step) count) bytes.old }
{
    let size = encoding.width();
    for i in 0..count {
        put_sample(bytes, start + i * size, encoding, order, samples[i * step]);
    }
}

fn write_encoded(
    samples: &[f32],
    channels: usize,
    encoding: Encoding,
    order: ByteOrder,
    bytes: &mut [u8],
    start: usize,
)
    requires samples_in_range { AllInRange samples.now }
    requires one_or_two_channels { (channels ≡ 1) ⊎ (channels ≡ 2) }
    requires samples_in_pairs { length samples.now % 2 ≡ 0 }
    requires room_for_values { start + length samples.now / 2 * channels * width encoding ≤ length bytes.old }
    ensures { bytes.new ≡ put_at start (data_of encoding order channels samples.now) bytes.old }
{
    if channels == 1 {
        write_values(samples, 2, samples.len() / 2, encoding, order, bytes, start);
    } else {
        write_values(samples, 1, samples.len(), encoding, order, bytes, start);
    }
}

// The data of the samples, written from `start` on.
pub fn write_samples(
    samples: &[f32],
    channels: usize,
    encoding: Encoding,
    order: ByteOrder,
    bytes: &mut [u8],
    start: usize,
)
    requires samples_in_range { AllInRange samples.now }
    requires one_or_two_channels { (channels ≡ 1) ⊎ (channels ≡ 2) }
    requires samples_in_pairs { length samples.now % 2 ≡ 0 }
    requires room_for_values { start + length samples.now / 2 * channels * width encoding ≤ length bytes.old }
    ensures { bytes.new ≡ put_at start (data_of encoding order channels samples.now) bytes.old }
{
    match encoding {
        Encoding::Pcm16 => write_encoded(samples, channels, Encoding::Pcm16, order, bytes, start),
        Encoding::Float32 => write_encoded(
            samples,
            channels,
            Encoding::Float32,
            order,
            bytes,
            start,
        ),
    }
}
