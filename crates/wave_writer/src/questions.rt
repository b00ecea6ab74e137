// What is asked of samples before a file of them is written, and how long that file is: in each form of
// file, by the bytes in front of the data.
ghost use Rattle.std.specs.Prelude.{◌≡◌, true, ◌<◌, ◌≤◌};
ghost use Rattle.wave_sound.specs.Sound.{channels_ok};
ghost use Rattle.wave_sound.specs.Refusal.{number_of};
ghost use Rattle.wave_writer.specs.Write.{file_most, data_length, length_ok, bytes_with, asked};

use pcm::Encoding;
use scene_questions::samples_ok;
use wave_sound::{Refusal, channels_ok, rate_ok};

// The most bytes of a file: the size of all but the first 8 has 32 bits.
const FILE_MOST: usize = 0xffff_ffff + 8;

pub fn data_length(samples: usize, channels: usize, encoding: Encoding) -> usize
    requires sample_count_in_range { samples < 2305843009213693952 }
    requires one_or_two_channels { channels_ok channels ≡ true }
    ensures { result ≡ data_length samples channels encoding }
{
    samples / 2 * channels * encoding.width()
}

fn length_ok(head: usize, size: usize, room: usize) -> bool
    requires { head ≤ file_most }
    ensures { result ≡ length_ok head size room }
{
    if FILE_MOST - head < size {
        return false;
    }
    room == head + size
}

// The first question that says no.
pub fn asked(
    head: usize,
    rate: u32,
    channels: u32,
    encoding: Encoding,
    samples: &[f32],
    room: usize,
) -> Result<(), Refusal>
    requires { head ≤ file_most }
    ensures { number_of result ≡ asked head rate channels encoding samples.now room }
{
    if !rate_ok(rate) {
        return Err(Refusal::Rate);
    }
    if !channels_ok(channels) {
        return Err(Refusal::OtherKind);
    }
    if samples.len() % 2 != 0 {
        return Err(Refusal::OddSamples);
    }
    if !samples_ok(samples) {
        return Err(Refusal::SampleRange);
    }
    let size = data_length(samples.len(), channels as usize, encoding);
    if !length_ok(head, size, room) {
        return Err(Refusal::Room);
    }
    Ok(())
}

// The bytes of the file of so many samples, where there is such a file.
pub fn file_length(head: usize, samples: usize, channels: u32, encoding: Encoding) -> Option<usize>
    requires { head ≤ file_most }
    ensures { result ≡ bytes_with head samples channels encoding }
{
    if !channels_ok(channels) {
        return None;
    }
    if FILE_MOST < samples {
        return None;
    }
    let size = data_length(samples, channels as usize, encoding);
    if FILE_MOST - head < size {
        return None;
    }
    Some(head + size)
}
