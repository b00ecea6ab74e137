// What a WAVE file holds, or why it is refused.
ghost use Rattle.std.specs.Prelude.{◌≡◌, ◌+◌, ◌≤◌, length};
ghost use Rattle.wave_sound.specs.Sound.{channels_ok, rate_ok, kind_of, sound_of, sound_at, sound_in};

use crate::refusal::Refusal;
use byte_order::{ByteOrder, number2_at, number4_at};
use iff_chunks::{is_form, walk};
use pcm::Encoding;

// Identifiers, the first letter the highest byte.
pub const RIFF: u32 = 0x5249_4646;

pub const WAVE: u32 = 0x5741_5645;

pub const FORMAT: u32 = 0x666d_7420;

pub const DATA: u32 = 0x6461_7461;
// The bytes of a format chunk, without its header.
pub const FORMAT_SIZE: u32 = 16;
// The sample kinds' numbers in a format chunk.
pub const PCM: u32 = 1;

pub const FLOAT: u32 = 3;

// Where the data begin, and how many frames they have.
#[derive(Clone, Copy, PartialEq, Eq, Debug)]
pub struct Sound {
    pub rate: u32,
    pub channels: u32,
    pub encoding: Encoding,
    pub start: usize,
    pub frames: u32,
}

#[tactic(auto, unfolding(crate::specs::Sound::channels_ok))]
pub fn channels_ok(channels: u32) -> bool
    ensures { result ≡ channels_ok channels }
{
    1 <= channels && channels <= 2
}

#[tactic(auto, unfolding(crate::specs::Sound::rate_ok))]
pub fn rate_ok(rate: u32) -> bool
    ensures { result ≡ rate_ok rate }
{
    8000 <= rate && rate <= 192000
}

#[tactic(auto, unfolding(crate::specs::Sound::kind_of))]
fn kind_of(tag: u32, bits: u32) -> Option<Encoding>
    ensures { result ≡ kind_of tag bits }
{
    match (tag, bits) {
        (PCM, 16) => Some(Encoding::Pcm16),
        (FLOAT, 32) => Some(Encoding::Float32),
        _ => None,
    }
}

// The data by their format.
fn sound_of(
    encoding: Encoding,
    channels: u32,
    rate: u32,
    start: usize,
    size: u32,
) -> Result<Sound, Refusal>
    ensures { result ≡ sound_of encoding channels rate start size }
{
    if !channels_ok(channels) {
        return Err(Refusal::OtherKind);
    }
    let frame = channels * (encoding.width() as u32);
    if size % frame != 0 {
        return Err(Refusal::Broken);
    }
    Ok(Sound {
        rate,
        channels,
        encoding,
        start,
        frames: size / frame,
    })
}

// A file whose chunks are whole, by the places of its format and its data.
fn sound_at(file: &[u8], format: usize, body: usize) -> Result<Sound, Refusal>
    requires format_in_file { format + 24 ≤ length file.now }
    requires body_in_file { body + 8 ≤ length file.now }
    ensures { result ≡ sound_at file.now format body }
{
    let tag = number2_at(file, format + 8, ByteOrder::Little);
    let channels = number2_at(file, format + 10, ByteOrder::Little);
    let rate = number4_at(file, format + 12, ByteOrder::Little);
    let bits = number2_at(file, format + 22, ByteOrder::Little);
    let size = number4_at(file, body + 4, ByteOrder::Little);
    let encoding = kind_of(tag, bits).ok_or(Refusal::OtherKind)?;
    sound_of(encoding, channels, rate, body + 8, size)
}

pub fn sound_in(file: &[u8]) -> Result<Sound, Refusal>
    ensures { result ≡ sound_in file.now }
{
    if !is_form(file, RIFF, WAVE) {
        return Err(Refusal::NoWave);
    }
    let chunks = walk(file, ByteOrder::Little, FORMAT, DATA);
    let format = chunks.first.ok_or(Refusal::NoWave)?;
    let body = chunks.second.ok_or(Refusal::NoWave)?;
    if number4_at(file, format + 4, ByteOrder::Little) != FORMAT_SIZE {
        return Err(Refusal::NoWave);
    }
    if !chunks.whole {
        return Err(Refusal::Broken);
    }
    sound_at(file, format, body)
}
