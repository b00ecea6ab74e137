// What an AIFF file holds, or why it is refused.
ghost use Rattle.std.specs.Prelude.{◌≡◌, ◌+◌, ◌≤◌, length};
ghost use Rattle.aiff_sound.specs.Sound.{sound_of, sound_at, sound_in};

use aiff_rate::whole_at;
use byte_order::{ByteOrder, number2_at, number4_at};
use iff_chunks::{is_form, walk};
use pcm::Encoding;
use wave_sound::{Refusal, Sound, channels_ok, rate_ok};

// Identifiers, the first letter the highest byte.
pub const FORM: u32 = 0x464f_524d;

pub const AIFF: u32 = 0x4149_4646;

pub const COMMON: u32 = 0x434f_4d4d;

pub const SOUND: u32 = 0x5353_4e44;
// The bytes of a common chunk, without its header.
pub const COMMON_SIZE: u32 = 18;
// The bits of a sample.
pub const SAMPLE_BITS: u32 = 16;

// The sample data by the fields: the bytes of the sound chunk, the offset of its first frame, and those of
// the common chunk.
fn sound_of(
    start: usize,
    size: u32,
    offset: u32,
    channels: u32,
    frames: u32,
    bits: u32,
    rate: u32,
) -> Result<Sound, Refusal>
    ensures { result ≡ sound_of start size offset channels frames bits rate }
{
    if !channels_ok(channels) {
        return Err(Refusal::OtherKind);
    }
    if bits != SAMPLE_BITS {
        return Err(Refusal::OtherKind);
    }
    let needed = 8 + (offset as usize) + (frames as usize) * (channels as usize) * 2;
    if (size as usize) < needed {
        return Err(Refusal::Broken);
    }
    if !rate_ok(rate) {
        return Err(Refusal::FileRate);
    }
    Ok(Sound {
        rate,
        channels,
        encoding: Encoding::Pcm16,
        start,
        frames,
    })
}

// A file whose chunks are whole, by the places of its common chunk and its sound chunk.
fn sound_at(file: &[u8], common: usize, body: usize) -> Result<Sound, Refusal>
    requires common_in_file { common + 26 ≤ length file.now }
    requires body_in_file { body + 16 ≤ length file.now }
    ensures { result ≡ sound_at file.now common body }
{
    let channels = number2_at(file, common + 8, ByteOrder::Big);
    let frames = number4_at(file, common + 10, ByteOrder::Big);
    let bits = number2_at(file, common + 14, ByteOrder::Big);
    // No rate is out of range, as 0 is.
    let rate = whole_at(file, common + 16).unwrap_or(0);
    let size = number4_at(file, body + 4, ByteOrder::Big);
    let offset = number4_at(file, body + 8, ByteOrder::Big);
    let start = body + 16 + (offset as usize);
    sound_of(start, size, offset, channels, frames, bits, rate)
}

pub fn sound_in(file: &[u8]) -> Result<Sound, Refusal>
    ensures { result ≡ sound_in file.now }
{
    if !is_form(file, FORM, AIFF) {
        return Err(Refusal::NoAiff);
    }
    let chunks = walk(file, ByteOrder::Big, COMMON, SOUND);
    let common = chunks.first.ok_or(Refusal::NoAiff)?;
    let body = chunks.second.ok_or(Refusal::NoAiff)?;
    if number4_at(file, common + 4, ByteOrder::Big) != COMMON_SIZE {
        return Err(Refusal::NoAiff);
    }
    if number4_at(file, body + 4, ByteOrder::Big) < 8 {
        return Err(Refusal::NoAiff);
    }
    if !chunks.whole {
        return Err(Refusal::Broken);
    }
    sound_at(file, common, body)
}
