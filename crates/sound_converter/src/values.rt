// The values of a file's data, and their 16 bits in another file.
ghost use Rattle.std.specs.Prelude.{◌≡◌, ◌⊎◌, ◌+◌, ◌*◌, ◌≤◌, length};
ghost use Rattle.laws.specs.Pieces.{pieces, put_at};
ghost use Rattle.scene_tables.specs.Bytes.{every};
ghost use Rattle.pcm.specs.declared.sample.Encoding.TheVariants.{Pcm16, Float32};
ghost use Rattle.pcm.specs.Sample.{whole16, width};
ghost use Rattle.sound_data.specs.Data.{value_at};
ghost use Rattle.sound_converter.specs.Convert.{AllWhole, keeps16, value_as16, values_of, values_most};

use byte_order::ByteOrder;
use pcm::{Encoding, is_whole_16, put_sample, sample_at};
use wave_sound::Sound;

// The bytes of a value.
const FLOAT_BYTES: usize = 4;

const PCM_BYTES: usize = 2;

pub fn values_of(sound: Sound) -> usize
    requires { (sound.channels ≡ 1) ⊎ (sound.channels ≡ 2) }
    ensures { (result ≤ values_most) × (result ≡ values_of sound) }
{
    let frames = sound.frames as usize;
    let channels = sound.channels as usize;
    frames * channels
}

fn floats_whole(bytes: &[u8], start: usize, order: ByteOrder, count: usize) -> bool
    requires { start + count * width Float32 ≤ length bytes.now }
    ensures { result ≡ every count (λ k. whole16 (value_at Float32 order bytes.now start k)) }
{
    for i in 0..count {
        let x = sample_at(bytes, start + i * FLOAT_BYTES, Encoding::Float32, order);
        if !is_whole_16(x) {
            return false;
        }
    }
    true
}

// Whether 16 bits hold every value.
pub fn keeps_16(
    bytes: &[u8],
    start: usize,
    encoding: Encoding,
    order: ByteOrder,
    count: usize,
) -> bool
    requires { start + count * width encoding ≤ length bytes.now }
    ensures { result ≡ keeps16 encoding order bytes.now start count }
{
    match encoding {
        Encoding::Pcm16 => true,
        Encoding::Float32 => floats_whole(bytes, start, order, count),
    }
}

// Writes the values' 16 bits, in the order of the other file, from a place on.
pub fn copy_values(
    bytes: &[u8],
    start: usize,
    encoding: Encoding,
    order: ByteOrder,
    count: usize,
    file: &mut [u8],
    place: usize,
    into: ByteOrder,
)
    requires values_of_16_bits { AllWhole encoding order bytes.now start count }
    requires values_in_bytes { start + count * width encoding ≤ length bytes.now }
    requires room_for_values { place + count * width Pcm16 ≤ length file.old }
    ensures { file.new ≡ put_at place (pieces (value_as16 encoding order bytes.now start into) count) file.old }
{
    let step = encoding.width();
    for i in 0..count {
        let x = sample_at(bytes, start + i * step, encoding, order);
        put_sample(file, place + i * PCM_BYTES, Encoding::Pcm16, into, x);
    }
}
