// What a file in hand is, and its samples.
ghost use Rattle.std.specs.Prelude.{◌≡◌, Ok};
ghost use Rattle.wave_sound.specs.declared.sound.Sound.{Sound};
ghost use Rattle.wave_sound.specs.Refusal.{number_of};
ghost use Rattle.wave_sound.specs.Sound.{Inside};
ghost use Rattle.wave_reader.specs.Read.{held, info_of, reading, read_from, read_of};

use byte_order::ByteOrder;
use sound_data::read_samples;
use wave_sound::{Refusal, Sound, sound_in};

// Says what the file holds, or writes nothing.
pub fn info(
    file: &[u8],
    rate: &mut u32,
    channels: &mut u32,
    bits: &mut u32,
    frames: &mut u32,
) -> Result<(), Refusal>
    ensures { held (number_of result) rate.new channels.new bits.new frames.new
        ≡ info_of file.now rate.old channels.old bits.old frames.old }
{
    let sound = sound_in(file)?;
    *rate = sound.rate;
    *channels = sound.channels;
    *bits = sound.encoding.bits();
    *frames = sound.frames;
    Ok(())
}

// Of a file that holds a sound, or not, and whose data have a byte order.
pub fn read_found(
    found: Result<Sound, Refusal>,
    order: ByteOrder,
    file: &[u8],
    samples: &mut [f32],
    rate: &mut u32,
) -> Result<(), Refusal>
    requires { (sound : Sound) → found ≡ Ok sound → Inside file.now sound }
    ensures { reading (number_of result) samples.new rate.new
        ≡ read_from order found file.now samples.old rate.old }
{
    let sound = found?;
    let channels = sound.channels as usize;
    if samples.len() != sound.frames as usize * 2 {
        return Err(Refusal::Room);
    }
    read_samples(file, sound.start, channels, sound.encoding, order, samples);
    *rate = sound.rate;
    Ok(())
}

// Writes all samples and the rate, or writes nothing.
pub fn read(file: &[u8], samples: &mut [f32], rate: &mut u32) -> Result<(), Refusal>
    ensures { reading (number_of result) samples.new rate.new
        ≡ read_of file.now samples.old rate.old }
{
    read_found(sound_in(file), ByteOrder::Little, file, samples, rate)
}
