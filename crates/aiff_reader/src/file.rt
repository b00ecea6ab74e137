// What a file in hand is, and its samples.
ghost use Rattle.std.specs.Prelude.{◌≡◌};
ghost use Rattle.wave_sound.specs.Refusal.{number_of};
ghost use Rattle.wave_reader.specs.Read.{reading};
ghost use Rattle.aiff_reader.specs.Read.{held, info_of, read_of};

use aiff_sound::sound_in;
use byte_order::ByteOrder;
use wave_reader::read_found;
use wave_sound::Refusal;

// Says what the file holds, or writes nothing.
pub fn info(
    file: &[u8],
    rate: &mut u32,
    channels: &mut u32,
    frames: &mut u32,
) -> Result<(), Refusal>
    ensures { held (number_of result) rate.new channels.new frames.new
        ≡ info_of file.now rate.old channels.old frames.old }
{
    let sound = sound_in(file)?;
    *rate = sound.rate;
    *channels = sound.channels;
    *frames = sound.frames;
    Ok(())
}

// Writes all samples and the rate, or writes nothing.
pub fn read(file: &[u8], samples: &mut [f32], rate: &mut u32) -> Result<(), Refusal>
    ensures { reading (number_of result) samples.new rate.new
        ≡ read_of file.now samples.old rate.old }
{
    read_found(sound_in(file), ByteOrder::Big, file, samples, rate)
}
