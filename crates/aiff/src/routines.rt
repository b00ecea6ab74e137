// The routines for users.
ghost use Rattle.std.specs.Prelude.{◌≡◌, List, ℕ, IsOk, length, Float};
ghost use Rattle.wave_sound.specs.Refusal.{number_of};
ghost use Rattle.pcm.specs.declared.sample.Encoding.TheVariants.{Pcm16};
ghost use Rattle.sound_data.specs.Data.{ComesBack};
ghost use Rattle.wave_reader.specs.Read.{reading};
ghost use Rattle.wave_writer.specs.Write.{writing};
ghost use Rattle.aiff_reader.specs.Read.{held, info_of, read_of};
ghost use Rattle.aiff_writer.specs.Write.{bytes_for, write_of};

use wave_sound::Refusal;

// What a file holds: its rate, channels (1 or 2) and frames.
pub fn info(
    file: &[u8],
    rate: &mut u32,
    channels: &mut u32,
    frames: &mut u32,
) -> Result<(), Refusal>
    ensures { held (number_of result) rate.new channels.new frames.new
        ≡ info_of file.now rate.old channels.old frames.old }
{
    aiff_reader::info(file, rate, channels, frames)
}

// A file's samples, two for each frame, and its rate.
pub fn read(file: &[u8], samples: &mut [f32], rate: &mut u32) -> Result<(), Refusal>
    ensures { reading (number_of result) samples.new rate.new
        ≡ read_of file.now samples.old rate.old }
{
    aiff_reader::read(file, samples, rate)
}

// The file of given samples. It reads back to them, where 16 bits and its channels can hold them.
pub fn write(rate: u32, channels: u32, samples: &[f32], file: &mut [u8]) -> Result<(), Refusal>
    ensures answer { writing (number_of result) file.new
        ≡ write_of rate channels samples.now file.old }
    ensures back { IsOk result → ComesBack Pcm16 channels samples.now
        → (there : List Float) (old : ℕ) → length there ≡ length samples.now
        → read_of file.new there old ≡ reading 0 samples.now rate }
{
    aiff_writer::write(rate, channels, samples, file)
}

// The bytes of the file of so many samples, where there is such a file.
pub fn length(samples: usize, channels: u32) -> Option<usize>
    ensures { result ≡ bytes_for samples channels }
{
    aiff_writer::length(samples, channels)
}
