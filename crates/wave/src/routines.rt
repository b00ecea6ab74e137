// The routines for users.
ghost use Rattle.std.specs.Prelude.{◌≡◌, List, ℕ, IsOk, length, Float};
ghost use Rattle.wave_sound.specs.Refusal.{number_of};
ghost use Rattle.wave_reader.specs.Read.{held, info_of, reading, read_of};
ghost use Rattle.wave_writer.specs.Write.{bytes_for, writing, write_of};
ghost use Rattle.wave.specs.ReadBack.{ReadsBack};

use wave_sound::Refusal;

// What a file holds: its rate, channels (1 or 2), bits of a sample (16 or 32) and frames.
pub fn info(
    file: &[u8],
    rate: &mut u32,
    channels: &mut u32,
    bits: &mut u32,
    frames: &mut u32,
) -> Result<(), Refusal>
    ensures { held (number_of result) rate.new channels.new bits.new frames.new
        ≡ info_of file.now rate.old channels.old bits.old frames.old }
{
    wave_reader::info(file, rate, channels, bits, frames)
}

// A file's samples, two for each frame, and its rate.
pub fn read(file: &[u8], samples: &mut [f32], rate: &mut u32) -> Result<(), Refusal>
    ensures { reading (number_of result) samples.new rate.new
        ≡ read_of file.now samples.old rate.old }
{
    wave_reader::read(file, samples, rate)
}

// The file of given samples. It reads back to them, where 16 bits and one channel can hold them.
pub fn write(
    rate: u32,
    channels: u32,
    bits: u32,
    samples: &[f32],
    file: &mut [u8],
) -> Result<(), Refusal>
    ensures answer { writing (number_of result) file.new
        ≡ write_of rate channels bits samples.now file.old }
    ensures back { IsOk result → ReadsBack bits channels samples.now
        → (there : List Float) (old : ℕ) → length there ≡ length samples.now
        → read_of file.new there old ≡ reading 0 samples.now rate }
{
    wave_writer::write(rate, channels, bits, samples, file)
}

// The bytes of the file of so many samples, where there is such a file.
pub fn length(samples: usize, channels: u32, bits: u32) -> Option<usize>
    ensures { result ≡ bytes_for samples channels bits }
{
    wave_writer::length(samples, channels, bits)
}
