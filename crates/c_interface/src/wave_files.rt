// WAVE files.
ghost use Rattle.std.specs.Prelude.{◌≡◌, List, ℕ, length, Float};
ghost use Rattle.wave_reader.specs.Read.{held, info_of, reading, read_of};
ghost use Rattle.wave_writer.specs.Write.{length_for, writing, write_of};
ghost use Rattle.wave.specs.ReadBack.{ReadsBack};

use wave::number_of;

// What a file holds: its rate, channels (1 or 2), bits of a sample (16 or 32) and frames.
#[unsafe(no_mangle)]
pub extern "C" fn room_desk_wave_info(
    file: &[u8],
    rate: &mut u32,
    channels: &mut u32,
    bits: &mut u32,
    frames: &mut u32,
) -> u32
    ensures { held result rate.new channels.new bits.new frames.new
        ≡ info_of file.now rate.old channels.old bits.old frames.old }
{
    number_of(wave::info(file, rate, channels, bits, frames))
}

// A file's samples, two for each frame, and its rate.
#[unsafe(no_mangle)]
pub extern "C" fn room_desk_wave_read(file: &[u8], samples: &mut [f32], rate: &mut u32) -> u32
    ensures { reading result samples.new rate.new ≡ read_of file.now samples.old rate.old }
{
    number_of(wave::read(file, samples, rate))
}

// The file of given samples. It reads back to them, where 16 bits and one channel can hold them.
#[unsafe(no_mangle)]
pub extern "C" fn room_desk_wave_write(
    rate: u32,
    channels: u32,
    bits: u32,
    samples: &[f32],
    file: &mut [u8],
) -> u32
    ensures answer { writing result file.new ≡ write_of rate channels bits samples.now file.old }
    ensures back { result ≡ 0 → ReadsBack bits channels samples.now
        → (there : List Float) (old : ℕ) → length there ≡ length samples.now
        → read_of file.new there old ≡ reading 0 samples.now rate }
{
    number_of(wave::write(rate, channels, bits, samples, file))
}

// The bytes of the file of so many samples, or 0 where there is no such file.
#[unsafe(no_mangle)]
pub extern "C" fn room_desk_wave_length(samples: usize, channels: u32, bits: u32) -> usize
    ensures { result ≡ length_for samples channels bits }
{
    wave::length(samples, channels, bits).unwrap_or(0)
}
