// AIFF files.
ghost use Rattle.std.specs.Prelude.{◌≡◌, List, ℕ, length, Float};
ghost use Rattle.pcm.specs.declared.sample.Encoding.TheVariants.{Pcm16};
ghost use Rattle.sound_data.specs.Data.{ComesBack};
ghost use Rattle.wave_reader.specs.Read.{reading};
ghost use Rattle.wave_writer.specs.Write.{writing};
ghost use Rattle.aiff_reader.specs.Read.{held, info_of, read_of};
ghost use Rattle.aiff_writer.specs.Write.{length_for, write_of};

use aiff::number_of;

// What a file holds: its rate, channels (1 or 2) and frames.
#[unsafe(no_mangle)]
pub extern "C" fn room_desk_aiff_info(
    file: &[u8],
    rate: &mut u32,
    channels: &mut u32,
    frames: &mut u32,
) -> u32
    ensures { held result rate.new channels.new frames.new
        ≡ info_of file.now rate.old channels.old frames.old }
{
    number_of(aiff::info(file, rate, channels, frames))
}

// A file's samples, two for each frame, and its rate.
#[unsafe(no_mangle)]
pub extern "C" fn room_desk_aiff_read(file: &[u8], samples: &mut [f32], rate: &mut u32) -> u32
    ensures { reading result samples.new rate.new ≡ read_of file.now samples.old rate.old }
{
    number_of(aiff::read(file, samples, rate))
}

// The file of given samples. It reads back to them, where 16 bits and its channels can hold them.
#[unsafe(no_mangle)]
pub extern "C" fn room_desk_aiff_write(
    rate: u32,
    channels: u32,
    samples: &[f32],
    file: &mut [u8],
) -> u32
    ensures answer { writing result file.new ≡ write_of rate channels samples.now file.old }
    ensures back { result ≡ 0 → ComesBack Pcm16 channels samples.now
        → (there : List Float) (old : ℕ) → length there ≡ length samples.now
        → read_of file.new there old ≡ reading 0 samples.now rate }
{
    number_of(aiff::write(rate, channels, samples, file))
}

// The bytes of the file of so many samples, or 0 where there is no such file.
#[unsafe(no_mangle)]
pub extern "C" fn room_desk_aiff_length(samples: usize, channels: u32) -> usize
    ensures { result ≡ length_for samples channels }
{
    aiff::length(samples, channels).unwrap_or(0)
}
