// The file of given samples, or why it is refused.
ghost use Rattle.std.specs.Prelude.{◌≡◌, length};
ghost use Rattle.pcm.specs.declared.sample.Encoding.TheVariants.{Pcm16};
ghost use Rattle.wave_sound.specs.Refusal.{number_of};
ghost use Rattle.wave_writer.specs.Write.{asked, writing};
ghost use Rattle.aiff_writer.specs.Write.{head_length, file_of, write_of, bytes_for};

use crate::head::put_head;
use byte_order::ByteOrder;
use pcm::Encoding;
use sound_data::write_samples;
use wave_sound::Refusal;
use wave_writer::{asked, data_length, file_length};

// The bytes in front of the data.
const HEAD: usize = 54;

fn write_file(rate: u32, channels: u32, samples: &[f32], file: &mut [u8])
    requires { asked head_length rate channels Pcm16 samples.now (length file.old) ≡ 0 }
    ensures { file.new ≡ file_of rate channels samples.now }
{
    let frames = samples.len() / 2;
    let size = data_length(samples.len(), channels as usize, Encoding::Pcm16);
    put_head(file, rate, channels, frames as u32, size as u32);
    write_samples(
        samples,
        channels as usize,
        Encoding::Pcm16,
        ByteOrder::Big,
        file,
        HEAD,
    );
}

// Writes the whole file, or writes nothing.
pub fn write(rate: u32, channels: u32, samples: &[f32], file: &mut [u8]) -> Result<(), Refusal>
    ensures { writing (number_of result) file.new
        ≡ write_of rate channels samples.now file.old }
{
    asked(HEAD, rate, channels, Encoding::Pcm16, samples, file.len())?;
    write_file(rate, channels, samples, file);
    Ok(())
}

// The bytes of the file of so many samples, where there is such a file.
pub fn length(samples: usize, channels: u32) -> Option<usize>
    ensures { result ≡ bytes_for samples channels }
{
    file_length(HEAD, samples, channels, Encoding::Pcm16)
}
