// The file of given samples, or why it is refused.
ghost use Rattle.std.specs.Prelude.{◌≡◌, Some, cond, length};
ghost use Rattle.wave_sound.specs.Refusal.{refusal_number, number_of};
ghost use Rattle.wave_sound.specs.Sound.{rate_ok};
ghost use Rattle.wave_writer.specs.Write.{head_length, bytes_for, asked, kind_of_bits, file_of, writing, write_kind, write_of};

use crate::head::put_head;
use crate::questions::{asked, data_length, file_length};
use byte_order::ByteOrder;
use pcm::Encoding;
use sound_data::write_samples;
use wave_sound::{Refusal, rate_ok};

// The bytes in front of the data.
const HEAD: usize = 44;

#[tactic(auto, unfolding(crate::specs::Write::kind_of_bits))]
fn kind_of(bits: u32) -> Option<Encoding>
    ensures { result ≡ kind_of_bits bits }
{
    match bits {
        16 => Some(Encoding::Pcm16),
        32 => Some(Encoding::Float32),
        _ => None,
    }
}

fn write_file(rate: u32, channels: u32, encoding: Encoding, samples: &[f32], file: &mut [u8])
    requires { asked head_length rate channels encoding samples.now (length file.old) ≡ 0 }
    ensures { file.new ≡ file_of rate channels encoding samples.now }
{
    let size = data_length(samples.len(), channels as usize, encoding);
    put_head(file, rate, channels, encoding, size as u32);
    write_samples(
        samples,
        channels as usize,
        encoding,
        ByteOrder::Little,
        file,
        HEAD,
    );
}

fn write_known(
    rate: u32,
    channels: u32,
    encoding: Encoding,
    samples: &[f32],
    file: &mut [u8],
) -> Result<(), Refusal>
    ensures { writing (number_of result) file.new
        ≡ write_kind (Some encoding) rate channels samples.now file.old }
{
    asked(HEAD, rate, channels, encoding, samples, file.len())?;
    write_file(rate, channels, encoding, samples, file);
    Ok(())
}

fn other_kind(rate: u32) -> Refusal
    ensures { refusal_number result ≡ cond (rate_ok rate) 15 4 }
{
    if rate_ok(rate) {
        Refusal::OtherKind
    } else {
        Refusal::Rate
    }
}

// Writes the whole file, or writes nothing.
pub fn write(
    rate: u32,
    channels: u32,
    bits: u32,
    samples: &[f32],
    file: &mut [u8],
) -> Result<(), Refusal>
    ensures { writing (number_of result) file.new
        ≡ write_of rate channels bits samples.now file.old }
{
    match kind_of(bits) {
        Some(encoding) => write_known(rate, channels, encoding, samples, file),
        None => Err(other_kind(rate)),
    }
}

// The bytes of the file of so many samples, where there is such a file.
#[tactic(auto, unfolding(crate::specs::Write::bytes_for))]
pub fn length(samples: usize, channels: u32, bits: u32) -> Option<usize>
    ensures { result ≡ bytes_for samples channels bits }
{
    let encoding = kind_of(bits)?;
    file_length(HEAD, samples, channels, encoding)
}
