// The routines for users.
ghost use Rattle.std.specs.Prelude.{◌≡◌, ◌⊎◌, Ok, ◌≤◌, length};
ghost use Rattle.byte_order.specs.declared.bytes.ByteOrder.TheVariants.{Little, Big};
ghost use Rattle.pcm.specs.declared.sample.Encoding.TheVariants.{Pcm16};
ghost use Rattle.wave_sound.specs.Refusal.{number_of};
ghost use Rattle.wave_sound.specs.Sound.{Inside};
ghost use Rattle.wave_reader.specs.Read.{samples_of};
ghost use Rattle.wave_writer.specs.Write.{file_most, file_of, writing};
ghost use Rattle.aiff_sound.specs.Sound.{sound_in};
ghost use Rattle.aiff_writer.specs.Write.{file_of as aiff_file_of};
ghost use Rattle.sound_converter.specs.Convert.{room_ok, asked_of_wave, asked_of_aiff, to_aiff, to_wave, wave_to_aiff, aiff_to_wave};

use crate::values::{copy_values, keeps_16, values_of};
use byte_order::ByteOrder;
use pcm::Encoding;
use wave_sound::{Refusal, Sound, rate_ok};

// The bytes in front of the data.
const WAVE_HEAD: usize = 44;

const AIFF_HEAD: usize = 54;
// The most bytes of data that both forms of file can have: a file's size, but for its first 8 bytes, has
// 32 bits, and an AIFF file is the longer.
const DATA_MOST: usize = 0xffff_ffff + 8 - 54;

fn room_ok(head: usize, size: usize, room: usize) -> bool
    requires { head ≤ file_most }
    ensures { result ≡ room_ok head size room }
{
    if DATA_MOST < size {
        return false;
    }
    room == head + size
}

// 17, 18 and 10, of a WAVE file that holds a sound.
fn asked_of_wave(wave: &[u8], sound: Sound, room: usize) -> Result<(), Refusal>
    requires { Inside wave.now sound }
    ensures { number_of result ≡ asked_of_wave sound wave.now room }
{
    let encoding = sound.encoding;
    let start = sound.start;
    let count = values_of(sound);
    if !keeps_16(wave, start, encoding, ByteOrder::Little, count) {
        return Err(Refusal::NotWhole);
    }
    if !rate_ok(sound.rate) {
        return Err(Refusal::FileRate);
    }
    if !room_ok(AIFF_HEAD, count * 2, room) {
        return Err(Refusal::Room);
    }
    Ok(())
}

fn put_aiff(wave: &[u8], sound: Sound, aiff: &mut [u8])
    requires sound_in_file { Inside wave.now sound }
    requires not_refused { asked_of_wave sound wave.now (length aiff.old) ≡ 0 }
    ensures { aiff.new ≡ aiff_file_of sound.rate sound.channels (samples_of Little wave.now sound) }
{
    let encoding = sound.encoding;
    let start = sound.start;
    let count = values_of(sound);
    let size = (count * 2) as u32;
    aiff_writer::put_head(aiff, sound.rate, sound.channels, sound.frames, size);
    copy_values(
        wave,
        start,
        encoding,
        ByteOrder::Little,
        count,
        aiff,
        AIFF_HEAD,
        ByteOrder::Big,
    );
}

fn to_aiff(wave: &[u8], sound: Sound, aiff: &mut [u8]) -> Result<(), Refusal>
    requires { Inside wave.now sound }
    ensures { writing (number_of result) aiff.new ≡ to_aiff (Ok sound) wave.now aiff.old }
{
    asked_of_wave(wave, sound, aiff.len())?;
    put_aiff(wave, sound, aiff);
    Ok(())
}

// The AIFF file of a WAVE file's samples, where 16 bits hold them.
pub fn wave_to_aiff(wave: &[u8], aiff: &mut [u8]) -> Result<(), Refusal>
    ensures { writing (number_of result) aiff.new ≡ wave_to_aiff wave.now aiff.old }
{
    let sound = wave_sound::sound_in(wave)?;
    to_aiff(wave, sound, aiff)
}

// 10, of an AIFF file that holds a sound.
fn asked_of_aiff(sound: Sound, room: usize) -> Result<(), Refusal>
    requires { (sound.channels ≡ 1) ⊎ (sound.channels ≡ 2) }
    ensures { number_of result ≡ asked_of_aiff sound room }
{
    if !room_ok(WAVE_HEAD, values_of(sound) * 2, room) {
        return Err(Refusal::Room);
    }
    Ok(())
}

fn put_wave(aiff: &[u8], sound: Sound, wave: &mut [u8])
    requires sound_of_the_file { sound_in aiff.now ≡ Ok sound }
    requires not_refused { asked_of_aiff sound (length wave.old) ≡ 0 }
    ensures { wave.new ≡ file_of sound.rate sound.channels Pcm16 (samples_of Big aiff.now sound) }
{
    let encoding = sound.encoding;
    let start = sound.start;
    let count = values_of(sound);
    let size = (count * 2) as u32;
    wave_writer::put_head(wave, sound.rate, sound.channels, Encoding::Pcm16, size);
    copy_values(
        aiff,
        start,
        encoding,
        ByteOrder::Big,
        count,
        wave,
        WAVE_HEAD,
        ByteOrder::Little,
    );
}

fn to_wave(aiff: &[u8], sound: Sound, wave: &mut [u8]) -> Result<(), Refusal>
    requires { sound_in aiff.now ≡ Ok sound }
    ensures { writing (number_of result) wave.new ≡ to_wave (Ok sound) aiff.now wave.old }
{
    asked_of_aiff(sound, wave.len())?;
    put_wave(aiff, sound, wave);
    Ok(())
}

// The 16-bit WAVE file of an AIFF file's samples.
pub fn aiff_to_wave(aiff: &[u8], wave: &mut [u8]) -> Result<(), Refusal>
    ensures { writing (number_of result) wave.new ≡ aiff_to_wave aiff.now wave.old }
{
    let sound = aiff_sound::sound_in(aiff)?;
    to_wave(aiff, sound, wave)
}
