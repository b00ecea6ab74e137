// WAVE files made into AIFF files, and back.
ghost use Rattle.std.specs.Prelude.{◌≡◌};
ghost use Rattle.wave_writer.specs.Write.{writing};
ghost use Rattle.sound_converter.specs.Convert.{wave_to_aiff, aiff_to_wave};

use wave::number_of;

// The AIFF file of a WAVE file's samples, where 16 bits hold them.
#[unsafe(no_mangle)]
pub extern "C" fn room_desk_wave_to_aiff(wave: &[u8], aiff: &mut [u8]) -> u32
    ensures { writing result aiff.new ≡ wave_to_aiff wave.now aiff.old }
{
    number_of(sound_converter::wave_to_aiff(wave, aiff))
}

// The 16-bit WAVE file of an AIFF file's samples.
#[unsafe(no_mangle)]
pub extern "C" fn room_desk_aiff_to_wave(aiff: &[u8], wave: &mut [u8]) -> u32
    ensures { writing result wave.new ≡ aiff_to_wave aiff.now wave.old }
{
    number_of(sound_converter::aiff_to_wave(aiff, wave))
}
