// The amplitude, written to a place.
ghost use Rattle.std.specs.Prelude.{◌≡◌};
ghost use Rattle.decibels.specs.Answer.{amplitude_answer, written_over};

use crate::decibels::Decibels;

// Returns 0 and writes the amplitude, or returns 11 and leaves what was there.
pub fn write_amplitude(decibels: f32, amplitude: &mut f32) -> u32
    ensures number { result ≡ (amplitude_answer decibels).number }
    ensures written { amplitude.new ≡ written_over (amplitude_answer decibels).value amplitude.old }
{
    match Decibels(decibels).as_amplitude() {
        Some(given) => {
            *amplitude = given.0;
            0
        }
        None => 11,
    }
}
