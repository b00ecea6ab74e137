// Why a sound file is not read, written or converted. Each refusal has the number that C gets.
ghost use Rattle.std.specs.Prelude.{◌≡◌};
ghost use Rattle.wave_sound.specs.Refusal.{refusal_number, number_of};

#[derive(Clone, Copy, PartialEq, Eq, Debug)]
pub enum Refusal {
    // Of what is to be written: its rate, an odd number of samples, a sample outside of -1.0 to 1.0.
    Rate = 4,
    OddSamples = 8,
    SampleRange = 9,
    // A buffer of another length.
    Room = 10,
    // Of a file: not in the form WAVE, broken, another kind of samples, not in the form AIFF.
    NoWave = 13,
    Broken = 14,
    OtherKind = 15,
    NoAiff = 16,
    // A sample that 16 bits don't hold, and a rate that an AIFF file may not have.
    NotWhole = 17,
    FileRate = 18,
}

impl From<Refusal> for u32 {
    ghost from_gives = { λ refusal n. n ≡ refusal_number refusal };

    fn from(refusal: Refusal) -> u32 {
        refusal as u32
    }
}

// 0, or the number of the refusal.
pub fn number_of(answer: Result<(), Refusal>) -> u32
    ensures { result ≡ number_of answer }
{
    match answer {
        Ok(()) => 0,
        Err(refusal) => refusal.into(),
    }
}
