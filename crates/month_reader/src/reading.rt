// What is kept of the mixes so far, and of the whole samples of the next.
ghost use Rattle.std.specs.Prelude.{◌≡◌, Bool, not, List, [], ◌∷◌, ◌++◌, ℕ, ◌+◌, ◌/◌, ◌%◌, ◌≤◌, eqb, length};
ghost use Rattle.month.specs.Month.{most_samples};
ghost use Rattle.month.specs.Piece.{words_of, no_totals};
ghost use Rattle.month_reader.specs.Reading.{MixFile, reading_of, WithWords, ReadingReached};

use month::{MOST_SAMPLES, ONE, Totals};

// The number that refuses, 0 where none does so far, the totals where none does, and the samples of the next mix. With 26 nothing else is kept.
#[derive(Clone, Copy)]
pub struct Reading {
    pub number: u32,
    pub totals: Totals,
    pub samples: u64,
}

pub fn nothing() -> Reading
    ensures { result ≡ reading_of [] [] }
{
    Reading {
        number: 0,
        totals: month::none(),
        samples: 0,
    }
}

fn refused(number: u32, samples: u64) -> Reading
    ensures { result ≡ record { number = number; totals = no_totals; samples = samples } }
{
    Reading {
        number,
        totals: month::none(),
        samples,
    }
}

// A piece of a mix that is not too long with it.
fn with_samples(reading: Reading, piece: &[u8], samples: u64) -> Reading
    requires reading_reachable { ReadingReached reading }
    requires not_stopped_and_a_sample_there { (reading.number ≡ 26 → ⊥) × (4 ≤ length piece.now) }
    requires samples_counted { (samples ≡ reading.samples + length piece.now / 4) × (samples ≤ most_samples) }
    ensures { WithWords reading (words_of piece.now) result }
{
    if reading.number != 0 {
        return refused(25, samples);
    }
    let most = month::largest_magnitude(piece);
    if ONE < most {
        return refused(25, samples);
    }
    let before = reading.totals;
    let totals = month::with_piece(before, reading.samples, piece, most);
    Reading {
        number: 0,
        totals,
        samples,
    }
}

// What was kept, with the whole samples of this piece.
pub fn with_words(reading: Reading, piece: &[u8]) -> Reading
    requires { ReadingReached reading }
    ensures { WithWords reading (words_of piece.now) result }
{
    let count = (piece.len() / 4) as u64;
    if count == 0 {
        return reading;
    }
    if reading.number == 26 {
        return reading;
    }
    let samples = reading.samples + count;
    if MOST_SAMPLES < samples {
        return refused(26, 0);
    }
    with_samples(reading, piece, samples)
}

// What was kept, with the mix at its end; `cut` is whether its last number is broken.
pub fn with_mix(reading: Reading, cut: bool, channels: u64) -> Reading
    requires reading_reachable { ReadingReached reading }
    requires at_least_one_channel { 1 ≤ channels }
    ensures { (done : List MixFile) (bytes : List ℕ) → reading ≡ reading_of done (words_of bytes) → cut ≡ not (eqb (length bytes % 4) 0)
        → result ≡ reading_of (done ++ (record { channels = channels; bytes = bytes } ∷ [])) [] }
{
    if cut {
        return refused(26, 0);
    }
    if reading.samples % channels != 0 {
        return refused(26, 0);
    }
    let number = reading.number;
    if number != 0 {
        return refused(number, 0);
    }
    let before = reading.totals;
    Reading {
        number: 0,
        totals: month::with_mix(before, reading.samples, channels),
        samples: 0,
    }
}
