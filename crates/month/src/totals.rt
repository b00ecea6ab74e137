// Totals, with a piece of the next mix, and with the mix at its end.
ghost use Rattle.std.specs.Prelude.{◌≡◌, ◌+◌, ◌*◌, ◌/◌, ◌^◌, ◌≤◌, ◌<◌, length};
ghost use Rattle.month.specs.Month.{one_bits, full, higher, peak_in, most_mixes, most_samples};
ghost use Rattle.month.specs.Piece.{words_of, largest, no_totals, with_samples, with_mix, Room};

use crate::piece::{ONE, count_full, first_of, sum_squares};

// The mixes of a month, and the samples of a mix, at most.
pub const MOST_MIXES: usize = 1000;

pub const MOST_SAMPLES: u64 = 1 << 24;

// The largest magnitude, as f32 bits, and where it first stood: mix and sample from 1, all 0 where there is no sample.
#[derive(Clone, Copy)]
pub struct Peak {
    pub bits: u32,
    pub mix: u64,
    pub sample: u64,
}

#[derive(Clone, Copy)]
pub struct Totals {
    pub mixes: u64,
    pub frames: u64,
    pub full: u64,
    pub peak: Peak,
    pub squares: u64,
}

pub fn none() -> Totals
    ensures { result ≡ no_totals }
{
    let peak = Peak {
        bits: 0,
        mix: 0,
        sample: 0,
    };
    Totals {
        mixes: 0,
        frames: 0,
        full: 0,
        peak,
        squares: 0,
    }
}

// The peak so far, or that of a piece whose largest magnitude is `most`.
fn with_largest(peak: Peak, mix: u64, before: u64, piece: &[u8], most: u32) -> Peak
    requires largest_of_the_piece { (4 ≤ length piece.now) × (most ≡ largest (words_of piece.now)) }
    requires mix_and_samples_in_range { (1 ≤ mix) × (before + length piece.now / 4 ≤ most_samples) }
    ensures { result ≡ higher peak (peak_in mix before (words_of piece.now)) }
{
    if peak.mix != 0 {
        if most <= peak.bits {
            return peak;
        }
    }
    Peak {
        bits: most,
        mix,
        sample: before + first_of(piece, most) as u64 + 1,
    }
}

// How many samples are full, of a piece whose largest magnitude is `most`.
fn full_of(piece: &[u8], most: u32) -> u64
    requires { (most ≡ largest (words_of piece.now)) × (most ≤ one_bits) }
    ensures { (result ≤ length piece.now / 4) × (result ≡ full (words_of piece.now)) }
{
    if most == ONE { count_full(piece) } else { 0 }
}

// The totals of what came before, with this piece of the next mix. `before` samples of that mix came before it, and `most` is its largest
// magnitude, 1.0 at most: its samples are all in range.
pub fn with_piece(totals: Totals, before: u64, piece: &[u8], most: u32) -> Totals
    requires largest_of_the_piece { (4 ≤ length piece.now) × (most ≡ largest (words_of piece.now)) }
    requires at_most_one { most ≤ one_bits }
    requires room_for_samples { Room totals before (length piece.now / 4) }
    ensures { result ≡ with_samples totals before (words_of piece.now) }
{
    let mixes = totals.mixes;
    let so_far = totals.peak;
    let peak = with_largest(so_far, mixes + 1, before, piece, most);
    Totals {
        mixes,
        frames: totals.frames,
        full: totals.full + full_of(piece, most),
        peak,
        squares: totals.squares + sum_squares(piece),
    }
}

// The totals with the next mix at its end.
pub fn with_mix(totals: Totals, samples: u64, channels: u64) -> Totals
    requires { (1 ≤ channels) × (totals.mixes < most_mixes) × (totals.frames + samples < 2 ^ 64) }
    ensures { result ≡ with_mix totals samples channels }
{
    let peak = totals.peak;
    Totals {
        mixes: totals.mixes + 1,
        frames: totals.frames + samples / channels,
        full: totals.full,
        peak,
        squares: totals.squares,
    }
}
