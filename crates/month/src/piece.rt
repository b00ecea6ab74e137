// A piece of a mix: whole samples, f32 numbers, little-endian. Each loop has no branch in it, so that it runs on four samples at a time.
ghost use Rattle.std.specs.Prelude.{◌≡◌, true, ◌+◌, ◌*◌, ◌/◌, ◌^◌, ◌≤◌, length};
ghost use Rattle.byte_order.specs.declared.bytes.ByteOrder.TheVariants.{Little};
ghost use Rattle.byte_order.specs.Bytes.{number_at};
ghost use Rattle.month.specs.Month.{sample_in, magnitude, square, all_in, full, squares, most_samples};
ghost use Rattle.month.specs.Piece.{square_most, words_of, largest, first_of};

use byte_order::{ByteOrder, number4_at};

// The bits of 1.0.
pub const ONE: u32 = 0x3f80_0000;

// The bits of a sample without its sign.
fn magnitude_at(piece: &[u8], i: usize) -> u32
    requires { 4 * i + 4 ≤ length piece.now }
    ensures { result ≡ magnitude (number_at Little piece.now (4 * i) 4) }
{
    number4_at(piece, 4 * i, ByteOrder::Little) % (1 << 31)
}

pub fn largest_magnitude(piece: &[u8]) -> u32
    ensures { result ≡ largest (words_of piece.now) }
{
    let n = piece.len() / 4;
    let mut most: u32 = 0;
    for i in 0..n {
        most = most.max(magnitude_at(piece, i));
    }
    most
}

// How many samples stand before the first of a magnitude.
pub fn first_of(piece: &[u8], m: u32) -> usize
    ensures { (result ≤ length piece.now / 4) × (result ≡ first_of m (words_of piece.now)) }
{
    let n = piece.len() / 4;
    for i in 0..n {
        if magnitude_at(piece, i) == m {
            return i;
        }
    }
    n
}

pub fn count_full(piece: &[u8]) -> u64
    ensures { (result ≤ length piece.now / 4) × (result ≡ full (words_of piece.now)) }
{
    let n = piece.len() / 4;
    let mut count = 0;
    for i in 0..n {
        count += u64::from(magnitude_at(piece, i) == ONE);
    }
    count
}

// The square of a sample's 16-bit value.
fn square_at(piece: &[u8], i: usize) -> u64
    requires sample_in_piece { 4 * i + 4 ≤ length piece.now }
    requires sample_in_range { sample_in (number_at Little piece.now (4 * i) 4) ≡ true }
    ensures { (result ≤ square_most) × (result ≡ square (number_at Little piece.now (4 * i) 4)) }
{
    let distance = pcm::distance_16(f32::from_bits(number4_at(
        piece,
        4 * i,
        ByteOrder::Little,
    ))) as u64;
    distance * distance
}

pub fn sum_squares(piece: &[u8]) -> u64
    requires { (length piece.now / 4 ≤ most_samples) × (all_in (words_of piece.now) ≡ true) }
    ensures { (result ≤ length piece.now / 4 * square_most) × (result ≡ squares (words_of piece.now)) }
{
    let n = piece.len() / 4;
    let mut sum = 0;
    for i in 0..n {
        sum += square_at(piece, i);
    }
    sum
}
