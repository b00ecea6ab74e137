// Samples and their patterns: 16-bit whole numbers, and 32-bit floats.
ghost use Rattle.std.specs.Prelude.{◌≡◌, ◌+◌, ◌<◌, ◌≤◌, nat_abs, length};
ghost use Rattle.laws.specs.Pieces.{put_at};
ghost use Rattle.pcm.specs.declared.sample.Encoding.TheVariants.{Pcm16, Float32};
ghost use Rattle.byte_order.specs.Bytes.{bytes_of};
ghost use Rattle.pcm.specs.Sample.{InRange, raised16, nearest16, whole16, width, bits_of, sample_of, pattern_of, sample_at};

use byte_order::{ByteOrder, number2_at, number4_at, put_number2, put_number4};

// The 16-bit values: how many are below 0, how many there are, the last; 0 and the scale of v / 32768.
const HALF: u32 = 32768;

const VALUES: u32 = 65536;

const LAST: u32 = 65535;

const ZERO: i32 = 32768;

const SCALE: f32 = 32768.0;
// 1.5 * 2^23, amid the floats that are the whole numbers; and its bits, less 32768.
const OFFSET: f32 = 12582912.0;

const LEAST: u32 = 0x4b3f_8000;

#[derive(Clone, Copy, PartialEq, Eq, Debug)]
pub enum Encoding {
    Pcm16,
    Float32,
}

impl Encoding {
    // The bytes of a sample.
    #[tactic(auto, unfolding(crate::specs::Sample::width))]
    pub fn width(self) -> usize
        ensures { (result ≤ 4) × (result ≡ width self) }
    {
        match self {
            Encoding::Pcm16 => 2,
            Encoding::Float32 => 4,
        }
    }

    // The bits of a sample.
    #[tactic(auto, unfolding(crate::specs::Sample::bits_of))]
    pub fn bits(self) -> u32
        ensures { result ≡ bits_of self }
    {
        match self {
            Encoding::Pcm16 => 16,
            Encoding::Float32 => 32,
        }
    }
}

// v / 32768, from v's bits. Raised by 32768, v is not negative.
fn sample_16(bits: u32) -> f32
    requires { bits < 65536 }
    ensures { result ≡ sample_of Pcm16 bits }
{
    let raised = (bits + HALF) % VALUES;
    let v = (raised as i32) - ZERO;
    (v as f32) / SCALE
}

// The whole number nearest to 32768 x, raised by 32768. The floats between 2^23 and 2^24 are the whole
// numbers, so the sum is rounded to one; its lowest digits are the number's.
fn raised_16(x: f32) -> u32
    requires { InRange x }
    ensures { (result < 65536) × (result ≡ raised16 (nearest16 x)) }
{
    let sum = x * SCALE + OFFSET;
    let raised = f32::to_bits(sum) - LEAST;
    if raised < VALUES { raised } else { LAST }
}

// How far the 16-bit value of a sample lies from 0.
pub fn distance_16(x: f32) -> u32
    requires { InRange x }
    ensures { (result ≤ 32768) × (result ≡ nat_abs (nearest16 x)) }
{
    let raised = raised_16(x);
    if raised < HALF {
        HALF - raised
    } else {
        raised - HALF
    }
}

fn pattern_16(x: f32) -> u32
    requires { InRange x }
    ensures { result ≡ pattern_of Pcm16 x }
{
    (raised_16(x) + HALF) % VALUES
}

fn nearest_is(x: f32) -> bool
    requires { InRange x }
    ensures { result ≡ whole16 x }
{
    let y = sample_16(pattern_16(x));
    float_bits::f32_bits(y) == float_bits::f32_bits(x)
}

// Whether 16 bits hold a sample: -0.0 and 1.0 they don't.
pub fn is_whole_16(x: f32) -> bool
    ensures { result ≡ whole16 x }
{
    if -1.0 <= x {
        if x <= 1.0 {
            return nearest_is(x);
        }
        return false;
    }
    false
}

fn pattern_32(x: f32) -> u32
    requires { InRange x }
    ensures { result ≡ pattern_of Float32 x }
{
    f32::to_bits(x)
}

// The sample that begins at a place.
pub fn sample_at(bytes: &[u8], at: usize, encoding: Encoding, order: ByteOrder) -> f32
    requires { at + width encoding ≤ length bytes.now }
    ensures { result ≡ sample_at encoding order bytes.now at }
{
    match encoding {
        Encoding::Pcm16 => sample_16(number2_at(bytes, at, order)),
        Encoding::Float32 => float_bits::f32_from_bits(number4_at(bytes, at, order)),
    }
}

// Writes a sample's bytes at a place.
pub fn put_sample(bytes: &mut [u8], at: usize, encoding: Encoding, order: ByteOrder, x: f32)
    requires room_for_sample { at + width encoding ≤ length bytes.old }
    requires in_range { InRange x }
    ensures { bytes.new ≡ put_at at (bytes_of order (width encoding) (pattern_of encoding x)) bytes.old }
{
    match encoding {
        Encoding::Pcm16 => put_number2(bytes, at, order, pattern_16(x)),
        Encoding::Float32 => put_number4(bytes, at, order, pattern_32(x)),
    }
}
