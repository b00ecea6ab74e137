// Floats and their bits, NaN included: one NaN is as good as another.
ghost use Rattle.std.specs.Prelude.{◌≡◌};
ghost use Rattle.std.specs.Float.{binary32, binary64};
ghost use Rattle.std.specs.Float.Ieee.{of_bits, to_bits};
ghost use Rattle.float_bits.specs.Bits.{stands_for};

use std::num::{
    f32_from_bits_with_nan, f32_to_bits_with_nan, f64_from_bits_with_nan, f64_to_bits_with_nan,
};

pub fn f32_from_bits(bits: u32) -> f32
    ensures { result ≡ of_bits binary32 bits }
{
    f32_from_bits_with_nan(bits)
}

pub fn f64_from_bits(bits: u64) -> f64
    ensures { result ≡ of_bits binary64 bits }
{
    f64_from_bits_with_nan(bits)
}

// The bits of x; of a NaN, the one pattern that `to_bits` has for it.
pub fn f32_bits(x: f32) -> u32
    ensures { result ≡ to_bits binary32 x }
{
    f32_to_bits_with_nan(x)
}

// Whether x is what the bits stand for.
#[tactic(auto, unfolding(crate::specs::Bits::stands_for))]
pub fn is_f32(x: f32, bits: u32) -> bool
    ensures { result ≡ stands_for binary32 bits x }
{
    f32_to_bits_with_nan(x) == f32_to_bits_with_nan(f32_from_bits_with_nan(bits))
}

#[tactic(auto, unfolding(crate::specs::Bits::stands_for))]
pub fn is_f64(x: f64, bits: u64) -> bool
    ensures { result ≡ stands_for binary64 bits x }
{
    f64_to_bits_with_nan(x) == f64_to_bits_with_nan(f64_from_bits_with_nan(bits))
}
