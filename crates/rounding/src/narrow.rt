// An f64 rounded to an f32, ties to even, worked out from the bits.
ghost use Rattle.std.specs.Prelude.{◌≡◌, ◌^◌, ◌<◌, ◌+◌, ◌*◌, ◌/◌, ◌%◌, ◌≤◌};
ghost use Rattle.rounding.specs.Narrow.{narrowed, narrowed_bits, IsNormal};

use crate::nearest::nearest_quotient;

// The bits of the f32 nearest to a magnitude, which is given as an f64's bits without the sign.
//
// An f64's digits are 53, an f32's 24. Carries into the exponent's field come out right by
// themselves, up to the infinity's.
fn magnitude(bits: u64) -> u64
    requires { bits ≤ 2047 * 2 ^ 52 }
    ensures { result ≡ narrowed_bits bits }
{
    let exponent = bits >> 52;
    if exponent < 872 {
        return 0;
    }
    if 1150 < exponent {
        return 255 << 23;
    }
    let digits = bits % (1 << 52) + (1 << 52);
    if exponent < 897 {
        nearest_quotient(digits, 926 - exponent)
    } else {
        ((exponent - 897) << 23) + nearest_quotient(digits, 29)
    }
}

// The same with the sign, for all but a NaN.
//
// A positive number that is normal in both formats has a quick way: the exponent's field and the
// digits are rounded as one number.
fn pattern(bits: u64) -> u64
    requires { bits % 2 ^ 63 ≤ 2047 * 2 ^ 52 }
    ensures { result ≡ bits / 2 ^ 63 * 2 ^ 31 + narrowed_bits (bits % 2 ^ 63) }
{
    if 897 << 52 <= bits {
        if bits < 1151 << 52 {
            return nearest_quotient(bits, 29) - (896 << 23);
        }
    }
    let sign = bits >> 63;
    let magnitude = magnitude(bits % (1 << 63));
    (sign << 31) + magnitude
}

pub fn f64_to_f32(x: f64) -> f32
    ensures { result ≡ narrowed x }
{
    if x != x {
        return 0.0 / 0.0;
    }
    let bits = f64::to_bits(x);
    f32::from_bits(pattern(bits) as u32)
}

// The same of a positive number that is normal in both formats. Nothing is tested, so that a loop over
// it vectorises.
pub fn normal_f64_to_f32(x: f64) -> f32
    requires { IsNormal x }
    ensures { result ≡ narrowed x }
{
    let bits = f64::to_bits(x);
    f32::from_bits((nearest_quotient(bits, 29) - (896 << 23)) as u32)
}
