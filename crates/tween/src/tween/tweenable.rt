// kira's tween/tweenable.rs, for decibels.
ghost use Rattle.std.specs.Prelude.{◌≡◌};
ghost use Rattle.tween.specs.Tweenable.{interpolated};

use decibels::Decibels;

pub fn interpolate(a: Decibels, b: Decibels, amount: f64) -> Decibels
    ensures { result ≡ interpolated a b amount }
{
    Decibels(a.0 + (b.0 - a.0) * rounding::f64_to_f32(amount))
}
