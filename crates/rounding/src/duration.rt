// Units of time, as Rust's `Duration` converts them.
ghost use Rattle.std.specs.Prelude.{◌≡◌, ◌*◌, ◌^◌, ◌<◌};
ghost use Rattle.rounding.specs.Nearest.{sticky_quotient};
ghost use Rattle.rounding.specs.Duration.{nanos_from_secs, secs_from_millis, InAnHour};

use crate::nearest::nearest_quotient;

// digits * 5^9, without its lowest twelve digits but with a sticky digit for them.
//
// The product has up to 74 digits: it is made in two halves.
fn times_five_to_the_ninth(digits: u64) -> u64
    requires { digits < 2 ^ 53 }
    ensures { result ≡ sticky_quotient (digits * 5 ^ 9) (2 ^ 12) }
{
    let low = digits % (1 << 32) * 1953125;
    let high = (digits >> 32) * 1953125 + (low >> 32);
    let rest = low % (1 << 32);
    let sticky = if rest % (1 << 12) == 0 { 0 } else { 1 };
    (high << 21) + (rest >> 12 << 1) + sticky
}

// The whole nanoseconds nearest to a time of 0 to 3,600 seconds, as `Duration::from_secs_f64`.
//
// The seconds are digits / 2^(1075 - exponent), and a billion is 5^9 * 2^9.
pub fn nanos_from_secs_f64(seconds: f64) -> u64
    requires { InAnHour seconds }
    ensures { result ≡ nanos_from_secs seconds }
{
    let bits = f64::to_bits(seconds) % (1 << 63);
    let exponent = bits >> 52;
    if exponent < 992 {
        return 0;
    }
    let digits = bits % (1 << 52) + (1 << 52);
    nearest_quotient(times_five_to_the_ninth(digits), 1055 - exponent)
}

// Milliseconds as seconds: the whole seconds, plus the nanoseconds of the rest over a billion, as
// `Duration::from_millis(..).as_secs_f64()`.
pub fn secs_f64_from_millis(millis: u32) -> f64
    ensures { result ≡ secs_from_millis millis }
{
    let seconds = millis / 1000;
    let nanos = millis % 1000 * 1000000;
    (seconds as f64) + (nanos as f64) / 1e9
}
