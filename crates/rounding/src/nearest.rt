// The nearest whole number to a quotient by a power of two, at a tie the even one.
ghost use Rattle.std.specs.Prelude.{◌≡◌, ◌^◌, ◌<◌};
ghost use Rattle.rounding.specs.Nearest.{nearest_quotient};

// n / 2^k. The sum carries into the quotient exactly where it is to be rounded up, so no branch is
// needed.
pub fn nearest_quotient(n: u64, k: u64) -> u64
    requires fits_63_bits { n < 2 ^ 63 }
    requires not_zero { 0 < k }
    requires below_64 { k < 64 }
    ensures { result ≡ nearest_quotient n (2 ^ k) }
{
    let below_half = (1u64 << (k - 1)) - 1;
    let odd = (n >> k) % 2;
    (n + below_half + odd) >> k
}
