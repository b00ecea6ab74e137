// The square root of an f32: the nearest f32.
#![tactic(auto)]

ghost use Rattle.std.specs.Prelude.{◌≡◌, ◌<◌};
ghost use Rattle.std.specs.Float.{binary32};
ghost use Rattle.laws.specs.FloatOrder.{plus};
ghost use Rattle.root.specs.Root.{FromZero, infinity, reaches, root};

// The infinity's bit pattern, which comes behind those of all f32 from 0 up.
const INFINITY: u32 = 0x7f80_0000;

// Whether the root of x is no less than the middle of the f32 with the pattern k and the one below.
// Nothing is rounded here: twice the middle has 25 digits, its square 50, and an f64 holds 53.
fn reaches(x: f32, k: u32) -> bool
    requires finite_from_zero { FromZero x }
    requires not_zero { 0 < k }
    requires below_infinity { k < infinity }
    ensures { result ≡ reaches (plus binary32 x) k }
{
    let twice = (f32::from_bits(k - 1) as f64) + (f32::from_bits(k) as f64);
    twice * twice <= 4.0 * (x as f64)
}

pub fn root(x: f32) -> f32
    requires { FromZero x }
    ensures { result ≡ root x }
{
    let mut low: u32 = 0;
    let mut high = INFINITY;
    while low + 1 < high {
        let middle = (low + high) / 2;
        if reaches(x, middle) {
            low = middle;
        } else {
            high = middle;
        }
    }
    f32::from_bits(low)
}
