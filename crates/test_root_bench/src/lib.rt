// The root for a driver outside, which compares it at every f32 and measures what it costs:
// test_root_bench_c exports it, since a library that others use is no static library.
#![tactic(auto)]

ghost use Rattle.std.specs.Prelude.{◌≡◌};
ghost use Rattle.test_root_bench.specs.RootOver.{root_number, root_over};

// The largest f32.
const LARGEST: f32 = 3.4028235e38;

// Returns 0 and writes the root, or returns 11 and leaves what was there: of a NaN, of what is below
// zero, and of the infinity.
pub fn room_desk_root(x: f32, root: &mut f32) -> u32
    ensures number { result ≡ root_number x }
    ensures written { root.new ≡ root_over x root.old }
{
    if 0.0 <= x {
        if x <= LARGEST {
            *root = root::root(x);
            return 0;
        }
    }
    11
}
