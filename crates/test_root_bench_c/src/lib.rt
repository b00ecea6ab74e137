// The export of test_root_bench's root: it calls that function, whose contract it repeats.
#![tactic(auto)]

ghost use Rattle.std.specs.Prelude.{◌≡◌};
ghost use Rattle.test_root_bench.specs.RootOver.{root_number, root_over};

// Returns 0 and writes the root, or returns 11 and leaves what was there: of a NaN, of what is below
// zero, and of the infinity.
#[unsafe(no_mangle)]
pub extern "C" fn room_desk_root(x: f32, root: &mut f32) -> u32
    ensures number { result ≡ root_number x }
    ensures written { root.new ≡ root_over x root.old }
{
    test_root_bench::room_desk_root(x, root)
}
