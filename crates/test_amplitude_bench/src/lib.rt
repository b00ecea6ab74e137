// The amplitudes of many levels with one table, so that a driver outside can measure the form of
// `as_amplitude` that the library itself uses.
#![tactic(auto)]

ghost use Rattle.std.specs.Prelude.{◌≡◌};
ghost use Rattle.test_amplitude_bench.specs.Amplitudes.{amplitudes_over};

use decibels::{Decibels, LIMIT};

// Writes each level's amplitude at its place, as far as both slices go. A level that is refused
// leaves what was there.
#[unsafe(no_mangle)]
pub extern "C" fn room_desk_amplitudes(decibels: &[f32], amplitudes: &mut [f32])
    ensures { amplitudes.new ≡ amplitudes_over decibels.now amplitudes.old }
{
    let table = gain_table::gain_table();
    for i in 0..decibels.len().min(amplitudes.len()) {
        let level = decibels[i];
        if level <= LIMIT {
            let amplitude = Decibels(level).as_amplitude_in(&table);
            amplitudes[i] = amplitude.0;
        }
    }
}
