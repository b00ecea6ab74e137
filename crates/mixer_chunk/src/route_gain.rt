// A route's amplitude by its value, as a show asks for it chunk after chunk.
ghost use Rattle.std.specs.Prelude.{◌≡◌, T};
ghost use Rattle.gain_table.specs.GainTable.{IsGainTable};
ghost use Rattle.decibels.specs.Decibels.{admitted, amplitude};

use decibels::{Amplitude, Decibels};
use gain_table::GainTable;

// The value that was asked last, and its amplitude: that is worked out anew only where the value has moved.
#[derive(Clone, Copy)]
pub struct RouteGain {
    value: Decibels,
    factor: Amplitude,
    ghost in_range: { T (admitted value.0) },
    ghost of_value: { factor.0 ≡ amplitude value.0 },
}

impl RouteGain {
    pub fn new(table: &GainTable) -> RouteGain
        requires { IsGainTable table.now }
    {
        let value = Decibels(0.0);
        let factor = value.as_amplitude_in(table);
        RouteGain { value, factor }
    }

    pub fn amplitude_of(&mut self, value: Decibels, table: &GainTable) -> Amplitude
        requires gain_table { IsGainTable table.now }
        requires admitted { T (admitted value.0) }
        ensures { result.0 ≡ amplitude value.0 }
    {
        let kept = *self;
        if value.0.to_bits() == kept.value.0.to_bits() {
            return kept.factor;
        }
        let factor = value.as_amplitude_in(table);
        *self = RouteGain { value, factor };
        factor
    }
}
