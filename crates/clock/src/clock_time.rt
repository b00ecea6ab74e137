// kira's clock/time.rs: an instant of a clock.
ghost use Rattle.std.specs.Prelude.{◌≡◌};
ghost use Rattle.clock.specs.ClockTime.{at_or_after};

#[derive(Clone, Copy)]
pub struct ClockTime {
    // The clock's index, counted from 0.
    pub clock: usize,
    // The elapsed whole ticks.
    pub ticks: u64,
    // The time since the last tick, as a part of a tick: from 0.0 up to, but not, 1.0.
    pub fraction: f64,
}

impl ClockTime {
    // `self >= other` by kira's PartialOrd: ticks first, then fractions; times of two clocks have no
    // order.
    #[tactic(auto, unfolding(crate::specs::ClockTime::at_or_after))]
    pub fn at_or_after(self, other: ClockTime) -> bool
        ensures { result ≡ at_or_after self other }
    {
        if self.clock != other.clock {
            return false;
        }
        if self.ticks == other.ticks {
            return self.fraction >= other.fraction;
        }
        self.ticks > other.ticks
    }
}
