// kira's clock/clock_speed.rs.
ghost use Rattle.std.specs.Prelude.{◌≡◌};
ghost use Rattle.clock.specs.ClockSpeed.{as_ticks_per_second};

#[derive(Clone, Copy)]
pub enum ClockSpeed {
    // The clock ticks every so many seconds.
    SecondsPerTick(f64),
    TicksPerSecond(f64),
    TicksPerMinute(f64),
}

impl ClockSpeed {
    #[tactic(auto, unfolding(crate::specs::ClockSpeed::as_ticks_per_second))]
    pub fn as_ticks_per_second(self) -> f64
        ensures { result ≡ as_ticks_per_second self }
    {
        match self {
            ClockSpeed::SecondsPerTick(seconds_per_tick) => 1.0 / seconds_per_tick,
            ClockSpeed::TicksPerSecond(ticks_per_second) => ticks_per_second,
            ClockSpeed::TicksPerMinute(ticks_per_minute) => ticks_per_minute / 60.0,
        }
    }
}
