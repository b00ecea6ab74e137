// kira's clock.rs. A clock has no handle here: its speed is fixed (kira's is a parameter that can be
// tweened), and whether it ticks is said when it is made.
ghost use Rattle.std.specs.Prelude.{◌≡◌};
ghost use Rattle.clock.specs.Clock.{new_clock, updated, time_of, taken, CanMove};
ghost use Rattle.clock.specs.Clock.{CanTake};

use crate::clock_speed::ClockSpeed;
use crate::clock_time::ClockTime;

// kira's State.
#[derive(Clone, Copy)]
pub enum ClockState {
    NotStarted,
    Started {
        ticks: u64,
        fractional_position: f64,
    },
}

#[derive(Clone, Copy)]
pub struct Clock {
    pub ticking: bool,
    pub speed: ClockSpeed,
    pub state: ClockState,
}

impl Clock {
    pub fn new(speed: ClockSpeed, ticking: bool) -> Clock
        ensures { result ≡ new_clock speed ticking }
    {
        Clock {
            ticking,
            speed,
            state: ClockState::NotStarted,
        }
    }

    // The clock's time, as kira's info.rs reads it.
    #[tactic(auto, unfolding(crate::specs::Clock::time_of, crate::specs::Clock::ticks_of, crate::specs::Clock::fraction_of))]
    pub fn time(self, clock: usize) -> ClockTime
        ensures { result ≡ time_of self clock }
    {
        let state = self.state;
        match state {
            ClockState::NotStarted => ClockTime {
                clock,
                ticks: 0,
                fraction: 0.0,
            },
            ClockState::Started {
                ticks,
                fractional_position,
            } => ClockTime {
                clock,
                ticks,
                fraction: fractional_position,
            },
        }
    }

    // Moves the clock on by dt seconds.
    #[tactic(auto, unfolding(crate::specs::Clock::updated))]
    pub fn update(&mut self, dt: f64)
        requires { CanMove self.old dt }
        ensures { self.new ≡ updated self.old dt }
    {
        if !self.ticking {
            return;
        }
        let step = self.speed.as_ticks_per_second() * dt;
        match self.state {
            ClockState::NotStarted => self.state = take_ticks(0, 0.0 + step),
            ClockState::Started {
                ticks,
                fractional_position,
            } => self.state = take_ticks(ticks, fractional_position + step),
        }
    }
}

// Takes one off the timer until less than one is left: each is a tick.
fn take_ticks(before: u64, timer: f64) -> ClockState
    requires { CanTake before timer }
    ensures { result ≡ taken before timer }
{
    let mut ticks = before;
    let mut tick_timer = timer;
    let rest = loop {
        if tick_timer < 1.0 {
            break tick_timer;
        }
        tick_timer -= 1.0;
        ticks += 1;
    };
    ClockState::Started {
        ticks,
        fractional_position: rest,
    }
}
