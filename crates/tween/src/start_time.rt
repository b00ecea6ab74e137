// kira's start_time.rs.
ghost use Rattle.std.specs.Prelude.{◌≡◌, ◌≤◌};
ghost use Rattle.rounding.specs.Duration.{InAnHour};
ghost use Rattle.tween.specs.StartTime.{is_immediate, delay_left, start_time_update};

use clock::{ClockTime, Clocks, WhenToStart};

// When an action is to occur.
#[derive(Clone, Copy)]
pub enum StartTime {
    Immediate,
    // So many nanoseconds from now.
    Delayed(u64),
    // When a clock reaches a time.
    ClockTime(ClockTime),
}

impl StartTime {
    // `self == StartTime::Immediate`.
    #[tactic(auto, unfolding(crate::specs::StartTime::is_immediate))]
    pub fn is_immediate(self) -> bool
        ensures { result ≡ is_immediate self }
    {
        matches!(self, StartTime::Immediate)
    }

    // Answers whether it will never start.
    #[tactic(auto, unfolding(crate::specs::StartTime::start_time_update, crate::specs::StartTime::at_clock_time, crate::specs::StartTime::after_delay))]
    pub fn update(&mut self, dt: f64, clocks: &Clocks) -> bool
        requires in_an_hour { InAnHour dt }
        requires clocks_fit { clocks.now.count ≤ 8 }
        ensures start_time { self.new ≡ (start_time_update self.old dt clocks.now).start_time }
        ensures never { result ≡ (start_time_update self.old dt clocks.now).will_never_start }
    {
        match *self {
            StartTime::Immediate => false,
            StartTime::Delayed(time_remaining) => {
                let left = delay_left(time_remaining, dt);
                if left == 0 {
                    *self = StartTime::Immediate;
                } else {
                    *self = StartTime::Delayed(left);
                }
                false
            }
            StartTime::ClockTime(time) => match clocks.when_to_start(time) {
                WhenToStart::Now => {
                    *self = StartTime::Immediate;
                    false
                }
                WhenToStart::Later => false,
                WhenToStart::Never => true,
            },
        }
    }
}

// `Duration::saturating_sub` of so many seconds from a delay.
#[tactic(auto, unfolding(crate::specs::StartTime::delay_left))]
pub fn delay_left(remaining: u64, dt: f64) -> u64
    requires { InAnHour dt }
    ensures { result ≡ delay_left remaining dt }
{
    let passed = rounding::nanos_from_secs_f64(dt);
    if passed < remaining {
        remaining - passed
    } else {
        0
    }
}
