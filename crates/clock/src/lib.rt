// Clocks: kira's clock.rs with clock/time.rs and clock/clock_speed.rs, and the part of info.rs that
// asks clocks when something is to start.
#![tactic(auto)]

mod clock;
mod clock_speed;
mod clock_time;
mod when_to_start;

pub use clock::{Clock, ClockState};
pub use clock_speed::ClockSpeed;
pub use clock_time::ClockTime;
pub use when_to_start::{Clocks, WhenToStart};
