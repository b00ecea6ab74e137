// Tweens, easings and start times: kira's tween.rs, tween/tweenable.rs and start_time.rs.
#![tactic(auto)]

mod start_time;
mod tween;

pub use start_time::{StartTime, delay_left};
pub use tween::tweenable::interpolate;
pub use tween::{Easing, Tween};
