// Numbers: a quotient rounded to nearest, f64 to f32, and the units of time.
#![tactic(auto)]

mod duration;
mod narrow;
mod nearest;

pub use duration::{nanos_from_secs_f64, secs_f64_from_millis};
pub use narrow::{f64_to_f32, normal_f64_to_f32};
pub use nearest::nearest_quotient;
