// kira's tween.rs.
ghost use Rattle.std.specs.Prelude.{◌≡◌};
ghost use Rattle.tween.specs.Tween.{powi, in_out_powi, easing_apply, tween_value};

pub mod tweenable;

use crate::start_time::StartTime;

// The curve of a tween's motion.
#[derive(Clone, Copy, PartialEq, Eq, Debug)]
pub enum Easing {
    Linear,
    InPowi(u32),
    OutPowi(u32),
    InOutPowi(u32),
}

impl Easing {
    #[tactic(auto, unfolding(crate::specs::Tween::easing_apply))]
    pub fn apply(self, x: f64) -> f64
        ensures { result ≡ easing_apply self x }
    {
        match self {
            Easing::Linear => x,
            Easing::InPowi(power) => powi(x, power),
            Easing::OutPowi(power) => 1.0 - powi(1.0 - x, power),
            Easing::InOutPowi(power) => in_out_powi(x * 2.0, power),
        }
    }
}

fn in_out_powi(x: f64, power: u32) -> f64
    ensures { result ≡ in_out_powi x power }
{
    if x < 1.0 {
        0.5 * powi(x, power)
    } else {
        0.5 * (1.0 - powi(2.0 - x, power)) + 0.5
    }
}

// x to a power: for each bit from the lowest, multiply where it is set, square between.
fn powi(x: f64, power: u32) -> f64
    ensures { result ≡ powi x power }
{
    let mut result = 1.0;
    let mut base = x;
    let mut left = power;
    while left > 0 {
        if left % 2 == 1 {
            result = result * base;
        }
        base = base * base;
        left = left / 2;
    }
    result
}

// A smooth transition between values.
#[derive(Clone, Copy)]
pub struct Tween {
    // When the motion starts.
    pub start_time: StartTime,
    // The duration of the motion, in milliseconds.
    pub duration: u32,
    // The curve of the motion.
    pub easing: Easing,
}

impl Tween {
    #[tactic(auto, unfolding(crate::specs::Tween::tween_value))]
    pub fn value(self, time: f64) -> f64
        ensures { result ≡ tween_value self time }
    {
        let easing = self.easing;
        easing.apply(time / rounding::secs_f64_from_millis(self.duration))
    }
}
