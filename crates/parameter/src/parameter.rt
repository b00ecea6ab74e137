// kira's parameter.rs, for decibels and fixed targets.
ghost use Rattle.std.specs.Prelude.{◌≡◌, ◌≤◌};
ghost use Rattle.rounding.specs.Duration.{InAnHour};
ghost use Rattle.parameter.specs.Parameter.{parameter_new, interpolated_value, parameter_set, tween_start, tween_move, tween_update, new_raw_value};
ghost use Rattle.parameter.specs.Parameter.{parameter_update};

use clock::{Clocks, WhenToStart};
use decibels::Decibels;
use tween::{StartTime, Tween};

// kira's State.
#[derive(Clone, Copy)]
pub enum ParameterState {
    Idle {
        value: Decibels,
    },
    Tweening {
        start: Decibels,
        target: Decibels,
        time: f64,
        tween: Tween,
    },
}

// A value that can be smoothly moved.
#[derive(Clone, Copy)]
pub struct Parameter {
    pub state: ParameterState,
    pub raw_value: Decibels,
    pub previous_raw_value: Decibels,
    pub stagnant: bool,
}

impl Parameter {
    #[tactic(auto, unfolding(crate::specs::Parameter::parameter_new))]
    pub fn new(value: Decibels) -> Parameter
        ensures { result ≡ parameter_new value }
    {
        Parameter {
            state: ParameterState::Idle { value },
            raw_value: value,
            previous_raw_value: value,
            stagnant: true,
        }
    }

    pub fn value(self) -> Decibels
        ensures { result ≡ self.raw_value }
    {
        self.raw_value
    }

    pub fn previous_value(self) -> Decibels
        ensures { result ≡ self.previous_raw_value }
    {
        self.previous_raw_value
    }

    // Between the value before the last update and the value now.
    #[tactic(auto, unfolding(crate::specs::Parameter::interpolated_value))]
    pub fn interpolated_value(self, amount: f64) -> Decibels
        ensures { result ≡ interpolated_value self amount }
    {
        let before = self.previous_raw_value;
        let now = self.raw_value;
        tween::interpolate(before, now, amount)
    }

    // Starts a motion from the value now to the target.
    #[tactic(auto, unfolding(crate::specs::Parameter::parameter_set))]
    pub fn set(&mut self, target: Decibels, tween: Tween)
        ensures { self.new ≡ parameter_set self.old target tween }
    {
        self.state = ParameterState::Tweening {
            start: self.raw_value,
            target,
            time: 0.0,
            tween,
        };
        self.stagnant = false;
    }

    // Answers whether the tween ended.
    #[tactic(auto, unfolding(crate::specs::Parameter::parameter_update, crate::specs::Parameter::with_previous, crate::specs::Parameter::with_new_value))]
    pub fn update(&mut self, dt: f64, clocks: &Clocks) -> bool
        requires in_an_hour { InAnHour dt }
        requires clocks_fit { clocks.now.count ≤ 8 }
        ensures parameter { self.new ≡ (parameter_update self.old dt clocks.now).parameter }
        ensures finished { result ≡ (parameter_update self.old dt clocks.now).just_finished_tween }
    {
        self.previous_raw_value = self.raw_value;
        if self.stagnant {
            return false;
        }
        let finished = self.update_tween(dt, clocks);
        self.raw_value = self.new_raw_value();
        finished
    }

    #[tactic(auto, unfolding(crate::specs::Parameter::tween_update, crate::specs::Parameter::tween_update_in, crate::specs::Parameter::with_state))]
    fn update_tween(&mut self, dt: f64, clocks: &Clocks) -> bool
        requires in_an_hour { InAnHour dt }
        requires clocks_fit { clocks.now.count ≤ 8 }
        ensures parameter { self.new ≡ (tween_update self.old dt clocks.now).parameter }
        ensures finished { result ≡ (tween_update self.old dt clocks.now).just_finished_tween }
    {
        match self.state {
            ParameterState::Idle { value: _ } => false,
            ParameterState::Tweening {
                start,
                target,
                time,
                mut tween,
            } => {
                if start_tween(&mut tween, dt, clocks) {
                    return self.move_tween(start, target, time + dt, tween);
                }
                self.state = ParameterState::Tweening {
                    start,
                    target,
                    time,
                    tween,
                };
                false
            }
        }
    }

    // A motion that has come to a time: it ends there or goes on.
    #[tactic(auto, unfolding(crate::specs::Parameter::tween_move, crate::specs::Parameter::with_state))]
    fn move_tween(&mut self, start: Decibels, target: Decibels, time: f64, tween: Tween) -> bool
        ensures parameter { self.new ≡ (tween_move self.old start target time tween).parameter }
        ensures finished { result ≡ (tween_move self.old start target time tween).just_finished_tween }
    {
        if time >= rounding::secs_f64_from_millis(tween.duration) {
            self.state = ParameterState::Idle { value: target };
            self.stagnant = true;
            return true;
        }
        self.state = ParameterState::Tweening {
            start,
            target,
            time,
            tween,
        };
        false
    }

    // kira's calculate_new_raw_value, with the value now where it has none.
    #[tactic(auto, unfolding(crate::specs::Parameter::new_raw_value, crate::specs::Parameter::value_in))]
    fn new_raw_value(&self) -> Decibels
        ensures { result ≡ new_raw_value self.now }
    {
        match self.state {
            ParameterState::Idle { value } => value,
            ParameterState::Tweening {
                start,
                target,
                time,
                tween,
            } => {
                if tween.duration == 0 {
                    self.raw_value
                } else {
                    tween::interpolate(start, target, tween.value(time))
                }
            }
        }
    }
}

// Answers whether a tween has started. One that has not waits on.
#[tactic(auto, unfolding(crate::specs::Parameter::tween_start, crate::specs::Parameter::started_at, crate::specs::Parameter::is_now))]
fn start_tween(tween: &mut Tween, dt: f64, clocks: &Clocks) -> bool
    requires in_an_hour { InAnHour dt }
    requires clocks_fit { clocks.now.count ≤ 8 }
    ensures tween { tween.new ≡ (tween_start tween.old dt clocks.now).tween }
    ensures started { result ≡ (tween_start tween.old dt clocks.now).started }
{
    match tween.start_time {
        StartTime::Immediate => true,
        StartTime::Delayed(time_remaining) => {
            if time_remaining == 0 {
                return true;
            }
            tween.start_time = StartTime::Delayed(tween::delay_left(time_remaining, dt));
            false
        }
        StartTime::ClockTime(time) => matches!(clocks.when_to_start(time), WhenToStart::Now),
    }
}
