// An order's columns: when it starts, and the motion that it starts.
use clock::ClockTime;
use tween::{Easing, StartTime, Tween};

// The tween waits for the start. A resume waits by itself, and takes the tween at once.
#[derive(Clone, Copy)]
pub struct Order {
    pub start: StartTime,
    pub duration: u32,
    pub easing: Easing,
}

impl Order {
    pub fn tween(self, start_time: StartTime) -> Tween {
        let easing = self.easing;
        Tween {
            start_time,
            duration: self.duration,
            easing,
        }
    }
}

// The kinds in kira's order.
pub fn easing(kind: u64, power: u32) -> Easing {
    match kind {
        0 => Easing::Linear,
        1 => Easing::InPowi(power),
        2 => Easing::OutPowi(power),
        _ => Easing::InOutPowi(power),
    }
}

// The number is a delay's nanoseconds, or a clock's ticks.
fn start_time(kind: u64, clock: usize, number: u64, fraction: f64) -> StartTime {
    match kind {
        0 => StartTime::Immediate,
        1 => StartTime::Delayed(number),
        _ => StartTime::ClockTime(ClockTime {
            clock,
            ticks: number,
            fraction,
        }),
    }
}

// Columns `start clock number fraction`.
fn read_start(columns: &[u8]) -> Option<StartTime> {
    if columns.len() != 37 {
        return None;
    }
    let kind = test_replay::hex(&columns[0..1])?;
    let clock = test_replay::hex(&columns[2..3])?;
    let number = test_replay::hex(&columns[4..20])?;
    let fraction = test_replay::hex(&columns[21..37])?;
    Some(start_time(
        kind,
        clock as usize,
        number,
        float_bits::f64_from_bits(fraction),
    ))
}

// Columns `start clock number fraction milliseconds easing power`.
pub fn read_order(columns: &[u8]) -> Option<Order> {
    if columns.len() != 50 {
        return None;
    }
    let start = read_start(&columns[0..37])?;
    let duration = test_replay::hex32(&columns[38..46])?;
    let kind = test_replay::hex(&columns[47..48])?;
    let power = test_replay::hex32(&columns[49..50])?;
    Some(Order {
        start,
        duration,
        easing: easing(kind, power),
    })
}
