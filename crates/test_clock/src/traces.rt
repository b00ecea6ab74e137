// A trace is a run of rows: what it meets, and what it must then answer. A row's first column is a
// letter that says which it is.
use crate::moves;
use clock::{Clock, ClockSpeed, ClockTime, Clocks, WhenToStart};

#[derive(Clone, Copy)]
pub struct Trace {
    clock: Clock,
    clocks: Clocks,
}

impl Trace {
    pub fn new() -> Trace {
        Trace {
            clock: Clock::new(ClockSpeed::TicksPerSecond(0.0), false),
            clocks: test_trace::no_clocks(),
        }
    }

    // Rows of a clock: `n`, a new one, and `u`, an update.
    pub fn clock_row(&mut self, row: &[u8]) -> Option<bool> {
        match row {
            [b'n', _, columns @ ..] => test_trace::prepared(self.new_clock(columns)),
            [b'u', _, columns @ ..] => test_trace::asked(self.update_clock(columns)),
            _ => Some(false),
        }
    }

    // Columns `unit speed ticking`.
    fn new_clock(&mut self, columns: &[u8]) -> Option<()> {
        if columns.len() != 20 {
            return None;
        }
        let unit = test_replay::hex(&columns[0..1])?;
        let speed = test_replay::hex(&columns[2..18])?;
        let ticking = test_replay::hex(&columns[19..20])?;
        self.clock = Clock::new(
            speed_of(unit, float_bits::f64_from_bits(speed)),
            ticking == 1,
        );
        Some(())
    }

    // Columns `dt ticks fraction`.
    fn update_clock(&mut self, columns: &[u8]) -> Option<bool> {
        if columns.len() != 50 {
            return None;
        }
        let dt = test_replay::hex(&columns[0..16])?;
        let ticks = test_replay::hex(&columns[17..33])?;
        let fraction = test_replay::hex(&columns[34..50])?;
        let clock = moves::try_update(self.clock, float_bits::f64_from_bits(dt))?;
        self.clock = clock;
        let time = clock.time(0);
        Some(time.ticks == ticks && float_bits::is_f64(time.fraction, fraction))
    }

    // Rows of `when_to_start`: `c`, a clock, and `w`, a question.
    pub fn start_row(&mut self, row: &[u8]) -> Option<bool> {
        match row {
            [b'c', _, columns @ ..] => {
                test_trace::prepared(test_trace::put_clock(&mut self.clocks, columns))
            }
            [b'w', _, columns @ ..] => test_trace::asked(self.ask_start(columns)),
            _ => Some(false),
        }
    }

    // Columns `count clock ticks fraction answer`. The answers in kira's order: 0 now, 1 later, 2 never.
    fn ask_start(&self, columns: &[u8]) -> Option<bool> {
        if columns.len() != 39 {
            return None;
        }
        let count = test_replay::hex(&columns[0..1])?;
        let clock = test_replay::hex(&columns[2..3])?;
        let ticks = test_replay::hex(&columns[4..20])?;
        let fraction = test_replay::hex(&columns[21..37])?;
        let answer = test_replay::hex(&columns[38..39])?;
        let time = ClockTime {
            clock: clock as usize,
            ticks,
            fraction: float_bits::f64_from_bits(fraction),
        };
        let there = test_trace::counted_in_table(self.clocks, count as usize)?;
        let when = there.when_to_start(time);
        Some(match when {
            WhenToStart::Now => answer == 0,
            WhenToStart::Later => answer == 1,
            WhenToStart::Never => answer == 2,
        })
    }
}

fn speed_of(unit: u64, speed: f64) -> ClockSpeed {
    match unit {
        0 => ClockSpeed::SecondsPerTick(speed),
        1 => ClockSpeed::TicksPerSecond(speed),
        _ => ClockSpeed::TicksPerMinute(speed),
    }
}
