// A trace is a run of rows: what a parameter meets, and what it must then answer. A row's first column
// is a letter that says which it is: `n`, a new parameter; `s`, a set; `c`, a clock; `u`, an update.
ghost use Rattle.std.specs.Prelude.{◌≤◌};

use clock::Clocks;
use decibels::Decibels;
use parameter::Parameter;

#[derive(Clone, Copy)]
pub struct Trace {
    parameter: Parameter,
    clocks: Clocks,
}

impl Trace {
    pub fn new() -> Trace {
        Trace {
            parameter: Parameter::new(Decibels(0.0)),
            clocks: test_trace::no_clocks(),
        }
    }

    pub fn read_row(&mut self, row: &[u8]) -> Option<bool> {
        match row {
            [b'n', _, columns @ ..] => test_trace::prepared(self.new_parameter(columns)),
            [b's', _, columns @ ..] => test_trace::prepared(self.set(columns)),
            [b'c', _, columns @ ..] => {
                test_trace::prepared(test_trace::put_clock(&mut self.clocks, columns))
            }
            [b'u', _, columns @ ..] => test_trace::asked(self.update(columns)),
            _ => Some(false),
        }
    }

    // The column is its level.
    fn new_parameter(&mut self, columns: &[u8]) -> Option<()> {
        let level = test_replay::hex32(columns)?;
        self.parameter = Parameter::new(Decibels(float_bits::f32_from_bits(level)));
        Some(())
    }

    // Columns `level`, and an order's.
    fn set(&mut self, columns: &[u8]) -> Option<()> {
        if columns.len() != 59 {
            return None;
        }
        let level = test_replay::hex32(&columns[0..8])?;
        let order = test_trace::read_order(&columns[9..59])?;
        let start = order.start;
        self.parameter.set(
            Decibels(float_bits::f32_from_bits(level)),
            order.tween(start),
        );
        Some(())
    }

    // A chunk's columns, and those of what follows.
    fn update(&mut self, columns: &[u8]) -> Option<bool> {
        if columns.len() != 64 {
            return None;
        }
        let chunk = test_trace::read_chunk(&columns[0..35])?;
        let there = test_trace::counted_in_table(self.clocks, chunk.count)?;
        let finished = try_update(&mut self.parameter, chunk.dt, &there)?;
        is_update(self.parameter, finished, chunk.amount, &columns[36..64])
    }
}

// The update, where it may be asked: whether the tween ended.
fn try_update(parameter: &mut Parameter, dt: f64, clocks: &Clocks) -> Option<bool>
    requires { clocks.now.count ≤ 8 }
{
    if test_trace::in_an_hour(dt) {
        return Some(parameter.update(dt, clocks));
    }
    None
}

// Columns `finished`, and the levels.
fn is_update(parameter: Parameter, finished: bool, amount: f64, columns: &[u8]) -> Option<bool> {
    if columns.len() != 28 {
        return None;
    }
    let expected = test_replay::hex(&columns[0..1])?;
    let levels = test_trace::are_levels(
        parameter.value(),
        parameter.previous_value(),
        parameter.interpolated_value(amount),
        &columns[2..28],
    )?;
    Some(levels && u64::from(finished) == expected)
}
