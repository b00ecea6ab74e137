// The clocks of a list: rows put them in place one by one.
use clock::{Clock, ClockSpeed, ClockState, Clocks};

// A clock, and its place among eight.
#[derive(Clone, Copy)]
struct PlacedClock {
    place: usize,
    clock: Clock,
}

// Eight clocks that have not started, of which none is there.
pub fn no_clocks() -> Clocks {
    let clock = Clock::new(ClockSpeed::TicksPerSecond(0.0), false);
    Clocks {
        clocks: [clock; 8],
        count: 0,
    }
}

// A clock that no update moves. Only one that has started has ticks and a fraction.
fn standing(ticking: u64, started: u64, ticks: u64, fraction: f64) -> Clock {
    let state = if started == 0 {
        ClockState::NotStarted
    } else {
        ClockState::Started {
            ticks,
            fractional_position: fraction,
        }
    };
    Clock {
        ticking: ticking == 1,
        speed: ClockSpeed::TicksPerSecond(0.0),
        state,
    }
}

// Columns `place ticking started ticks fraction`.
fn read_clock(columns: &[u8]) -> Option<PlacedClock> {
    if columns.len() != 39 {
        return None;
    }
    let place = test_replay::hex(&columns[0..1])? as usize;
    let ticking = test_replay::hex(&columns[2..3])?;
    let started = test_replay::hex(&columns[4..5])?;
    let ticks = test_replay::hex(&columns[6..22])?;
    let fraction = test_replay::hex(&columns[23..39])?;
    if 8 <= place {
        return None;
    }
    Some(PlacedClock {
        place,
        clock: standing(ticking, started, ticks, float_bits::f64_from_bits(fraction)),
    })
}

// Puts the clock of these columns into its place.
pub fn put_clock(clocks: &mut Clocks, columns: &[u8]) -> Option<()> {
    let placed = read_clock(columns)?;
    if let Some(clock) = clocks.clocks.get_mut(placed.place) {
        *clock = placed.clock;
    }
    Some(())
}
