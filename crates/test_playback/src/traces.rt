// A trace is a run of rows: what a playback state meets, and what it must then answer. A row's first
// column is a letter that says which it is: `n`, a new one; `p`, a pause; `r`, a resume; `c`, a clock;
// `u`, an update.
ghost use Rattle.std.specs.Prelude.{◌≤◌};

use clock::Clocks;
use playback::{PlaybackState, PlaybackStateManager};
use tween::StartTime;

#[derive(Clone, Copy)]
pub struct Trace {
    manager: PlaybackStateManager,
    clocks: Clocks,
}

impl Trace {
    pub fn new() -> Trace {
        Trace {
            manager: PlaybackStateManager::new(),
            clocks: test_trace::no_clocks(),
        }
    }

    pub fn read_row(&mut self, row: &[u8]) -> Option<bool> {
        match row {
            [b'n', _, ..] => {
                self.manager = PlaybackStateManager::new();
                None
            }
            [b'p', _, columns @ ..] => test_trace::prepared(self.pause(columns)),
            [b'r', _, columns @ ..] => test_trace::prepared(self.resume(columns)),
            [b'c', _, columns @ ..] => {
                test_trace::prepared(test_trace::put_clock(&mut self.clocks, columns))
            }
            [b'u', _, columns @ ..] => test_trace::asked(self.update(columns)),
            _ => Some(false),
        }
    }

    fn pause(&mut self, columns: &[u8]) -> Option<()> {
        let order = test_trace::read_order(columns)?;
        let start = order.start;
        self.manager.pause(order.tween(start));
        Some(())
    }

    // The resume waits, and its fade does not.
    fn resume(&mut self, columns: &[u8]) -> Option<()> {
        let order = test_trace::read_order(columns)?;
        let start = order.start;
        self.manager
            .resume(start, order.tween(StartTime::Immediate));
        Some(())
    }

    // A chunk's columns, and those of what follows.
    fn update(&mut self, columns: &[u8]) -> Option<bool> {
        if columns.len() != 68 {
            return None;
        }
        let chunk = test_trace::read_chunk(&columns[0..35])?;
        let there = test_trace::counted_in_table(self.clocks, chunk.count)?;
        let changed = try_update(&mut self.manager, chunk.dt, &there)?;
        is_update(self.manager, changed, chunk.amount, &columns[36..68])
    }
}

// The states in kira's order.
fn state_number(state: PlaybackState) -> u64 {
    match state {
        PlaybackState::Playing => 0,
        PlaybackState::Pausing => 1,
        PlaybackState::Paused => 2,
        PlaybackState::WaitingToResume {
            start_time: _,
            fade_in_tween: _,
        } => 3,
        PlaybackState::Resuming => 4,
        PlaybackState::Stopping => 5,
        PlaybackState::Stopped => 6,
    }
}

// The update, where it may be asked: whether it changed the state.
fn try_update(manager: &mut PlaybackStateManager, dt: f64, clocks: &Clocks) -> Option<bool>
    requires { clocks.now.count ≤ 8 }
{
    if test_trace::in_an_hour(dt) {
        return Some(manager.update(dt, clocks));
    }
    None
}

// Columns `changed state advancing`.
fn is_state(state: PlaybackState, changed: bool, columns: &[u8]) -> Option<bool> {
    if columns.len() != 5 {
        return None;
    }
    let expected = test_replay::hex(&columns[0..1])?;
    let number = test_replay::hex(&columns[2..3])?;
    let advancing = test_replay::hex(&columns[4..5])?;
    Some(
        state_number(state) == number
            && u64::from(state.is_advancing()) == advancing
            && u64::from(changed) == expected,
    )
}

// A state's columns, and the levels.
fn is_update(
    manager: PlaybackStateManager,
    changed: bool,
    amount: f64,
    columns: &[u8],
) -> Option<bool> {
    if columns.len() != 32 {
        return None;
    }
    let state = is_state(manager.state, changed, &columns[0..5])?;
    let fade = manager.volume_fade;
    let levels = test_trace::are_levels(
        fade.value(),
        fade.previous_value(),
        manager.interpolated_fade_volume(amount),
        &columns[6..32],
    )?;
    Some(state && levels)
}
