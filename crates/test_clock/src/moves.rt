// A clock's update, where it may be asked.
ghost use Rattle.std.specs.Prelude.{◌≡◌, true, T};
ghost use Rattle.std.specs.Float.{binary64};
ghost use Rattle.std.specs.Float.Ieee.{fits, le};
ghost use Rattle.laws.specs.Float.{whole};
ghost use Rattle.clock.specs.Clock.{CanMove};

use clock::Clock;

// An update counts 1,001 ticks at most, which a u64 must hold.
const LAST_TICK: u64 = 18446744073709550614;

fn is_within(x: f64, most: f64) -> bool
    ensures { result ≡ true → T (fits binary64 x) × T (le (whole 0) x) × T (le x most) }
{
    if 0.0 <= x {
        return x <= most;
    }
    false
}

fn can_move(clock: Clock, dt: f64) -> bool
    ensures { result ≡ true → CanMove clock dt }
{
    let speed = clock.speed;
    let time = clock.time(0);
    if !is_within(speed.as_ticks_per_second(), 1000.0) {
        return false;
    }
    if !is_within(dt, 1.0) {
        return false;
    }
    if !is_within(time.fraction, 1.0) {
        return false;
    }
    if LAST_TICK < time.ticks {
        return false;
    }
    time.fraction < 1.0
}

// The clock after an update, where that may be asked.
pub fn try_update(clock: Clock, dt: f64) -> Option<Clock> {
    if can_move(clock, dt) {
        let mut moved = clock;
        moved.update(dt);
        return Some(moved);
    }
    None
}
