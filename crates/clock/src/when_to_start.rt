// kira's clocks, and `when_to_start` of its info.rs.
ghost use Rattle.std.specs.Prelude.{◌≡◌, ◌≤◌};
ghost use Rattle.clock.specs.WhenToStart.{when_to_start};

use crate::clock::Clock;
use crate::clock_time::ClockTime;

#[derive(Clone, Copy, PartialEq, Eq, Debug)]
pub enum WhenToStart {
    Now,
    // The clock doesn't tick, or has not come to that time.
    Later,
    // There is no such clock.
    Never,
}

// The first `count` of the clocks are there.
#[derive(Clone, Copy)]
pub struct Clocks {
    pub clocks: [Clock; 8],
    pub count: usize,
}

impl Clocks {
    #[tactic(auto, unfolding(crate::specs::WhenToStart::when_to_start))]
    pub fn when_to_start(&self, time: ClockTime) -> WhenToStart
        requires { self.now.count ≤ 8 }
        ensures { result ≡ when_to_start self.now time }
    {
        let index = time.clock;
        if self.count <= index {
            return WhenToStart::Never;
        }
        let clock = self.clocks[index];
        if !clock.ticking {
            return WhenToStart::Later;
        }
        if clock.time(index).at_or_after(time) {
            WhenToStart::Now
        } else {
            WhenToStart::Later
        }
    }
}
