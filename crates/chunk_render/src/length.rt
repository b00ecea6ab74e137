// How long a block is, and what its clocks come to.
ghost use Rattle.std.specs.Prelude.{◌≡◌, ℕ, ◌≤◌, T, ◌⊎◌, Some};
ghost use Rattle.std.specs.Float.Ieee.{lt};
ghost use Rattle.laws.specs.Float.{pos_zero};
ghost use Rattle.limits.specs.Limits.{clock_lines};
ghost use Rattle.rounding.specs.Duration.{InAnHour};
ghost use Rattle.renderer.specs.Renderer.{chunk_count};
ghost use Rattle.chunk_render.specs.Block.{chunk_clocks, clock_ticks, block_nanos, NanosAsk, ClocksAsk};

use clock::Clocks;
use limits::CLOCK_LINES;
use scene::Head;

// Moves clocks through a block.
#[tactic(auto, using(crate::proofs::laws::Clocks::no_clocks_at, crate::proofs::laws::Clocks::clocks_begin, crate::proofs::laws::Clocks::turn_starts, crate::proofs::laws::Clocks::turn_short, crate::proofs::laws::Clocks::turn_ticks, crate::proofs::laws::Clocks::clocks_turn))]
pub fn block_clocks(clocks: &mut Clocks, head: Head)
    requires { ClocksAsk head clocks.old }
    ensures { clocks.new ≡ chunk_clocks head (chunk_count head) clocks.old }
{
    if clocks.count == 0 {
        return;
    }
    for k in 0..renderer::chunk_count(head) {
        let frames = renderer::chunk_frames(head, k);
        moving_mixer::update_clocks(clocks, renderer::chunk_seconds(head.rate, frames));
    }
}

// The ticks that each clock has counted.
#[tactic(auto, using(laws::proofs::laws::Loop::changed_zero, laws::proofs::laws::Turns::turned), unfolding(crate::specs::Block::clock_ticks, clock::specs::Clock::time_of))]
pub fn clock_ticks(clocks: &Clocks) -> [u64; CLOCK_LINES]
    requires { clocks.now.count ≤ clock_lines }
    ensures { result ≡ clock_ticks clocks.now }
{
    let mut ticks = [0u64; CLOCK_LINES];
    for i in 0..clocks.count {
        ticks[i] = clocks.clocks[i].time(i).ticks;
    }
    ticks
}

// No block is so long.
const MANY: u64 = 1 << 62;

// The nanoseconds of a block, if they are not too many.
#[tactic(auto, using(crate::proofs::laws::Nanos::nanos_begin, crate::proofs::laws::Nanos::nanos_end, crate::proofs::laws::Nanos::nanos_turn, crate::proofs::laws::Nanos::chunk_there, crate::proofs::laws::Nanos::chunk_short, crate::proofs::laws::Nanos::chunk_hour))]
pub fn block_nanos(head: Head) -> Option<u64>
    requires { NanosAsk head }
    ensures { (nanos : ℕ) → result ≡ Some nanos → nanos ≡ block_nanos head }
{
    let mut nanos = 0u64;
    for k in 0..renderer::chunk_count(head) {
        let frames = renderer::chunk_frames(head, k);
        let more = rounding::nanos_from_secs_f64(renderer::chunk_seconds(head.rate, frames));
        if MANY - nanos < more {
            return None;
        }
        nanos += more;
    }
    Some(nanos)
}

// So many nanoseconds as seconds, or 0 where they are more than an hour. That they are as many is the caller's to ask.
pub fn block_step(nanos: u64) -> f64
    ensures { InAnHour result × ((result ≡ pos_zero) ⊎ T (lt pos_zero result)) }
{
    let step = std::num::nearest_u64_to_f64(nanos) / 1000000000.0;
    if 0.0 < step {
        if step <= 3600.0 {
            return step;
        }
    }
    0.0
}
