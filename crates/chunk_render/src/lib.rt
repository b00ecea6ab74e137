// The chunks of a block, and how long a block is.
#![tactic(auto)]

mod chunks;
mod length;

pub use chunks::{BlockParts, MixRoom, process_chunks, process_still_chunks, still_head};
pub use length::{block_clocks, block_nanos, block_step, clock_ticks};
