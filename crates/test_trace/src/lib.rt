// What the rows of several lists share: a clock as an update finds it, an order's start and tween, an
// update's chunk and the levels after it.
#![tactic(auto)]

mod chunks;
mod clocks;
mod orders;
mod rows;

pub use chunks::{Chunk, are_levels, counted, counted_in_table, in_an_hour, read_chunk};
pub use clocks::{no_clocks, put_clock};
pub use orders::{Order, easing, read_order};
pub use rows::{asked, prepared};
