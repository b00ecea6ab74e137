// The totals of a month of mixes, a piece at a time.
#![tactic(auto)]

mod piece;
mod totals;

pub use piece::{ONE, largest_magnitude};
pub use totals::{MOST_MIXES, MOST_SAMPLES, Peak, Totals, none, with_mix, with_piece};
