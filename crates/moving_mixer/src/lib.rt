// How a chunk moves a mixer that is lent.
#![tactic(auto)]

mod moves;

pub use moves::{update, update_clocks, update_levels};
