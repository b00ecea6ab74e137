// When a mixer stands still: nothing but clocks and sounds moves in a chunk.
#![tactic(auto)]

mod steady;

pub use steady::is_steady;
