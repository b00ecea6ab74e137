// What a track's frames are scaled by: its placing, and then volume times fade.
#![tactic(auto)]

mod volume;

pub use volume::{FEW, apply_placing_and_volume};
