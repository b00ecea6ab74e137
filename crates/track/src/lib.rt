// Tracks: the mix of a chunk. kira's track/sub.rs, track/main.rs, and `Mixer::process`.
#![tactic(auto)]

mod mix;
mod sub;

pub use mix::process_flat;
