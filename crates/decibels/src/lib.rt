// Decibels and amplitudes, kira's decibels.rs, with the gain table in place of `powf`.
#![tactic(auto)]

mod decibels;
mod write;

pub use decibels::{Amplitude, Decibels, LIMIT, Position, SILENCE, position_of};
pub use write::write_amplitude;
