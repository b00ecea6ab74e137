// What a WAVE file in hand is, and its samples.
#![tactic(auto)]

mod file;

pub use file::{info, read, read_found};
