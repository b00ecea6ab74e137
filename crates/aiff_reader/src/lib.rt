// What an AIFF file in hand is, and its samples.
#![tactic(auto)]

mod file;

pub use file::{info, read};
