// The samples of a sound file's data, frame by frame.
#![tactic(auto)]

mod data;

pub use data::{read_samples, write_samples};
