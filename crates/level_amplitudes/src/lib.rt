// The amplitudes of a level that moves, frame by frame of a chunk.
#![tactic(auto)]

mod runs;

pub use runs::{Factors, Parts, amplitude_at, amplitudes};
