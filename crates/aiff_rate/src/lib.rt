// An AIFF file's rate: a whole number that stands as a number of 80 bits.
#![tactic(auto)]

mod rate;

pub use rate::{put_rate, whole_at};
