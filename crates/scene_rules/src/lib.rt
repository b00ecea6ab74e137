// The questions about line counts, ranges and references (3 to 5).
#![tactic(auto)]

mod lines;

pub use lines::{counts_fit, speed_of, tables_pass};
