// The scene file: its bytes to the numbers of its tables, each in its place.
#![tactic(auto)]

mod grammar;
mod numbers;

pub use grammar::{Layout, read_tables};
pub use numbers::{at, natural_of};
