// A scene file, its samples and the output's length: the questions in their order, and the tables of an
// accepted file.
#![tactic(auto)]

mod answer;

pub use answer::{Answer, read_input, read_scene};
