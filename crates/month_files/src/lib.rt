// The month program's meaning: its standard input, the names of its files, and what it prints.
#![tactic(auto)]

mod lines;
mod print;
mod report;

pub use lines::{HEAD, Lines, LinesRefusal, channels_at, no_lines, questions, with_lines};
pub use print::{NAME, TEXT, mix_name};
pub use report::month_text;
