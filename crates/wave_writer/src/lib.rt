// A WAVE file of given samples, and what any writer asks.
#![tactic(auto)]

mod file;
mod head;
mod questions;

pub use file::{length, write};
pub use head::put_head;
pub use questions::{asked, data_length, file_length};
