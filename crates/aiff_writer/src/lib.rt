// An AIFF file of given samples.
#![tactic(auto)]

mod file;
mod head;

pub use file::{length, write};
pub use head::put_head;
