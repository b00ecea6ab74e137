// A block of a scene, its orders read.
#![tactic(auto)]

mod block;

pub use block::{BlockLength, ShowParts, render_block};
