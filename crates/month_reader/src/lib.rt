// Mixes as they are read, a piece at a time.
#![tactic(auto)]

mod reading;
mod stream;

pub use reading::Reading;
pub use stream::{Stream, start, with_end, with_piece};
