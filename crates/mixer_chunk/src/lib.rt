// What mixing reads of a mixer that has moved.
#![tactic(auto)]

mod moved;
mod route_gain;
mod tables;

pub use moved::put_moved_chunk;
pub use route_gain::RouteGain;
pub use tables::{chunk_of, put_chunk, put_next_chunk, put_played};
