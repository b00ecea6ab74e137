// What mixing a chunk reads: its tables with every level.
#![tactic(auto)]

mod chunk;

pub use chunk::{Chunk, ChunkRoute, ChunkSound, ChunkTrack, Level, parts_of};
