// kira's backend/renderer.rs: how a block is cut in chunks, and what becomes of a mixed frame. Blocks are
// rendered in `block_render`.
#![tactic(auto)]

mod renderer;

pub use renderer::{chunk_count, chunk_frames, chunk_seconds, write_frames};
