// The blocks of an accepted scene.
#![tactic(auto)]

mod blocks;

pub use blocks::render_blocks;
