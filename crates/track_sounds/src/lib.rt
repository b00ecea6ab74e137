// A track's sounds, found by links and added onto its sum; and the links of the tracks from which something is heard.
#![tactic(auto)]

mod chunk_links;
mod sounds;

pub use chunk_links::ChunkLinks;
pub use sounds::{add_sounds, add_sounds_and_scale};
