// An accepted scene, rendered.
#![tactic(auto)]

mod start;

pub use start::render_scene;
