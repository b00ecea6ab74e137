// The render program's meaning: what it prints, over the bytes of its three files.
#![tactic(auto)]

mod files;
mod print;
mod program;
mod samples;

pub use files::{SAMPLE_BYTES, SCENE_BYTES, TEXT, render_read, render_text};
pub use program::run;
