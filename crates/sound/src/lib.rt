// Sounds: what one still has to play, as a part of the buffer that it is from, and the step that
// adds it onto a sum.
#![tactic(auto)]

mod sound;

pub use sound::{add_sound, remaining};
