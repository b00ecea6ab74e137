// What a sound file in the form AIFF holds.
#![tactic(auto)]

mod sound;

pub use sound::{AIFF, COMMON, COMMON_SIZE, FORM, SAMPLE_BITS, SOUND, sound_in};
