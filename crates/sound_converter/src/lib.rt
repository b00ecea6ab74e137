// WAVE files made into AIFF files, and back, value by value.
#![tactic(auto)]

mod routines;
mod values;

pub use routines::{aiff_to_wave, wave_to_aiff};
