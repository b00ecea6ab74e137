// What a sound file in the form RIFF/WAVE holds.
#![tactic(auto)]

mod refusal;
mod sound;

pub use refusal::{Refusal, number_of};
pub use sound::{
    DATA, FLOAT, FORMAT, FORMAT_SIZE, PCM, RIFF, Sound, WAVE, channels_ok, rate_ok, sound_in,
};
