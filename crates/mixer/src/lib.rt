// kira's mixer: the states of tracks, routes, send tracks and sounds when a scene begins. What orders do
// to them and how a chunk moves them are definitions here (specs/); the code that does it is lent the mixer
// (moving_mixer, mixer_orders).
#![tactic(auto)]

mod mixer;
mod sub;

pub use mixer::Mixer;
pub use sub::Track;
