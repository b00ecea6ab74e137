// The states of playback: kira's playback_state_manager.rs.
#![tactic(auto)]

mod playback_state_manager;

pub use playback_state_manager::{PlaybackState, PlaybackStateManager};
