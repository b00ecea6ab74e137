// Send tracks: their inputs, and what they add to the mix. kira's track/send.rs.
#![tactic(auto)]

mod send;

pub use send::{SEND_PART, SEND_PLACES, add_send, apply_level, clear_sends};
