// A track's place in the room: how loud it is at the listener's.
#![tactic(auto)]

mod placing;
mod spatial;

pub use placing::Placing;
pub use spatial::{Distances, Position, attenuation};
