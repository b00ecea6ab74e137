// Whether a track is muted, and whether it is held, by a scene's tables alone.
#![tactic(auto)]

mod below;
mod held;
mod muted;
mod orders;

pub use below::parent_of;
pub use held::is_held;
pub use muted::is_muted;
