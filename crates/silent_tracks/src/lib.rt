// Which tracks of a scene are silent by the input alone: muted, held, or inside such a track.
#![tactic(auto)]

mod answer;
mod tracks;

pub use answer::silent;
