// The tables of an accepted file, as structs. Nothing about sound.
#![tactic(auto)]

mod scene;

pub use scene::{
    ClockLine, Head, OrderKind, OrderLine, RouteLine, Scene, SendLine, SoundLine, TrackLine,
    TrackPlacing, no_scene, scene_of,
};
