// kira's track/sub.rs: the state of a track.
ghost use Rattle.std.specs.Prelude.{◌≡◌};
ghost use Rattle.mixer.specs.Sub.{track_new};

use decibels::Decibels;
use parameter::Parameter;
use playback::PlaybackStateManager;

#[derive(Clone, Copy)]
pub struct Track {
    pub volume: Parameter,
    pub playback: PlaybackStateManager,
    // Of the last chunk: whether the track was reached, and whether it was and advanced.
    pub reached: bool,
    pub live: bool,
}

impl Track {
    #[tactic(auto, unfolding(crate::specs::Sub::track_new))]
    pub fn new(volume: Decibels) -> Track
        ensures { result ≡ track_new volume }
    {
        Track {
            volume: Parameter::new(volume),
            playback: PlaybackStateManager::new(),
            reached: false,
            live: false,
        }
    }
}
