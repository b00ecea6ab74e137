// Whether a block's updates would change nothing of a mixer but its clocks and how long is still waited.
ghost use Rattle.std.specs.Prelude.{◌≡◌, ◌≤◌};
ghost use Rattle.limits.specs.Limits.{track_places};
ghost use Rattle.scene_tables.specs.Bytes.{every};
ghost use Rattle.mixer.specs.Mixer.{live_above};
ghost use Rattle.moving_mixer.specs.Lines.{Lines};
ghost use Rattle.steady_mixer.specs.Steady.{ahead, comes_later, motion_later, parameter_steady, state_steady, is_pausing, reached_steady, steady_where};
ghost use Rattle.steady_mixer.specs.MixerSteady.{steady_track, steady_route, steady_send, mixer_steady, ValueIn, TrackIn, LevelsIn};

use limits::TRACK_PLACES;
use mixer::{Mixer, Track};
use parameter::{Parameter, ParameterState};
use playback::PlaybackState;
use scene::Scene;
use tween::StartTime;

// How far is looked ahead: whether anything may wait, a block's nanoseconds, and the clocks' ticks at its end.
#[derive(Clone, Copy)]
struct Block<'a> {
    waits: bool,
    nanos: u64,
    ends: &'a [u64],
}

impl Block<'_> {
    // A start does not come within the block.
    #[tactic(auto, unfolding(crate::specs::Steady::comes_later))]
    fn comes_later(&self, start: &StartTime) -> bool
        ensures { result ≡ comes_later (ahead self.now.waits self.now.nanos self.now.ends.now) start.now }
    {
        match *start {
            StartTime::Immediate => false,
            StartTime::Delayed(remaining) => self.nanos < remaining,
            StartTime::ClockTime(time) => {
                time.clock < self.ends.len() && self.ends[time.clock] < time.ticks
            }
        }
    }

    // A motion waits.
    #[tactic(auto, unfolding(crate::specs::Steady::motion_later))]
    fn motion_later(&self, state: &ParameterState) -> bool
        ensures { result ≡ motion_later (ahead self.now.waits self.now.nanos self.now.ends.now) state.now }
    {
        match *state {
            ParameterState::Idle { value: _ } => false,
            ParameterState::Tweening {
                start: _,
                target: _,
                time: _,
                tween,
            } => self.comes_later(&tween.start_time),
        }
    }

    // A parameter rests, in every bit, or waits.
    #[tactic(auto, unfolding(crate::specs::Steady::parameter_steady, crate::specs::Steady::same_level))]
    fn parameter_steady(&self, p: &Parameter) -> bool
        requires value_in_range { ValueIn p.now }
        ensures { result ≡ parameter_steady (ahead self.now.waits self.now.nanos self.now.ends.now) p.now }
    {
        f32::to_bits(p.previous_raw_value.0) == f32::to_bits(p.raw_value.0)
            && (p.stagnant || self.waits && self.motion_later(&p.state))
    }

    // Of the playback states none but the one that waits changes, but at its fade's end.
    #[tactic(auto, unfolding(crate::specs::Steady::state_steady))]
    fn state_steady(&self, state: &PlaybackState) -> bool
        ensures { result ≡ state_steady (ahead self.now.waits self.now.nanos self.now.ends.now) state.now }
    {
        match *state {
            PlaybackState::WaitingToResume {
                start_time,
                fade_in_tween: _,
            } => self.waits && self.comes_later(&start_time),
            _ => true,
        }
    }

    // A track that is reached. A fade that waits is that of a pause.
    #[tactic(auto, unfolding(crate::specs::Steady::reached_steady))]
    fn reached_steady(&self, track: &Track) -> bool
        requires values_in_range { TrackIn track.now }
        ensures { result ≡ reached_steady (ahead self.now.waits self.now.nanos self.now.ends.now) track.now }
    {
        let state = &track.playback.state;
        let fade = Block {
            waits: self.waits && is_pausing(state),
            nanos: self.nanos,
            ends: self.ends,
        };
        self.state_steady(state)
            && track.live == track.playback.state.is_advancing()
            && self.parameter_steady(&track.volume)
            && fade.parameter_steady(&track.playback.volume_fade)
    }

    // A track below one that is not live does not move: its flags say so.
    #[tactic(auto, unfolding(crate::specs::Steady::steady_where))]
    fn track_steady(&self, track: &Track, reached: bool) -> bool
        requires values_in_range { TrackIn track.now }
        ensures { result ≡ steady_where (ahead self.now.waits self.now.nanos self.now.ends.now) track.now reached }
    {
        if track.reached != reached {
            return false;
        }
        if reached {
            self.reached_steady(track)
        } else {
            !track.live
        }
    }

    fn tracks_steady(&self, mixer: &Mixer, scene: &Scene) -> bool
        requires lines { Lines scene.now }
        requires levels_in_range { LevelsIn scene.now mixer.now }
        ensures { result ≡ every scene.now.track_count (steady_track (ahead self.now.waits self.now.nanos self.now.ends.now) scene.now.tracks mixer.now.tracks) }
    {
        (0..scene.track_count).all(|t| {
            let reached = live_above(&mixer.tracks, scene.tracks[t].parent);
            self.track_steady(&mixer.tracks[t], reached)
        })
    }

    // A route moves where its track is reached.
    fn routes_steady(&self, mixer: &Mixer, scene: &Scene) -> bool
        requires lines { Lines scene.now }
        requires levels_in_range { LevelsIn scene.now mixer.now }
        ensures { result ≡ every scene.now.route_count (steady_route (ahead self.now.waits self.now.nanos self.now.ends.now) scene.now.routes mixer.now.tracks mixer.now.routes) }
    {
        (0..scene.route_count).all(|r| {
            let track = scene.routes[r].track;
            !mixer.tracks[track - 1].reached || self.parameter_steady(&mixer.routes[r])
        })
    }

    fn sends_steady(&self, mixer: &Mixer, scene: &Scene) -> bool
        requires lines { Lines scene.now }
        requires levels_in_range { LevelsIn scene.now mixer.now }
        ensures { result ≡ every scene.now.send_count (steady_send (ahead self.now.waits self.now.nanos self.now.ends.now) mixer.now.sends) }
    {
        (0..scene.send_count).all(|i| self.parameter_steady(&mixer.sends[i]))
    }
}

#[tactic(auto, unfolding(crate::specs::Steady::is_pausing))]
fn is_pausing(state: &PlaybackState) -> bool
    ensures { result ≡ is_pausing state.now }
{
    matches!(*state, PlaybackState::Pausing)
}

// Whether what stands on a line number, counted from 1, is the mixer or a live track.
#[tactic(auto, unfolding(mixer::specs::Mixer::live_above))]
fn live_above(tracks: &[Track; TRACK_PLACES], line: usize) -> bool
    requires { line ≤ track_places }
    ensures { result ≡ live_above tracks.now line }
{
    line == 0 || tracks[line - 1].live
}

// Whether no update within a block of so many nanoseconds, at whose end the clocks stand at these
// ticks, changes more than the clocks and how long is waited. Nothing may wait where `waiting` is false.
#[tactic(auto, unfolding(crate::specs::MixerSteady::mixer_steady))]
pub fn is_steady(mixer: &Mixer, scene: &Scene, waiting: bool, nanos: u64, ends: &[u64]) -> bool
    requires lines { Lines scene.now }
    requires levels_in_range { LevelsIn scene.now mixer.now }
    ensures { result ≡ mixer_steady (ahead waiting nanos ends.now) scene.now mixer.now }
{
    let block = Block {
        waits: waiting,
        nanos,
        ends,
    };
    block.parameter_steady(&mixer.main_volume)
        && block.sends_steady(mixer, scene)
        && block.tracks_steady(mixer, scene)
        && block.routes_steady(mixer, scene)
}
