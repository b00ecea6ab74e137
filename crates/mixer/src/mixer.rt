// kira's backend/resources/mixer.rs: the state that moves, when it is made.
ghost use Rattle.std.specs.Prelude.{◌≡◌, ◌≤◌};
ghost use Rattle.accepted.specs.SceneOk.{SceneOk};
ghost use Rattle.mixer.specs.Mixer.{empty_clock, empty_track, empty_parameter, zero_decibels, clocks_new, tracks_new, sends_new, routes_new, mixer_new};
ghost use Rattle.limits.specs.Limits.{clock_lines, track_places, send_lines, route_lines};

use crate::sub::Track;
use clock::{Clock, ClockSpeed, Clocks};
use decibels::Decibels;
use limits::{CLOCK_LINES, ROUTE_LINES, SEND_LINES, SOUND_LINES, TRACK_PLACES};
use parameter::Parameter;
use scene::Scene;

// Arrays go by the scene's lines.
#[derive(Clone, Copy)]
pub struct Mixer {
    pub clocks: Clocks,
    pub main_volume: Parameter,
    pub tracks: [Track; TRACK_PLACES],
    pub sends: [Parameter; SEND_LINES],
    pub routes: [Parameter; ROUTE_LINES],
    // How many frames each sound has played.
    pub played: [usize; SOUND_LINES],
}

// What stands where a scene has no line.
fn empty_clock() -> Clock
    ensures { result ≡ empty_clock }
{
    Clock::new(ClockSpeed::TicksPerSecond(0.0), false)
}

#[tactic(auto, unfolding(crate::specs::Mixer::empty_track))]
fn empty_track() -> Track
    ensures { result ≡ empty_track }
{
    Track::new(zero_decibels())
}

#[tactic(auto, unfolding(crate::specs::Mixer::empty_parameter))]
fn empty_parameter() -> Parameter
    ensures { result ≡ empty_parameter }
{
    Parameter::new(zero_decibels())
}

fn zero_decibels() -> Decibels
    ensures { result ≡ zero_decibels }
{
    Decibels(0.0)
}

#[tactic(auto, using(laws::proofs::laws::Loop::changed_zero), unfolding(crate::specs::Mixer::clocks_new))]
fn new_clocks(scene: &Scene) -> Clocks
    requires { scene.now.clock_count ≤ clock_lines }
    ensures { result ≡ clocks_new scene.now }
{
    let count = scene.clock_count;
    let mut clocks = [empty_clock(); CLOCK_LINES];
    for i in 0..count {
        clocks[i] = Clock::new(scene.clocks[i].speed, scene.clocks[i].ticking);
    }
    Clocks { clocks, count }
}

#[tactic(auto, using(laws::proofs::laws::Loop::changed_zero), unfolding(crate::specs::Mixer::tracks_new))]
fn new_tracks(scene: &Scene) -> [Track; TRACK_PLACES]
    requires { scene.now.track_count ≤ track_places }
    ensures { result ≡ tracks_new scene.now }
{
    let mut tracks = [empty_track(); TRACK_PLACES];
    for t in 0..scene.track_count {
        tracks[t] = Track::new(scene.tracks[t].volume);
    }
    tracks
}

#[tactic(auto, using(laws::proofs::laws::Loop::changed_zero), unfolding(crate::specs::Mixer::sends_new))]
fn new_sends(scene: &Scene) -> [Parameter; SEND_LINES]
    requires { scene.now.send_count ≤ send_lines }
    ensures { result ≡ sends_new scene.now }
{
    let mut sends = [empty_parameter(); SEND_LINES];
    for i in 0..scene.send_count {
        sends[i] = Parameter::new(scene.sends[i].volume);
    }
    sends
}

#[tactic(auto, using(laws::proofs::laws::Loop::changed_zero), unfolding(crate::specs::Mixer::routes_new))]
fn new_routes(scene: &Scene) -> [Parameter; ROUTE_LINES]
    requires { scene.now.route_count ≤ route_lines }
    ensures { result ≡ routes_new scene.now }
{
    let mut routes = [empty_parameter(); ROUTE_LINES];
    for r in 0..scene.route_count {
        routes[r] = Parameter::new(scene.routes[r].volume);
    }
    routes
}

impl Mixer {
    #[tactic(auto, unfolding(crate::specs::Mixer::mixer_new))]
    pub fn new(scene: Scene) -> Mixer
        requires { SceneOk scene }
        ensures { result ≡ mixer_new scene }
    {
        Mixer {
            clocks: new_clocks(&scene),
            main_volume: Parameter::new(scene.head.volume),
            tracks: new_tracks(&scene),
            sends: new_sends(&scene),
            routes: new_routes(&scene),
            played: [0usize; SOUND_LINES],
        }
    }
}
