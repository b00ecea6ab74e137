// What a chunk does to a mixer, before its frames are mixed.
ghost use Rattle.std.specs.Prelude.{◌≡◌, ℕ, ◌<◌, ◌≤◌, get_or};
ghost use Rattle.limits.specs.Limits.{track_places, track_lines, send_lines, route_lines};
ghost use Rattle.rounding.specs.Duration.{InAnHour};
ghost use Rattle.laws.specs.Loop.{changed};
ghost use Rattle.clock.specs.Clock.{updated, CanMove};
ghost use Rattle.clock.specs.WhenToStart.{clocks_updated, CanMoveAll, absent_clock};
ghost use Rattle.mixer.specs.Mixer.{live_above, tracks_update, updated_where, routes_update, sends_update, mixer_update};
ghost use Rattle.mixer.specs.Sub.{track_moved, track_update};
ghost use Rattle.moving_mixer.specs.Lines.{Below, Named, Lines};
ghost use Rattle.moving_mixer.specs.Moves.{parameter_moved, levels_update};

use clock::{Clock, Clocks};
use limits::{CLOCK_LINES, ROUTE_LINES, SEND_LINES, TRACK_LINES, TRACK_PLACES};
use mixer::{Mixer, Track};
use parameter::Parameter;
use scene::{RouteLine, Scene, TrackLine};

fn update_parameter(p: &mut Parameter, dt: f64, clocks: &Clocks)
    requires in_an_hour { InAnHour dt }
    requires clocks_fit { clocks.now.count ≤ 8 }
    ensures { p.new ≡ parameter_moved p.old dt clocks.now }
{
    let _ended = p.update(dt, clocks);
}

#[tactic(auto, unfolding(mixer::specs::Sub::track_moved))]
fn update_reached(track: &mut Track, dt: f64, clocks: &Clocks)
    requires in_an_hour { InAnHour dt }
    requires clocks_fit { clocks.now.count ≤ 8 }
    ensures { track.new ≡ track_moved track.old dt clocks.now }
{
    update_parameter(&mut track.volume, dt, clocks);
    let _changed = track.playback.update(dt, clocks);
    track.reached = true;
    track.live = track.playback.state.is_advancing();
}

#[tactic(auto, unfolding(mixer::specs::Sub::track_update, mixer::specs::Sub::track_still))]
fn update_track(track: &mut Track, reached: bool, dt: f64, clocks: &Clocks)
    requires in_an_hour { InAnHour dt }
    requires clocks_fit { clocks.now.count ≤ 8 }
    ensures { track.new ≡ track_update track.old reached dt clocks.now }
{
    if reached {
        update_reached(track, dt, clocks);
    } else {
        track.reached = false;
        track.live = false;
    }
}

#[tactic(auto, unfolding(mixer::specs::Mixer::live_above))]
fn live_above(tracks: &[Track; TRACK_PLACES], line: usize) -> bool
    requires { line ≤ track_places }
    ensures { result ≡ live_above tracks.now line }
{
    if line == 0 {
        return true;
    }
    tracks[line - 1].live
}

// Every track, in line order: a parent stands on an earlier line.
#[tactic(auto, using(laws::proofs::laws::Loop::upto_zero, laws::proofs::laws::Loop::upto_turn), unfolding(mixer::specs::Mixer::tracks_update, mixer::specs::Mixer::track_step))]
fn update_tracks(
    tracks: &mut [Track; TRACK_PLACES],
    lines: &[TrackLine; TRACK_LINES],
    count: usize,
    dt: f64,
    clocks: &Clocks,
)
    requires fit { count ≤ track_lines }
    requires below { Below count lines.now }
    requires in_an_hour { InAnHour dt }
    requires clocks_fit { clocks.now.count ≤ 8 }
    ensures { tracks.new ≡ tracks_update lines.now count dt clocks.now tracks.old }
{
    for t in 0..count {
        let reached = live_above(tracks, lines[t].parent);
        update_track(&mut tracks[t], reached, dt, clocks);
    }
}

#[tactic(auto, using(laws::proofs::laws::Loop::changed_zero, laws::proofs::laws::Turns::turned), unfolding(mixer::specs::Mixer::sends_update))]
fn update_sends(sends: &mut [Parameter; SEND_LINES], count: usize, dt: f64, clocks: &Clocks)
    requires fit { count ≤ send_lines }
    requires in_an_hour { InAnHour dt }
    requires clocks_fit { clocks.now.count ≤ 8 }
    ensures { sends.new ≡ sends_update count dt clocks.now sends.old }
{
    for i in 0..count {
        update_parameter(&mut sends[i], dt, clocks);
    }
}

#[tactic(auto, unfolding(mixer::specs::Mixer::updated_where))]
fn update_where(p: &mut Parameter, moves: bool, dt: f64, clocks: &Clocks)
    requires in_an_hour { InAnHour dt }
    requires clocks_fit { clocks.now.count ≤ 8 }
    ensures { p.new ≡ updated_where p.old moves dt clocks.now }
{
    if moves {
        update_parameter(p, dt, clocks);
    }
}

#[tactic(auto, using(laws::proofs::laws::Loop::changed_zero, laws::proofs::laws::Turns::turned), unfolding(mixer::specs::Mixer::routes_update, mixer::specs::Mixer::route_update))]
fn update_routes(
    routes: &mut [Parameter; ROUTE_LINES],
    lines: &[RouteLine; ROUTE_LINES],
    count: usize,
    dt: f64,
    clocks: &Clocks,
    tracks: &[Track; TRACK_PLACES],
)
    requires fit { count ≤ route_lines }
    requires named { Named count lines.now }
    requires in_an_hour { InAnHour dt }
    requires clocks_fit { clocks.now.count ≤ 8 }
    ensures { routes.new ≡ routes_update lines.now count dt clocks.now tracks.now routes.old }
{
    for r in 0..count {
        let track = lines[r].track;
        let moves = tracks[track - 1].reached;
        update_where(&mut routes[r], moves, dt, clocks);
    }
}

#[tactic(auto, using(laws::proofs::laws::Loop::changed_zero, laws::proofs::laws::Turns::turned))]
fn move_clocks(list: &mut [Clock; CLOCK_LINES], count: usize, dt: f64)
    requires fit { count ≤ 8 }
    requires can_move { (i : ℕ) → i < count → CanMove (get_or list.old i absent_clock) dt }
    ensures { list.new ≡ changed (λ i c. updated c dt) count list.old }
{
    for i in 0..count {
        list[i].update(dt);
    }
}

#[tactic(auto, unfolding(clock::specs::WhenToStart::clocks_updated))]
pub fn update_clocks(clocks: &mut Clocks, dt: f64)
    requires { CanMoveAll clocks.old dt }
    ensures { clocks.new ≡ clocks_updated clocks.old dt }
{
    let count = clocks.count;
    move_clocks(&mut clocks.clocks, count, dt);
}

// What a chunk moves, by the clocks as they stand.
#[tactic(auto, unfolding(crate::specs::Moves::levels_update))]
pub fn update_levels(mixer: &mut Mixer, scene: &Scene, dt: f64)
    requires clocks_fit { mixer.old.clocks.count ≤ 8 }
    requires lines { Lines scene.now }
    requires in_an_hour { InAnHour dt }
    ensures { mixer.new ≡ levels_update scene.now dt mixer.old }
{
    update_tracks(
        &mut mixer.tracks,
        &scene.tracks,
        scene.track_count,
        dt,
        &mixer.clocks,
    );
    update_routes(
        &mut mixer.routes,
        &scene.routes,
        scene.route_count,
        dt,
        &mixer.clocks,
        &mixer.tracks,
    );
    update_sends(&mut mixer.sends, scene.send_count, dt, &mixer.clocks);
    update_parameter(&mut mixer.main_volume, dt, &mixer.clocks);
}

// A chunk of dt seconds. Clocks move first.
#[tactic(auto, unfolding(crate::specs::Moves::levels_update, mixer::specs::Mixer::mixer_update, clock::specs::WhenToStart::clocks_updated))]
pub fn update(mixer: &mut Mixer, scene: &Scene, dt: f64)
    requires clocks { CanMoveAll mixer.old.clocks dt }
    requires lines { Lines scene.now }
    requires in_an_hour { InAnHour dt }
    ensures { mixer.new ≡ mixer_update scene.now dt mixer.old }
{
    update_clocks(&mut mixer.clocks, dt);
    update_levels(mixer, scene, dt);
}
