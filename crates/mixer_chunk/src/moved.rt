// What mixing reads of a mixer that has moved since the chunk before.
ghost use Rattle.std.specs.Prelude.{◌≡◌, ℕ, ◌≤◌, ◌<◌, T, false};
ghost use Rattle.limits.specs.Limits.{track_lines};
ghost use Rattle.gain_table.specs.GainTable.{IsGainTable};
ghost use Rattle.decibels.specs.Decibels.{admitted};
ghost use Rattle.accepted.specs.SceneOk.{SceneOk};
ghost use Rattle.mixer.specs.Mixer.{parameter_of};
ghost use Rattle.mixer.specs.Mixes.{MixerMixes};
ghost use Rattle.mixer_chunk.specs.ChunkOf.{chunk_track, chunk_route, chunk_tracks, chunk_routes, chunk_of};
ghost use Rattle.mixer_chunk.specs.Follows.{Follows, TracksFollow, RoutesFollow, resting};

use crate::route_gain::RouteGain;
use crate::tables::{chunk_route, chunk_track, level_of, put_played, put_sends};
use chunk::{Chunk, ChunkRoute, ChunkTrack};
use gain_table::GainTable;
use limits::{ROUTE_LINES, TRACK_PLACES};
use mixer::{Mixer, Track};
use parameter::Parameter;
use scene::{RouteLine, Scene, TrackLine, TrackPlacing};

// A track's row, in a chunk that was laid for the chunk before: one that was not reached has the levels of before.
#[tactic(auto, unfolding(crate::specs::Follows::resting))]
fn put_moved_track(row: &mut ChunkTrack, line: &TrackLine, place: &TrackPlacing, track: &Track)
    requires rests { track.now.reached ≡ false → resting row.old ≡ chunk_track line.now place.now.placing track.now }
    ensures { row.new ≡ chunk_track line.now place.now.placing track.now }
{
    if track.reached {
        *row = chunk_track(line, place.placing, track);
    } else {
        row.advancing = false;
    }
}

#[tactic(auto, using(laws::proofs::laws::Loop::changed_zero))]
fn put_moved_tracks(rows: &mut [ChunkTrack; TRACK_PLACES], scene: &Scene, mixer: &Mixer)
    requires tracks_fit { scene.now.track_count ≤ track_lines }
    requires follow { TracksFollow scene.now rows.old mixer.now }
    ensures { rows.new ≡ chunk_tracks scene.now.tracks scene.now.placings scene.now.track_count mixer.now.tracks }
{
    for t in 0..scene.track_count {
        put_moved_track(
            &mut rows[t],
            &scene.tracks[t],
            &scene.placings[t],
            &mixer.tracks[t],
        );
    }
}

// A route moves where its track is reached.
fn put_moved_route(
    row: &mut ChunkRoute,
    line: &RouteLine,
    parameter: &Parameter,
    reached: bool,
    gain: &mut RouteGain,
    table: &GainTable,
)
    requires gain_table { IsGainTable table.now }
    requires admitted { T (admitted parameter.now.raw_value.0) }
    requires rests { reached ≡ false → row.old ≡ chunk_route line.now parameter.now }
    ensures { row.new ≡ chunk_route line.now parameter.now }
{
    if reached {
        *row = chunk_route(line, parameter, gain, table);
    }
}

#[tactic(auto, using(laws::proofs::laws::Loop::changed_zero))]
fn put_moved_routes(
    rows: &mut [ChunkRoute; ROUTE_LINES],
    scene: &Scene,
    mixer: &Mixer,
    gains: &mut [RouteGain; ROUTE_LINES],
    table: &GainTable,
)
    requires gain_table { IsGainTable table.now }
    requires scene_ok { SceneOk scene.now }
    requires admitted { (r : ℕ) → r < scene.now.route_count → T (admitted (parameter_of mixer.now.routes r).raw_value.0) }
    requires follow { RoutesFollow scene.now rows.old mixer.now }
    ensures { rows.new ≡ chunk_routes scene.now.routes scene.now.route_count mixer.now.routes }
{
    for r in 0..scene.route_count {
        let track = scene.routes[r].track;
        let reached = mixer.tracks[track - 1].reached;
        put_moved_route(
            &mut rows[r],
            &scene.routes[r],
            &mixer.routes[r],
            reached,
            &mut gains[r],
            table,
        );
    }
}

// Lays a later chunk of a block over the chunk before: what was not reached since stays as it lies.
#[tactic(auto, unfolding(crate::specs::ChunkOf::chunk_of, crate::specs::ChunkOf::chunk_played))]
pub fn put_moved_chunk(
    chunk: &mut Chunk,
    scene: &Scene,
    mixer: &Mixer,
    frames: usize,
    gains: &mut [RouteGain; ROUTE_LINES],
    table: &GainTable,
)
    requires gain_table { IsGainTable table.now }
    requires scene_ok { SceneOk scene.now }
    requires mixer_fits_scene { MixerMixes scene.now mixer.now }
    requires follows { Follows scene.now chunk.old mixer.now }
    ensures { chunk.new ≡ chunk_of scene.now frames mixer.now }
{
    put_moved_tracks(&mut chunk.tracks, scene, mixer);
    put_moved_routes(&mut chunk.routes, scene, mixer, gains, table);
    put_sends(&mut chunk.sends, scene, mixer);
    chunk.main = level_of(&mixer.main_volume);
    put_played(chunk, scene, mixer, frames);
}
