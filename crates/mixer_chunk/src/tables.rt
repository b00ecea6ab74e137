// What mixing reads of a mixer that has moved.
ghost use Rattle.std.specs.Prelude.{◌≡◌, ℕ, ◌+◌, ◌^◌, ◌≤◌, ◌<◌, get_or, T};
ghost use Rattle.limits.specs.Limits.{track_lines, send_lines, route_lines, sound_lines};
ghost use Rattle.gain_table.specs.GainTable.{IsGainTable};
ghost use Rattle.decibels.specs.Decibels.{admitted};
ghost use Rattle.accepted.specs.Lines.{sound_line};
ghost use Rattle.accepted.specs.SceneOk.{SceneOk};
ghost use Rattle.mixer.specs.Mixer.{parameter_of};
ghost use Rattle.mixer.specs.Mixes.{MixerMixes};
ghost use Rattle.mixer_chunk.specs.ChunkOf.{level_of, chunk_track, chunk_route, chunk_sound};
ghost use Rattle.mixer_chunk.specs.ChunkOf.{empty_level, empty_track_row, empty_route_row, empty_sound_row};
ghost use Rattle.mixer_chunk.specs.ChunkOf.{chunk_tracks, chunk_sends, chunk_routes, chunk_sounds, chunk_of, chunk_played};

use crate::route_gain::RouteGain;
use chunk::{Chunk, ChunkRoute, ChunkSound, ChunkTrack, Level};
use decibels::{Amplitude, Decibels};
use gain_table::GainTable;
use limits::{ROUTE_LINES, SEND_LINES, SOUND_LINES, TRACK_PLACES};
use mixer::{Mixer, Track};
use parameter::Parameter;
use scene::{RouteLine, Scene, SoundLine, TrackLine};
use spatial::Placing;

// A parameter before the chunk and at its end.
#[tactic(auto, unfolding(crate::specs::ChunkOf::level_of))]
pub(crate) fn level_of(parameter: &Parameter) -> Level
    ensures { result ≡ level_of parameter.now }
{
    Level {
        before: parameter.previous_raw_value,
        now: parameter.raw_value,
    }
}

#[tactic(auto, unfolding(crate::specs::ChunkOf::chunk_track))]
pub(crate) fn chunk_track(line: &TrackLine, placing: Placing, track: &Track) -> ChunkTrack
    ensures { result ≡ chunk_track line.now placing track.now }
{
    ChunkTrack {
        parent: line.parent,
        advancing: track.live,
        placing,
        volume: level_of(&track.volume),
        fade: level_of(&track.playback.volume_fade),
    }
}

#[tactic(auto, unfolding(crate::specs::ChunkOf::chunk_route))]
pub(crate) fn chunk_route(
    line: &RouteLine,
    parameter: &Parameter,
    gain: &mut RouteGain,
    table: &GainTable,
) -> ChunkRoute
    requires gain_table { IsGainTable table.now }
    requires admitted { T (admitted parameter.now.raw_value.0) }
    ensures { result ≡ chunk_route line.now parameter.now }
{
    ChunkRoute {
        track: line.track,
        send: line.send,
        amplitude: gain.amplitude_of(parameter.raw_value, table),
    }
}

#[tactic(auto, unfolding(crate::specs::ChunkOf::chunk_sound))]
fn chunk_sound(line: &SoundLine, done: usize) -> ChunkSound
    requires played_within_count { done ≤ line.now.count }
    requires sound_end_in_range { line.now.first + line.now.count < 2 ^ 63 }
    ensures { result ≡ chunk_sound line.now done }
{
    ChunkSound {
        track: line.track,
        start: line.first + done,
        left: line.count - done,
        from: line.from,
    }
}

// What stands where there is no line.
fn empty_level() -> Level
    ensures { result ≡ empty_level }
{
    Level {
        before: Decibels(0.0),
        now: Decibels(0.0),
    }
}

#[tactic(auto, unfolding(crate::specs::ChunkOf::empty_track_row))]
fn empty_track() -> ChunkTrack
    ensures { result ≡ empty_track_row }
{
    ChunkTrack {
        parent: 0,
        advancing: false,
        placing: Placing::Plain,
        volume: empty_level(),
        fade: empty_level(),
    }
}

fn empty_route() -> ChunkRoute
    ensures { result ≡ empty_route_row }
{
    ChunkRoute {
        track: 0,
        send: 0,
        amplitude: Amplitude(0.0),
    }
}

#[tactic(auto, unfolding(crate::specs::ChunkOf::empty_sound_row))]
fn empty_sound() -> ChunkSound
    ensures { result ≡ empty_sound_row }
{
    ChunkSound {
        track: 0,
        start: 0,
        left: 0,
        from: 0,
    }
}

#[tactic(auto, using(laws::proofs::laws::Loop::changed_zero), unfolding(crate::specs::ChunkOf::chunk_tracks))]
fn put_tracks(rows: &mut [ChunkTrack; TRACK_PLACES], scene: &Scene, mixer: &Mixer)
    requires { scene.now.track_count ≤ track_lines }
    ensures { rows.new ≡ chunk_tracks scene.now.tracks scene.now.placings scene.now.track_count mixer.now.tracks }
{
    *rows = [empty_track(); TRACK_PLACES];
    for t in 0..scene.track_count {
        let placing = scene.placings[t].placing;
        rows[t] = chunk_track(&scene.tracks[t], placing, &mixer.tracks[t]);
    }
}

#[tactic(auto, using(laws::proofs::laws::Loop::changed_zero), unfolding(crate::specs::ChunkOf::chunk_sends))]
pub(crate) fn put_sends(rows: &mut [Level; SEND_LINES], scene: &Scene, mixer: &Mixer)
    requires { scene.now.send_count ≤ send_lines }
    ensures { rows.new ≡ chunk_sends scene.now.send_count mixer.now.sends }
{
    *rows = [empty_level(); SEND_LINES];
    for i in 0..scene.send_count {
        rows[i] = level_of(&mixer.sends[i]);
    }
}

#[tactic(auto, using(laws::proofs::laws::Loop::changed_zero), unfolding(crate::specs::ChunkOf::chunk_routes))]
fn put_routes(
    rows: &mut [ChunkRoute; ROUTE_LINES],
    scene: &Scene,
    mixer: &Mixer,
    gains: &mut [RouteGain; ROUTE_LINES],
    table: &GainTable,
)
    requires gain_table { IsGainTable table.now }
    requires routes_fit { scene.now.route_count ≤ route_lines }
    requires admitted { (r : ℕ) → r < scene.now.route_count → T (admitted (parameter_of mixer.now.routes r).raw_value.0) }
    ensures { rows.new ≡ chunk_routes scene.now.routes scene.now.route_count mixer.now.routes }
{
    *rows = [empty_route(); ROUTE_LINES];
    for r in 0..scene.route_count {
        rows[r] = chunk_route(&scene.routes[r], &mixer.routes[r], &mut gains[r], table);
    }
}

#[tactic(auto, using(laws::proofs::laws::Loop::changed_zero), unfolding(crate::specs::ChunkOf::chunk_sounds))]
fn put_sounds(rows: &mut [ChunkSound; SOUND_LINES], scene: &Scene, mixer: &Mixer)
    requires sounds_fit { scene.now.sound_count ≤ sound_lines }
    requires played_within_count { (k : ℕ) → k < scene.now.sound_count → get_or mixer.now.played k 0 ≤ (sound_line scene.now k).count }
    requires sound_ends_in_range { (k : ℕ) → k < scene.now.sound_count → (sound_line scene.now k).first + (sound_line scene.now k).count < 2 ^ 63 }
    ensures { rows.new ≡ chunk_sounds scene.now.sounds scene.now.sound_count mixer.now.played }
{
    *rows = [empty_sound(); SOUND_LINES];
    for k in 0..scene.sound_count {
        rows[k] = chunk_sound(&scene.sounds[k], mixer.played[k]);
    }
}

// The chunk of so many frames, once its sounds have played on. Where nothing else moves it is the mixer's.
#[tactic(auto, unfolding(crate::specs::ChunkOf::chunk_played))]
pub fn put_played(chunk: &mut Chunk, scene: &Scene, mixer: &Mixer, frames: usize)
    requires scene_ok { SceneOk scene.now }
    requires mixer_fits_scene { MixerMixes scene.now mixer.now }
    ensures { chunk.new ≡ chunk_played scene.now frames mixer.now chunk.old }
{
    chunk.frames = frames;
    put_sounds(&mut chunk.sounds, scene, mixer);
}

// Lays the chunk of so many frames that mixing reads. `gains` are those that a show keeps from chunk to chunk.
#[tactic(auto, unfolding(crate::specs::ChunkOf::chunk_of, crate::specs::ChunkOf::chunk_played))]
pub fn put_next_chunk(
    chunk: &mut Chunk,
    scene: &Scene,
    mixer: &Mixer,
    frames: usize,
    gains: &mut [RouteGain; ROUTE_LINES],
    table: &GainTable,
)
    requires gain_table { IsGainTable table.now }
    requires scene_ok { SceneOk scene.now }
    requires mixer_fits_scene { MixerMixes scene.now mixer.now }
    ensures { chunk.new ≡ chunk_of scene.now frames mixer.now }
{
    put_played(chunk, scene, mixer, frames);
    chunk.track_count = scene.track_count;
    put_tracks(&mut chunk.tracks, scene, mixer);
    chunk.send_count = scene.send_count;
    put_sends(&mut chunk.sends, scene, mixer);
    chunk.route_count = scene.route_count;
    put_routes(&mut chunk.routes, scene, mixer, gains, table);
    chunk.sound_count = scene.sound_count;
    chunk.main = level_of(&mixer.main_volume);
}

// The same of a chunk alone.
pub fn put_chunk(chunk: &mut Chunk, scene: &Scene, mixer: &Mixer, frames: usize, table: &GainTable)
    requires gain_table { IsGainTable table.now }
    requires scene_ok { SceneOk scene.now }
    requires mixer_fits_scene { MixerMixes scene.now mixer.now }
    ensures { chunk.new ≡ chunk_of scene.now frames mixer.now }
{
    let mut gains = [RouteGain::new(table); ROUTE_LINES];
    put_next_chunk(chunk, scene, mixer, frames, &mut gains, table);
}

// The same as a new value, to be lent and laid anew for each chunk.
pub fn chunk_of(scene: &Scene, mixer: &Mixer, frames: usize, table: &GainTable) -> Chunk
    requires gain_table { IsGainTable table.now }
    requires scene_ok { SceneOk scene.now }
    requires mixer_fits_scene { MixerMixes scene.now mixer.now }
    ensures { result ≡ chunk_of scene.now frames mixer.now }
{
    let mut chunk = Chunk {
        frames,
        track_count: 0,
        tracks: [empty_track(); TRACK_PLACES],
        send_count: 0,
        sends: [empty_level(); SEND_LINES],
        route_count: 0,
        routes: [empty_route(); ROUTE_LINES],
        sound_count: 0,
        sounds: [empty_sound(); SOUND_LINES],
        main: empty_level(),
    };
    put_chunk(&mut chunk, scene, mixer, frames, table);
    chunk
}
