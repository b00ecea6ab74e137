// kira's track/sub.rs: a track's frames, and what it and the tracks below it add to the send tracks.
ghost use Rattle.std.specs.Prelude.{◌≡◌, ◌-◌, ◌*◌, ◌≤◌, ◌<◌, length};
ghost use Rattle.limits.specs.Limits.{track_places};
ghost use Rattle.gain_table.specs.GainTable.{IsGainTable};
ghost use Rattle.frame.specs.Frame.{added_from};
ghost use Rattle.frame.specs.Layout.{scratch, frame_at, with_frames};
ghost use Rattle.chunk.specs.Chunk.{ChunkOk, parts_of, track_row};
ghost use Rattle.links.specs.Links.{last_line, line_before};
ghost use Rattle.track_sounds.specs.Owners.{route_links, Linked};
ghost use Rattle.frame.specs.Running.{AllRunning, AllZero};
ghost use Rattle.track.specs.Sub.{track_frame, with_track_sends, with_sub_sends, sum_set, with_routes_from, track_placed_scaled};
ghost use Rattle.send_track.specs.Send.{send_places, on_sends, SendsRunning};

use chunk::{Chunk, ChunkTrack};
use frame::{add_frames, add_scaled, add_to_both, add_to_three};
use gain_table::GainTable;
use level_amplitudes::Parts;
use limits::CHUNK_FRAMES;
use links::{Links, last_line, line_before, lines_of};
use recordings::Recordings;
use send_track::SEND_PART;
use track_sounds::{ChunkLinks, add_sounds_and_scale};
use track_volume::FEW;

// What a chunk's frames are mixed in.
pub const SCRATCH: usize = 2 * CHUNK_FRAMES;

// `hand_on` for a track of two routes and more: the last two and the sum take one pass.
fn hand_on_many(
    to: &mut [f32],
    sends: &mut [f32],
    out: &[f32],
    chunk: &Chunk,
    heard: &Recordings<'_>,
    links: &Links,
    line: usize,
)
    requires chunk_ok { ChunkOk chunk.now heard.now }
    requires route_links { links.now ≡ route_links chunk.now }
    requires room_for_frames { 2 * chunk.now.frames ≤ length to.old }
    requires frames_to_add { 2 * chunk.now.frames ≤ length out.now }
    requires sends_sized { length sends.old ≡ send_places }
    requires line_in_range { line ≤ track_places }
    requires two_lines_or_more { (0 < last_line links.now line) × (0 < line_before links.now (last_line links.now line)) }
    ensures sum { to.new ≡ with_frames (scratch 0 chunk.now.frames) (added_from (frame_at (scratch 0 chunk.now.frames) out.now)) to.old }
    ensures sends { sends.new ≡ on_sends chunk.now.frames (with_routes_from chunk.now line (frame_at (scratch 0 chunk.now.frames) out.now)) sends.old }
{
    let frames = chunk.frames;
    let count = chunk.route_count;
    let mut r = last_line(links, line);
    let mut next = line_before(links, r);
    let mut after = line_before(links, next);
    while 0 < after {
        let route = chunk.routes[count - r];
        let first = (route.send - 1) * SEND_PART;
        let amplitude = route.amplitude;
        add_scaled(sends, first, out, frames, amplitude);
        r = next;
        next = after;
        after = line_before(links, next);
    }
    let route = chunk.routes[count - r];
    let other = chunk.routes[count - next];
    let first = (route.send - 1) * SEND_PART;
    let second = (other.send - 1) * SEND_PART;
    let amplitude = route.amplitude;
    let then = other.amplitude;
    add_to_three(to, sends, first, second, out, frames, amplitude, then);
}

// Adds the scaled frames `out` onto the sum `to`, and to the send tracks that the track is routed to,
// first line first.
fn hand_on(
    to: &mut [f32],
    sends: &mut [f32],
    out: &[f32],
    chunk: &Chunk,
    heard: &Recordings<'_>,
    links: &Links,
    line: usize,
)
    requires chunk_ok { ChunkOk chunk.now heard.now }
    requires route_links { links.now ≡ route_links chunk.now }
    requires room_for_frames { 2 * chunk.now.frames ≤ length to.old }
    requires frames_to_add { 2 * chunk.now.frames ≤ length out.now }
    requires sends_sized { length sends.old ≡ send_places }
    requires line_in_range { line ≤ track_places }
    ensures sum { to.new ≡ with_frames (scratch 0 chunk.now.frames) (added_from (frame_at (scratch 0 chunk.now.frames) out.now)) to.old }
    ensures sends { sends.new ≡ on_sends chunk.now.frames (with_routes_from chunk.now line (frame_at (scratch 0 chunk.now.frames) out.now)) sends.old }
{
    let frames = chunk.frames;
    let count = chunk.route_count;
    let last = last_line(links, line);
    if last == 0 {
        add_frames(to, out, frames);
        return;
    }
    let next = line_before(links, last);
    if 0 < next {
        hand_on_many(to, sends, out, chunk, heard, links, line);
        return;
    }
    let route = chunk.routes[count - last];
    let first = (route.send - 1) * SEND_PART;
    let amplitude = route.amplitude;
    add_to_both(to, sends, first, out, frames, amplitude);
}

// Leaves in `out`, whose frames are zeros, the frames of track `line`, counted from 1, and adds to the
// send tracks what the tracks below it send. `depth` is how many levels of tracks are left below it.
// Tracks that nothing is heard from have no links, and are not looked at (`sub_track_links`).
#[cycle(gather_process)]
fn gather(
    chunk: &Chunk,
    links: &ChunkLinks,
    parts: &Parts,
    table: &GainTable,
    heard: &Recordings<'_>,
    line: usize,
    depth: usize,
    track: ChunkTrack,
    out: &mut [f32],
    sends: &mut [f32],
)
    requires gain_table { IsGainTable table.now }
    requires chunk_ok { ChunkOk chunk.now heard.now }
    requires links_of_the_chunk { Linked chunk.now links.now }
    requires parts_of_the_chunk { parts.now ≡ parts_of chunk.now.frames }
    requires line_of_a_track { (1 ≤ line) × (line ≤ chunk.now.track_count) }
    requires room_for_frames { 2 * chunk.now.frames ≤ length out.old }
    requires sends_sized { length sends.old ≡ send_places }
    requires all_zero { AllZero chunk.now.frames out.old }
    requires track_of_the_line { track ≡ track_row chunk.now (line - 1) }
    requires sends_running { SendsRunning chunk.now sends.old }
    ensures sum { out.new ≡ with_frames (scratch 0 chunk.now.frames) (track_placed_scaled track chunk.now.frames)
        (with_frames (scratch 0 chunk.now.frames) (sum_set depth chunk.now heard.now line) out.old) }
    ensures sends { sends.new ≡ on_sends chunk.now.frames (with_sub_sends depth chunk.now heard.now line) sends.old }
{
    for j in lines_of(&links.sub_tracks, line) {
        process(chunk, links, parts, table, heard, j, depth, out, sends);
    }
    add_sounds_and_scale(out, track, heard, chunk, parts, table, &links.sounds, line);
}

// Adds the frames of track `line`, counted from 1, onto the sum `to`, and to the send tracks what it
// and the tracks below it send: its frames are gathered, and handed on. `depth` is how many levels of
// tracks are left. The sum and the send tracks' inputs began at +0.0: they are never -0.0, so that a
// track which stands still, or has no link, need not add its zeros.
#[cycle(gather_process)]
pub fn process(
    chunk: &Chunk,
    links: &ChunkLinks,
    parts: &Parts,
    table: &GainTable,
    heard: &Recordings<'_>,
    line: usize,
    depth: usize,
    to: &mut [f32],
    sends: &mut [f32],
)
    requires gain_table { IsGainTable table.now }
    requires chunk_ok { ChunkOk chunk.now heard.now }
    requires links_of_the_chunk { Linked chunk.now links.now }
    requires parts_of_the_chunk { parts.now ≡ parts_of chunk.now.frames }
    requires line_of_a_track { (1 ≤ line) × (line ≤ chunk.now.track_count) }
    requires room_for_frames { 2 * chunk.now.frames ≤ length to.old }
    requires sends_sized { length sends.old ≡ send_places }
    requires frames_running { AllRunning chunk.now.frames to.old }
    requires sends_running { SendsRunning chunk.now sends.old }
    ensures frames { to.new ≡ with_frames (scratch 0 chunk.now.frames) (added_from (track_frame depth chunk.now heard.now line)) to.old }
    ensures sends { sends.new ≡ on_sends chunk.now.frames (with_track_sends depth chunk.now heard.now line) sends.old }
{
    let track = chunk.tracks[line - 1];
    if depth == 0 {
        return;
    }
    if !track.advancing {
        return;
    }
    // Of few frames the sum is short: a long one would cost more to clear than they do.
    if chunk.frames < FEW {
        let mut out = [0.0f32; 2 * FEW];
        gather(
            chunk,
            links,
            parts,
            table,
            heard,
            line,
            depth - 1,
            track,
            &mut out,
            sends,
        );
        hand_on(to, sends, &out, chunk, heard, &links.routes, line);
        return;
    }
    let mut out = [0.0f32; SCRATCH];
    gather(
        chunk,
        links,
        parts,
        table,
        heard,
        line,
        depth - 1,
        track,
        &mut out,
        sends,
    );
    hand_on(to, sends, &out, chunk, heard, &links.routes, line);
}
