// kira's `Mixer::process` and track/main.rs: the mix of a chunk.
ghost use Rattle.std.specs.Prelude.{◌≡◌, ◌*◌, ◌≤◌, length};
ghost use Rattle.gain_table.specs.GainTable.{IsGainTable};
ghost use Rattle.limits.specs.Limits.{track_depth};
ghost use Rattle.frame.specs.Layout.{scratch, with_frames};
ghost use Rattle.chunk.specs.Chunk.{ChunkOk, parts_of};
ghost use Rattle.track_sounds.specs.Owners.{Linked};
ghost use Rattle.track.specs.Sub.{with_sub_sends};
ghost use Rattle.track.specs.Mix.{mixed_set, tracks_set, with_send_tracks};
ghost use Rattle.send_track.specs.Send.{send_places, on_sends, SendsRunning};

use crate::sub;
use chunk::Chunk;
use frame::clear;
use gain_table::GainTable;
use level_amplitudes::Parts;
use limits::TRACK_DEPTH;
use links::lines_of;
use recordings::Recordings;
use send_track::{SEND_PART, add_send, apply_level, clear_sends};
use track_sounds::{ChunkLinks, add_sounds};

// Sets `out` to the sum of the tracks right under the mixer, latest line first.
fn process_tracks(
    chunk: &Chunk,
    links: &ChunkLinks,
    parts: &Parts,
    table: &GainTable,
    heard: &Recordings<'_>,
    out: &mut [f32],
    sends: &mut [f32],
)
    requires gain_table { IsGainTable table.now }
    requires chunk_ok { ChunkOk chunk.now heard.now }
    requires links_of_the_chunk { Linked chunk.now links.now }
    requires parts_of_the_chunk { parts.now ≡ parts_of chunk.now.frames }
    requires room_for_frames { 2 * chunk.now.frames ≤ length out.old }
    requires sends_sized { length sends.old ≡ send_places }
    requires sends_running { SendsRunning chunk.now sends.old }
    ensures frames { out.new ≡ with_frames (scratch 0 chunk.now.frames) (tracks_set chunk.now heard.now) out.old }
    ensures sends { sends.new ≡ on_sends chunk.now.frames (with_sub_sends track_depth chunk.now heard.now 0) sends.old }
{
    let frames = chunk.frames;
    clear(out, frames);
    for j in lines_of(&links.sub_tracks, 0) {
        sub::process(
            chunk,
            links,
            parts,
            table,
            heard,
            j,
            TRACK_DEPTH,
            out,
            sends,
        );
    }
}

// Adds the send tracks' scaled frames, latest line first. The count is read anew for each: of parts
// that are seen to come one before the other the compiler makes no vectors.
fn add_sends(
    chunk: &Chunk,
    parts: &Parts,
    table: &GainTable,
    heard: &Recordings<'_>,
    sends: &[f32],
    out: &mut [f32],
)
    requires gain_table { IsGainTable table.now }
    requires chunk_ok { ChunkOk chunk.now heard.now }
    requires parts_of_the_chunk { parts.now ≡ parts_of chunk.now.frames }
    requires room_for_frames { 2 * chunk.now.frames ≤ length out.old }
    requires sends_sized { length sends.now ≡ send_places }
    ensures { out.new ≡ with_frames (scratch 0 chunk.now.frames) (with_send_tracks chunk.now sends.now) out.old }
{
    let frames = chunk.frames;
    let count = chunk.send_count;
    for done in 0..count {
        let s = chunk.send_count - 1 - done;
        let level = chunk.sends[s];
        let first = s * SEND_PART;
        add_send(out, sends, first, level, frames, parts, table);
    }
}

// Sets `out` to the mix of the chunk: tracks, then send tracks, then the main track's sounds, and the
// main volume. `sends` is room for the send tracks' inputs: what it held does not matter.
pub fn process_flat(
    chunk: &Chunk,
    links: &ChunkLinks,
    parts: &Parts,
    table: &GainTable,
    heard: &Recordings<'_>,
    sends: &mut [f32],
    out: &mut [f32],
)
    requires gain_table { IsGainTable table.now }
    requires chunk_ok { ChunkOk chunk.now heard.now }
    requires links_of_the_chunk { Linked chunk.now links.now }
    requires parts_of_the_chunk { parts.now ≡ parts_of chunk.now.frames }
    requires room_for_frames { 2 * chunk.now.frames ≤ length out.old }
    requires sends_sized { length sends.old ≡ send_places }
    ensures { out.new ≡ with_frames (scratch 0 chunk.now.frames) (mixed_set chunk.now heard.now) out.old }
{
    let frames = chunk.frames;
    clear_sends(sends, chunk.send_count, frames);
    process_tracks(chunk, links, parts, table, heard, out, sends);
    add_sends(chunk, parts, table, heard, sends, out);
    add_sounds(out, heard, chunk, &links.sounds, 0);
    let main = chunk.main;
    apply_level(out, main, frames, parts, table);
}
