// The sounds of a track.
ghost use Rattle.std.specs.Prelude.{◌≡◌, ◌-◌, ◌*◌, ◌≤◌, ◌<◌, length};
ghost use Rattle.limits.specs.Limits.{track_places};
ghost use Rattle.gain_table.specs.GainTable.{IsGainTable};
ghost use Rattle.frame.specs.Layout.{scratch, with_frames};
ghost use Rattle.spatial.specs.Spatial.{PlacingIn};
ghost use Rattle.chunk.specs.Chunk.{ChunkOk, LevelInRange, parts_of, sound_row};
ghost use Rattle.links.specs.Links.{last_line, line_before};
ghost use Rattle.sound.specs.Part.{remaining_part};
ghost use Rattle.track_volume.specs.TrackVolume.{track_placed_scaled};
ghost use Rattle.track_sounds.specs.Owners.{sound_links};
ghost use Rattle.track_sounds.specs.Sound.{with_sounds};

use chunk::{Chunk, ChunkTrack};
use gain_table::GainTable;
use last_sounds::add_last_sounds;
use level_amplitudes::Parts;
use links::{Links, last_line, line_before, lines_of};
use recordings::Recordings;
use sound::{add_sound, remaining};
use track_volume::apply_placing_and_volume;

// Adds the sounds of a track, latest line first. Track 0 is the main track.
pub fn add_sounds(to: &mut [f32], heard: &Recordings<'_>, chunk: &Chunk, links: &Links, line: usize)
    requires chunk_ok { ChunkOk chunk.now heard.now }
    requires sound_links { links.now ≡ sound_links chunk.now }
    requires room_for_frames { 2 * chunk.now.frames ≤ length to.old }
    requires line_in_range { line ≤ track_places }
    ensures { to.new ≡ with_frames (scratch 0 chunk.now.frames) (with_sounds chunk.now heard.now line) to.old }
{
    let frames = chunk.frames;
    for k in lines_of(links, line) {
        let part = part_of(heard, chunk, k);
        add_sound(to, part, frames);
    }
}

// What sound k, counted from 1, still has to play.
fn part_of<'a>(heard: &Recordings<'a>, chunk: &Chunk, k: usize) -> &'a [f32]
    requires chunk_ok { ChunkOk chunk.now heard.now }
    requires line_of_a_sound { (0 < k) × (k ≤ chunk.now.sound_count) }
    ensures { result.now ≡ remaining_part heard.now (sound_row chunk.now (k - 1)) }
{
    remaining(heard, chunk.sounds[k - 1])
}

// `add_sounds_and_scale` for a track of two sounds and more: the last two go with the scaling.
fn add_many_and_scale(
    to: &mut [f32],
    track: ChunkTrack,
    heard: &Recordings<'_>,
    chunk: &Chunk,
    parts: &Parts,
    table: &GainTable,
    links: &Links,
    line: usize,
)
    requires gain_table { IsGainTable table.now }
    requires chunk_ok { ChunkOk chunk.now heard.now }
    requires sound_links { links.now ≡ sound_links chunk.now }
    requires parts_of_the_chunk { parts.now ≡ parts_of chunk.now.frames }
    requires room_for_frames { 2 * chunk.now.frames ≤ length to.old }
    requires levels_in_range { LevelInRange track.volume × LevelInRange track.fade }
    requires placing_in_range { PlacingIn track.placing }
    requires line_in_range { line ≤ track_places }
    requires two_lines_or_more { (0 < last_line links.now line) × (0 < line_before links.now (last_line links.now line)) }
    ensures { to.new ≡ with_frames (scratch 0 chunk.now.frames) (track_placed_scaled track chunk.now.frames)
        (with_frames (scratch 0 chunk.now.frames) (with_sounds chunk.now heard.now line) to.old) }
{
    let frames = chunk.frames;
    let mut k = last_line(links, line);
    let mut next = line_before(links, k);
    let mut after = line_before(links, next);
    while 0 < after {
        let part = part_of(heard, chunk, k);
        add_sound(to, part, frames);
        k = next;
        next = after;
        after = line_before(links, next);
    }
    let first = part_of(heard, chunk, k);
    let second = part_of(heard, chunk, next);
    add_last_sounds(to, first, second, track, frames, parts, table);
}

// Adds the sounds of a track, latest line first, and then its placing and volume times fade scale
// each frame.
pub fn add_sounds_and_scale(
    to: &mut [f32],
    track: ChunkTrack,
    heard: &Recordings<'_>,
    chunk: &Chunk,
    parts: &Parts,
    table: &GainTable,
    links: &Links,
    line: usize,
)
    requires gain_table { IsGainTable table.now }
    requires chunk_ok { ChunkOk chunk.now heard.now }
    requires sound_links { links.now ≡ sound_links chunk.now }
    requires parts_of_the_chunk { parts.now ≡ parts_of chunk.now.frames }
    requires room_for_frames { 2 * chunk.now.frames ≤ length to.old }
    requires levels_in_range { LevelInRange track.volume × LevelInRange track.fade }
    requires placing_in_range { PlacingIn track.placing }
    requires line_in_range { line ≤ track_places }
    ensures { to.new ≡ with_frames (scratch 0 chunk.now.frames) (track_placed_scaled track chunk.now.frames)
        (with_frames (scratch 0 chunk.now.frames) (with_sounds chunk.now heard.now line) to.old) }
{
    let frames = chunk.frames;
    let last = last_line(links, line);
    if 0 < last {
        let next = line_before(links, last);
        if 0 < next {
            add_many_and_scale(to, track, heard, chunk, parts, table, links, line);
            return;
        }
    }
    add_sounds(to, heard, chunk, links, line);
    apply_placing_and_volume(to, track, frames, parts, table);
}
