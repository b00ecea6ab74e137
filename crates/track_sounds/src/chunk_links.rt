// The links of a chunk's tracks, sounds and routes. A track has links where it is mixed: where a sound is
// on it, or on one below it. The frames of any other are zeros, and a sum that began at +0.0 stays as it
// is where zeros are added, a send track's input too.
ghost use Rattle.std.specs.Prelude.{◌≡◌, ℕ, ◌-◌, ◌≤◌, ◌<◌};
ghost use Rattle.limits.specs.Limits.{track_places, route_lines, sound_lines};
ghost use Rattle.links.specs.Marks.{is_marked, used_owner};
ghost use Rattle.chunk.specs.Chunk.{track_row};
ghost use Rattle.track_sounds.specs.Owners.{used_links, sound_links, route_links, Linked};

use chunk::Chunk;
use links::{Links, Marks, OWNERS, links_of, mark_above, mark_owners};

#[derive(Drop)]
pub struct ChunkLinks {
    pub sub_tracks: Links,
    pub sounds: Links,
    pub routes: Links,
}

// The parent of a track that is mixed. Any other gets a number that is no owner.
fn used_parent(chunk: &Chunk, marks: &Marks, j: usize) -> usize
    requires { j < track_places }
    ensures { result ≡ used_owner (is_marked marks.now) (λ i. (track_row chunk.now i).parent) j }
{
    if marks[j + 1] == 1 {
        chunk.tracks[j].parent
    } else {
        OWNERS
    }
}

// The links of the tracks that are mixed: those that a sound is on, and those above them.
fn sub_track_links(chunk: &Chunk) -> Links
    requires tracks_and_sounds_fit { (chunk.now.track_count ≤ track_places) × (chunk.now.sound_count ≤ sound_lines) }
    requires parents_earlier { (j : ℕ) → j < chunk.now.track_count → (track_row chunk.now j).parent ≤ j }
    ensures { result ≡ used_links chunk.now }
{
    let mut marks = [0usize; OWNERS];
    mark_owners(chunk.sound_count, |k| chunk.sounds[k].track, &mut marks);
    mark_above(chunk.track_count, |j| chunk.tracks[j].parent, &mut marks);
    links_of(chunk.track_count, |j| used_parent(chunk, &marks, j))
}

fn sound_links(chunk: &Chunk) -> Links
    requires { chunk.now.sound_count ≤ sound_lines }
    ensures { result ≡ sound_links chunk.now }
{
    links_of(chunk.sound_count, |k| chunk.sounds[k].track)
}

// Counted from the end: a track's routes are followed first line first.
fn route_links(chunk: &Chunk) -> Links
    requires { chunk.now.route_count ≤ route_lines }
    ensures { result ≡ route_links chunk.now }
{
    let count = chunk.route_count;
    links_of(count, |k| chunk.routes[count - (k + 1)].track)
}

impl ChunkLinks {
    pub fn new(chunk: &Chunk) -> ChunkLinks
        requires lines_fit { (chunk.now.track_count ≤ track_places) × (chunk.now.sound_count ≤ sound_lines) × (chunk.now.route_count ≤ route_lines) }
        requires parents_earlier { (j : ℕ) → j < chunk.now.track_count → (track_row chunk.now j).parent ≤ j }
        ensures linked { Linked chunk.now result }
        ensures heard_alone { result.sub_tracks ≡ used_links chunk.now }
    {
        ChunkLinks {
            sub_tracks: sub_track_links(chunk),
            sounds: sound_links(chunk),
            routes: route_links(chunk),
        }
    }
}
