// What each track's silence is, of the numbers in their places.
ghost use Rattle.std.specs.Prelude.{◌≡◌, ◌<◌, ◌≤◌, length};
ghost use Rattle.laws.specs.Loop.{changed};
ghost use Rattle.scene_questions.specs.Places.{stored, Low, places_most};
ghost use Rattle.noninterference.specs.Removed.{inside};
ghost use Rattle.silent_tracks.specs.Silence.{muted_or_held, silence_of};

use muted_or_held::{is_held, is_muted, parent_of};
use scene_tables::TABLES;

fn is_muted_or_held(
    values: &[u32],
    starts: &[usize; TABLES],
    counts: &[usize; TABLES],
    track: usize,
) -> bool
    requires { Low starts.now counts.now }
    ensures { let ts = stored starts.now counts.now values.now in
        result ≡ muted_or_held ts track }
{
    if is_muted(values, starts, counts, track) {
        return true;
    }
    is_held(values, starts, counts, track)
}

// Whether a line, counted from 1, is muted or held, or stands below a track that is.
fn is_inside_silent(
    values: &[u32],
    starts: &[usize; TABLES],
    counts: &[usize; TABLES],
    line: usize,
) -> bool
    requires { Low starts.now counts.now }
    ensures { let ts = stored starts.now counts.now values.now in
        result ≡ inside ts (muted_or_held ts) line }
{
    let mut reached = line;
    for _ in 0..line {
        if reached == 0 {
            return false;
        }
        if is_muted_or_held(values, starts, counts, reached - 1) {
            return true;
        }
        reached = parent_of(values, starts, counts, reached);
    }
    false
}

// A track's silence; tracks count from 0.
fn silence_of(
    values: &[u32],
    starts: &[usize; TABLES],
    counts: &[usize; TABLES],
    track: usize,
) -> u32
    requires tables_in_range { Low starts.now counts.now }
    requires track_in_range { track < places_most }
    ensures { let ts = stored starts.now counts.now values.now in
        result ≡ silence_of ts track }
{
    if is_muted(values, starts, counts, track) {
        return 1;
    }
    if is_held(values, starts, counts, track) {
        return 2;
    }
    let parent = parent_of(values, starts, counts, track + 1);
    if is_inside_silent(values, starts, counts, parent) {
        return 3;
    }
    0
}

pub fn put_silences(
    values: &[u32],
    starts: &[usize; TABLES],
    counts: &[usize; TABLES],
    numbers: &mut [u32],
)
    requires tables_in_range { Low starts.now counts.now }
    requires numbers_fit { length numbers.old ≤ places_most }
    ensures { let ts = stored starts.now counts.now values.now in
        numbers.new ≡ changed (λ t before. silence_of ts t) (length numbers.old) numbers.old }
{
    for (t, number) in numbers.iter_mut().enumerate() {
        *number = silence_of(values, starts, counts, t);
    }
}
