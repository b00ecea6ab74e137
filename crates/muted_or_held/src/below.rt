// What stands below a track, of the numbers in their places.
ghost use Rattle.std.specs.Prelude.{◌≡◌, eqb};
ghost use Rattle.scene_tables.specs.Tables.{tracks};
ghost use Rattle.scene_questions.specs.Questions.{rows_at, parent_of};
ghost use Rattle.scene_questions.specs.Places.{stored, Low};
ghost use Rattle.noninterference.specs.Removed.{inside};

use scene_tables::{TABLES, TRACKS};

// The parent of a track line; lines count from 1, and 0 is the mixer.
pub fn parent_of(
    values: &[u32],
    starts: &[usize; TABLES],
    counts: &[usize; TABLES],
    line: usize,
) -> usize
    requires { Low starts.now counts.now }
    ensures { let ts = stored starts.now counts.now values.now in
        result ≡ parent_of (rows_at ts tracks) line }
{
    scene_questions::parent_of(values, starts[TRACKS], counts[TRACKS], line)
}

// Whether a line, counted from 1, is a track, counted from 0, or stands below it.
pub fn is_inside(
    values: &[u32],
    starts: &[usize; TABLES],
    counts: &[usize; TABLES],
    track: usize,
    line: usize,
) -> bool
    requires { Low starts.now counts.now }
    ensures { let ts = stored starts.now counts.now values.now in
        result ≡ inside ts (eqb track) line }
{
    let mut reached = line;
    for _ in 0..line {
        if reached == 0 {
            return false;
        }
        if track == reached - 1 {
            return true;
        }
        reached = parent_of(values, starts, counts, reached);
    }
    false
}
