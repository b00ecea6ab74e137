// Which tracks of a scene file are silent, or the refusal.
ghost use Rattle.std.specs.Prelude.{◌≡◌, true, cond, eqb, length};
ghost use Rattle.laws.specs.Loop.{changed};
ghost use Rattle.recordings.specs.Recordings.{recordings};
ghost use Rattle.scene_tables.specs.Tables.{tracks};
ghost use Rattle.scene_file.specs.Grammar.{tables_of};
ghost use Rattle.scene_questions.specs.Questions.{size_ok, spelled_ok, lines_at};
ghost use Rattle.silent_tracks.specs.Silence.{silence_of, silent_answer, silences_of};

use crate::tracks::put_silences;
use limits::FILE_BYTES;
use scene_file::read_tables;
use scene_reader::read_input;
use scene_tables::TRACKS;

// Numbers that a file can have: each takes two bytes or more.
const VALUES: usize = FILE_BYTES / 2 + 1;

// The last question, of a file that is well spelled, and the silences.
fn answer_tracks(file: &[u8], numbers: &mut [u32]) -> u32
    requires size_ok { size_ok file.now ≡ true }
    requires spelling_ok { spelled_ok file.now ≡ true }
    ensures number { result ≡ cond (eqb (length numbers.old) (lines_at (tables_of file.now) tracks)) 0 10 }
    ensures numbers { let ts = tables_of file.now in
        let before = numbers.old in
        numbers.new ≡ cond (eqb (length before) (lines_at ts tracks)) (changed (λ t z. silence_of ts t) (length before) before) before }
{
    let mut values = [0u32; VALUES];
    let layout = read_tables(file, &mut values);
    let starts = layout.starts;
    let counts = layout.counts;
    if numbers.len() != counts[TRACKS] {
        return 10;
    }
    put_silences(&values, &starts, &counts, numbers);
    0
}

// Returns 0 and writes each track's silence, or returns the number of the first question that says no
// and writes nothing.
pub fn silent<'a>(scene: &[u8], samples: &'a [f32], visitor: &'a [f32], tracks: &mut [u32]) -> u32
    ensures number { let heard = recordings samples.now visitor.now in
        result ≡ silent_answer scene.now heard (length tracks.old) }
    ensures tracks { let heard = recordings samples.now visitor.now in
        tracks.new ≡ silences_of scene.now heard tracks.old }
{
    let read = read_input(scene, samples, visitor, true, true);
    if read.number != 0 {
        return read.number;
    }
    answer_tracks(scene, tracks)
}
