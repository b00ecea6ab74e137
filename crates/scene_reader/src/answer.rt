// The answer to a file, its samples and an output's length.
ghost use Rattle.std.specs.Prelude.{◌≡◌, ◌&&◌, ◌+◌, ◌*◌, ◌≤◌};
ghost use Rattle.limits.specs.Limits.{block_frames_most, blocks_most, channels_most};
ghost use Rattle.recordings.specs.Recordings.{recordings};
ghost use Rattle.scene_tables.specs.Tables.{table_at, width, sounds, head_column};
ghost use Rattle.scene_questions.specs.Questions.{head_cell, sounds_fit, first_no, answer};
ghost use Rattle.scene_questions.specs.Places.{rows_in, stored, places_most, Low};
ghost use Rattle.scene_reader.specs.Answer.{read_table_questions, read_questions, number, number_of, said, refusal, answered};

use limits::FILE_BYTES;
use recordings::{HOUSE, VISITOR};
use scene::{Head, Scene, no_scene, scene_of};
use scene_file::{at, read_tables};
use scene_questions::{depths_fit, placings_fit, routes_fit, samples_ok, size_ok, sounds_fit};
use scene_rules::{counts_fit, tables_pass};
use scene_tables::{HEAD, PLACINGS, ROUTES, SOUNDS, TABLES, TRACKS, column};

// Numbers that a file can have: each takes two bytes or more.
const VALUES: usize = FILE_BYTES / 2 + 1;

// The question that says no, by its number. Question 7 is asked of the routes, then of the placings, and
// 8 and 9 each of the house's samples, then of the visitor's.
#[derive(Clone, Copy, PartialEq, Eq, Debug)]
pub enum Question {
    Size = 1,
    Spelling = 2,
    Lines = 3,
    Ranges = 4,
    References = 5,
    Depths = 6,
    Twice = 7,
    Sounds = 8,
    Samples = 9,
    Output = 10,
}

impl From<Question> for u32 {
    ghost from_gives = { λ question n. n ≡ number question };

    fn from(question: Question) -> u32 {
        question as u32
    }
}

// The number of the first question that says no, and the scene where it is 0.
#[derive(Clone, Copy)]
pub struct Answer {
    pub number: u32,
    pub scene: Scene,
}

// How many blocks the head line says; 0 where there is none.
fn blocks_of(values: &[u32], starts: &[usize; TABLES], counts: &[usize; TABLES]) -> u32
    ensures { result ≡ head_cell (stored starts.now counts.now values.now) head_column.blocks }
{
    if counts[HEAD] == 0 {
        return 0;
    }
    at(values, starts[HEAD], column::HEAD_BLOCKS)
}

// Question 8 of one buffer, and whether its samples are whole.
fn sounds_pass(
    whole: bool,
    values: &[u32],
    start: usize,
    lines: usize,
    from: usize,
    samples: &[f32],
) -> bool
    requires { start + lines * width (table_at sounds) ≤ places_most }
    ensures { result ≡ (whole && sounds_fit (rows_in values.now start (width (table_at sounds)) lines) from samples.now) }
{
    if whole {
        return sounds_fit(values, start, lines, from, samples);
    }
    false
}

fn ask(yes: bool, question: Question) -> Result<(), Question>
    ensures { result ≡ said yes question }
{
    if yes { Ok(()) } else { Err(question) }
}

// The questions that are asked of the tables, in their order.
fn ask_tables<'a>(
    values: &[u32],
    starts: &[usize; TABLES],
    counts: &[usize; TABLES],
    samples: &'a [f32],
    visitor: &'a [f32],
    whole: bool,
    visitor_whole: bool,
) -> Result<(), Question>
    requires { Low starts.now counts.now }
    ensures { let tables = stored starts.now counts.now values.now in
        let heard = recordings samples.now visitor.now in
        number_of result ≡ first_no (read_table_questions tables heard whole visitor_whole) }
{
    let blocks = blocks_of(values, starts, counts);
    let sounds = starts[SOUNDS];
    let lines = counts[SOUNDS];
    ask(counts_fit(counts), Question::Lines)?;
    ask(
        tables_pass(false, values, starts, counts, blocks),
        Question::Ranges,
    )?;
    ask(
        tables_pass(true, values, starts, counts, 0),
        Question::References,
    )?;
    ask(
        depths_fit(values, starts[TRACKS], counts[TRACKS]),
        Question::Depths,
    )?;
    ask(
        routes_fit(values, starts[ROUTES], counts[ROUTES]),
        Question::Twice,
    )?;
    ask(
        placings_fit(values, starts[PLACINGS], counts[PLACINGS]),
        Question::Twice,
    )?;
    ask(
        sounds_pass(whole, values, sounds, lines, HOUSE, samples),
        Question::Sounds,
    )?;
    ask(
        sounds_pass(visitor_whole, values, sounds, lines, VISITOR, visitor),
        Question::Sounds,
    )?;
    ask(samples_ok(samples), Question::Samples)?;
    ask(samples_ok(visitor), Question::Samples)
}

fn refused(question: Question) -> Answer
    ensures { result ≡ refusal (number question) }
{
    let scene = no_scene();
    Answer {
        number: question.into(),
        scene,
    }
}

// Questions 1 to 9, of samples that may have been cut short. The scene where none says no.
pub fn read_input<'a>(
    file: &[u8],
    samples: &'a [f32],
    visitor: &'a [f32],
    whole: bool,
    visitor_whole: bool,
) -> Answer
    ensures { let heard = recordings samples.now visitor.now in
        result ≡ answered file.now (first_no (read_questions file.now heard whole visitor_whole)) }
{
    if !size_ok(file) {
        return refused(Question::Size);
    }
    let mut values = [0u32; VALUES];
    let layout = read_tables(file, &mut values);
    if !layout.ok {
        return refused(Question::Spelling);
    }
    let starts = layout.starts;
    let counts = layout.counts;
    let asked = ask_tables(
        &values,
        &starts,
        &counts,
        samples,
        visitor,
        whole,
        visitor_whole,
    );
    if let Err(question) = asked {
        return refused(question);
    }
    let scene = scene_of(&values, &starts, &counts);
    Answer { number: 0, scene }
}

// The output's length that question 10 asks for.
fn output_length(head: Head) -> usize
    requires block_in_range { head.block ≤ block_frames_most }
    requires blocks_in_range { head.blocks ≤ blocks_most }
    requires channels_in_range { head.channels ≤ channels_most }
    ensures { result ≡ head.block * head.blocks * head.channels }
{
    head.block * head.blocks * head.channels
}

// The number of the first question that says no, or 0 and the scene.
pub fn read_scene<'a>(file: &[u8], samples: &'a [f32], visitor: &'a [f32], output: usize) -> Answer
    ensures { let heard = recordings samples.now visitor.now in
        result ≡ answered file.now (answer file.now heard output) }
{
    let answer = read_input(file, samples, visitor, true, true);
    if answer.number != 0 {
        return answer;
    }
    let head = answer.scene.head;
    if output == output_length(head) {
        return answer;
    }
    refused(Question::Output)
}
