// The render program, over the bytes of scene.txt, samples.raw and visitor.raw.
ghost use Rattle.std.specs.Prelude.{◌≡◌, List, ℕ, ◌*◌, ◌/◌, ◌≤◌, length, take};
ghost use Rattle.recordings.specs.Recordings.{recordings};
ghost use Rattle.laws.specs.Pieces.{begun};
ghost use Rattle.scene_file.specs.Grammar.{tables_of};
ghost use Rattle.scene_questions.specs.Questions.{answer};
ghost use Rattle.scene.specs.Scene.{scene_of};
ghost use Rattle.renderer.specs.Renderer.{rendered};
ghost use Rattle.render_files.specs.Program.{samples_of, most, printed_output, printed, scene_bytes, sample_bytes, FirstOf, TextOf};

use crate::print::{LINE_BYTES, NAMES_BYTES, put_output};
use crate::samples::read_samples;
use limits::FILE_BYTES;
use text_output::put_refusal;

// The most whole samples, and the most samples of an output.
const MOST: usize = 8192;

// One byte more than question 1 allows, and the bytes of one sample more than question 12 allows: what longer files have behind
// those changes nothing (`first_bytes`).
pub const SCENE_BYTES: usize = FILE_BYTES + 1;

pub const SAMPLE_BYTES: usize = 4 * (MOST + 1);

// Bytes for all that can be printed: the names line and a line for each sample.
pub const TEXT: usize = NAMES_BYTES + MOST * LINE_BYTES;

// An accepted scene's output, rendered and put as text.
fn put_render<'a>(
    file: &[u8],
    samples: &'a [f32],
    visitor: &'a [f32],
    width: usize,
    count: usize,
    output: &mut [f32],
    text: &mut [u8; TEXT],
) -> usize
    requires width_not_zero { 1 ≤ width }
    requires room_for_output { (count ≤ most) × (count ≤ length output.old) }
    requires not_refused { answer file.now (recordings samples.now visitor.now) count ≡ 0 }
    ensures length { let heard = recordings samples.now visitor.now in
        result ≡ length (printed_output width (rendered (scene_of (tables_of file.now)) heard)) }
    ensures text { let heard = recordings samples.now visitor.now in
        text.new ≡ begun (printed_output width (rendered (scene_of (tables_of file.now)) heard)) text.old }
{
    room_desk::render(file, samples, visitor, &mut output[0..count]);
    put_output(text, width, &output[0..count])
}

// Questions 1 to 9, and question 12 of the output.
fn put_answer<'a>(
    file: &[u8],
    raw: &[u8],
    visitor_raw: &[u8],
    samples: &'a [f32],
    visitor: &'a [f32],
    output: &mut [f32],
    text: &mut [u8; TEXT],
) -> usize
    requires samples_fit { (length raw.now / 4 ≤ most) × (length visitor_raw.now / 4 ≤ most) }
    requires samples_of_raw { (samples.now ≡ samples_of raw.now) × (visitor.now ≡ samples_of visitor_raw.now) }
    requires room_for_output { most ≤ length output.old }
    ensures length { result ≡ length (printed file.now raw.now visitor_raw.now) }
    ensures text { text.new ≡ begun (printed file.now raw.now visitor_raw.now) text.old }
{
    let read = scene_reader::read_input(
        file,
        samples,
        visitor,
        raw.len() % 4 == 0,
        visitor_raw.len() % 4 == 0,
    );
    let number = read.number;
    if number != 0 {
        return put_refusal(text, number);
    }
    let scene = read.scene;
    let head = scene.head;
    let width = head.block * head.channels;
    let count = head.block * head.blocks * head.channels;
    if MOST < count {
        return put_refusal(text, 12);
    }
    put_render(file, samples, visitor, width, count, output, text)
}

// The samples are read into two buffers, and rendered into the third.
fn put_files(
    file: &[u8],
    raw: &[u8],
    visitor_raw: &[u8],
    samples: &mut [f32],
    visitor: &mut [f32],
    output: &mut [f32],
    text: &mut [u8; TEXT],
) -> usize
    requires room_for_samples { (length raw.now / 4 ≤ most) × (length raw.now / 4 ≤ length samples.old) }
    requires room_for_visitor { (length visitor_raw.now / 4 ≤ most) × (length visitor_raw.now / 4 ≤ length visitor.old) }
    requires room_for_output { most ≤ length output.old }
    ensures length { result ≡ length (printed file.now raw.now visitor_raw.now) }
    ensures text { text.new ≡ begun (printed file.now raw.now visitor_raw.now) text.old }
{
    let count = raw.len() / 4;
    let visiting = visitor_raw.len() / 4;
    read_samples(raw, &mut samples[0..count]);
    read_samples(visitor_raw, &mut visitor[0..visiting]);
    put_answer(
        file,
        raw,
        visitor_raw,
        &samples[0..count],
        &visitor[0..visiting],
        output,
        text,
    )
}

// Puts what the program prints for its three files to the start of the text, and answers how many bytes it has.
pub fn render_text(file: &[u8], raw: &[u8], visitor_raw: &[u8], text: &mut [u8; TEXT]) -> usize
    ensures length { result ≡ length (printed file.now raw.now visitor_raw.now) }
    ensures text { text.new ≡ begun (printed file.now raw.now visitor_raw.now) text.old }
    ensures within { (result ≤ length text.new) × (result ≡ length (take result text.new)) }
{
    if MOST < raw.len() / 4 {
        return put_refusal(text, 12);
    }
    if MOST < visitor_raw.len() / 4 {
        return put_refusal(text, 12);
    }
    let mut samples = [0.0f32; MOST];
    let mut visitor = [0.0f32; MOST];
    let mut output = [0.0f32; MOST];
    put_files(
        file,
        raw,
        visitor_raw,
        &mut samples,
        &mut visitor,
        &mut output,
        text,
    )
}

// The same from the first bytes of the files, as many as buffers of these sizes take: whatever else the files have, the text is theirs.
pub fn render_read(
    scene: &[u8],
    m: usize,
    samples: &[u8],
    n: usize,
    visitor: &[u8],
    v: usize,
    text: &mut [u8; TEXT],
) -> usize
    requires buffers_sized { (length scene.now ≡ scene_bytes) × (length samples.now ≡ sample_bytes) × (length visitor.now ≡ sample_bytes) }
    requires scene_prefix { (m ≤ length scene.now) × (m ≡ length (take m scene.now)) }
    requires samples_prefix { (n ≤ length samples.now) × (n ≡ length (take n samples.now)) }
    requires visitor_prefix { (v ≤ length visitor.now) × (v ≡ length (take v visitor.now)) }
    ensures text { (file raw visiting : List ℕ) → FirstOf file scene.now m → FirstOf raw samples.now n
        → FirstOf visiting visitor.now v → TextOf file raw visiting text.old result text.new }
    ensures within { (result ≤ length text.new) × (result ≡ length (take result text.new)) }
{
    render_text(&scene[..m], &samples[..n], &visitor[..v], text)
}
