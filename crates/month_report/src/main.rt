// Reads standard input and the mixes, and prints the month's totals or the refusal. What is printed is said in `month_files`
// (`month_text`); here it is only read and written.
#![tactic(auto)]

ghost use Rattle.std.specs.Prelude.{◌≡◌, true, ◌+◌, ◌*◌, ◌≤◌, ◌<◌, length, take};
ghost use Rattle.month.specs.Month.{most_mixes};
ghost use Rattle.month_reader.specs.Reading.{WithBytes, Reached};
ghost use Rattle.month_files.specs.Lines.{lines_from, formed, channels_of, head_bytes, lines_number};
ghost use Rattle.month_files.specs.Read.{MoreLines, AllLines, Further, Ended, TextOfRead};

use month::MOST_SAMPLES;
use month_files::{HEAD, Lines, NAME, TEXT};
use month_reader::Stream;
use std::env::FillError;
use std::fs::File;
use std::io;
use std::io::{IsTerminal, Read};
use std::rt::{Env, Files};

// Bytes of one read.
const PIECE: usize = 65536;

// Reads of a mix that find something: as many as one sample more than it may have has bytes.
const MOST_READS: u64 = 4 * (MOST_SAMPLES + 1);

// ---- standard input

// Adds the lines of one read, and answers how many bytes it gave.
fn read_lines<I: Read>(input: &mut I, buffer: &mut [u8], lines: &mut Lines) -> usize
    ensures { lines.new ≡ lines_from lines.old (take result buffer.new) }
{
    let n = first_bytes::read_full(input, buffer);
    *lines = month_files::with_lines(*lines, &buffer[..n]);
    n
}

// The rest of standard input, in as many reads as no run uses up.
fn rest_lines<I: Read>(input: &mut I, buffer: &mut [u8], lines: Lines) -> Lines
    ensures { MoreLines lines result }
{
    let mut all = lines;
    for _ in 0..u64::MAX {
        if read_lines(input, buffer, &mut all) == 0 {
            break;
        }
    }
    all
}

// The lines of all of standard input, whose first bytes were read; there are more where those are as many as fit.
fn all_lines<I: Read>(input: &mut I, head: &[u8], buffer: &mut [u8]) -> Lines
    requires { length head.now ≤ head_bytes }
    ensures { AllLines head.now result }
{
    let first = month_files::with_lines(month_files::no_lines(), head);
    if head.len() < HEAD {
        return first;
    }
    rest_lines(input, buffer, first)
}

// ---- mixes

// Adds the bytes of one read, and answers how many it gave.
fn read_piece<F: Read>(file: &mut F, buffer: &mut [u8], stream: &mut Stream) -> usize
    requires { Reached stream.old }
    ensures { WithBytes stream.old (take result buffer.new) stream.new }
{
    let n = file.read(buffer).unwrap_or(0);
    *stream = month_reader::with_piece(*stream, &buffer[..n]);
    n
}

// A mix that is refused already need not be read on.
fn is_refused(stream: Stream) -> bool {
    stream.reading.number == 26
}

fn read_pieces<F: Read>(file: &mut F, buffer: &mut [u8], stream: Stream) -> Stream
    requires { Reached stream }
    ensures { Further stream result }
{
    let mut all = stream;
    for _ in 0..MOST_READS {
        if read_piece(file, buffer, &mut all) == 0 || is_refused(all) {
            break;
        }
    }
    all
}

// A file that does not open counts as empty.
fn read_mix<R: Files>(rt: &R, mix: u64, buffer: &mut [u8], stream: Stream) -> Stream
    requires { Reached stream }
    ensures { Further stream result }
{
    if is_refused(stream) {
        return stream;
    }
    let mut name = [0u8; NAME];
    let length = month_files::mix_name(&mut name, mix);
    let path = str::from_utf8(&name[..length]).unwrap();
    match File::open(rt, path) {
        Ok(mut file) => read_pieces(&mut file, buffer, stream),
        Err(_) => stream,
    }
}

// Reads mix i, counted from 0, to its end.
fn read_whole<R: Files>(rt: &R, head: &[u8], i: usize, buffer: &mut [u8], stream: Stream) -> Stream
    requires head_holds_line { (formed head.now ≡ true) × (2 * i + 1 < length head.now) }
    requires earlier_mixes_read { (i < most_mixes) × Ended (take i (channels_of head.now)) stream }
    ensures { Ended (take (i + 1) (channels_of head.now)) result }
{
    let channels = month_files::channels_at(head, i);
    let read = read_mix(rt, i as u64 + 1, buffer, stream);
    month_reader::with_end(read, channels)
}

fn show_progress<R: Eprint>(rt: &R, asked: bool, mix: u64, mixes: u64) {
    if !asked {
        return;
    }
    let _ = eprintln!(rt; "{mix} of {mixes}");
}

fn read_mixes<R: Files + Eprint>(rt: &R, head: &[u8], buffer: &mut [u8], asked: bool) -> Stream
    requires { (formed head.now ≡ true) × (length head.now ≤ head_bytes) }
    ensures { Ended (channels_of head.now) result }
{
    let mixes = head.len() / 2;
    let mut all = month_reader::start();
    for i in 0..mixes {
        all = read_whole(rt, head, i, buffer, all);
        show_progress(rt, asked, i as u64 + 1, mixes as u64);
    }
    all
}

// Of lines that are refused no mix is read.
fn read_month<R: Files + Eprint>(
    rt: &R,
    head: &[u8],
    lines: Lines,
    buffer: &mut [u8],
    asked: bool,
) -> Stream
    requires { length head.now ≤ head_bytes }
    ensures { lines_number lines head.now ≡ 0 → Ended (channels_of head.now) result }
{
    match month_files::questions(lines, head) {
        Ok(()) => read_mixes(rt, head, buffer, asked),
        Err(_) => month_reader::start(),
    }
}

// ---- the report

// Puts the text of what it reads, and answers how many bytes it has.
fn report<R: Files + Eprint, I: Read>(
    rt: &R,
    input: &mut I,
    head: &mut [u8],
    buffer: &mut [u8],
    text: &mut [u8; TEXT],
    asked: bool,
) -> usize
    requires { length head.old ≡ head_bytes }
    ensures text { TextOfRead head.new text.old result text.new }
    ensures within { (result ≤ length text.new) × (result ≡ length (take result text.new)) }
{
    let n = first_bytes::read_full(input, head);
    let lines = all_lines(input, &head[..n], buffer);
    let stream = read_month(rt, &head[..n], lines, buffer, asked);
    month_files::month_text(&head[..n], lines, stream, text)
}

// Progress is told where standard error is a terminal, or where the program has an argument.
fn progress_asked<R: Env>(rt: &R, is_terminal: bool) -> bool {
    is_terminal || !matches!(rt.arg(1, &mut []), Err(FillError::NotPresent))
}

fn main(rt: HostRuntime) -> io::Result<()> {
    let mut head = [0u8; HEAD];
    let mut buffer = [0u8; PIECE];
    let mut text = [0u8; TEXT];
    let asked = progress_asked(&rt, rt.stderr().is_terminal());
    let length = report(
        &rt,
        &mut rt.stdin(),
        &mut head,
        &mut buffer,
        &mut text,
        asked,
    );
    rt.write_all(&text[..length])
}
