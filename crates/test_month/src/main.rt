// Reads cases from standard input and prints what the month program prints for each. A case is three numbers of four bytes, the
// lowest first: how many bytes a piece has behind its first, the bytes of the lines, the bytes of the files; then the lines, and the
// files one after another, each behind its length in four bytes. Files that are left out are missing ones.
#![tactic(auto)]

ghost use Rattle.std.specs.Prelude.{◌≡◌, true, ◌++◌, ◌+◌, ◌*◌, ◌≤◌, ◌<◌, length, take, drop, IfSome};
ghost use Rattle.month.specs.Month.{most_mixes};
ghost use Rattle.month_reader.specs.Reading.{WithBytes, Reached};
ghost use Rattle.month_files.specs.Lines.{formed, channels_of, head_bytes};
ghost use Rattle.month_files.specs.Read.{Ended};

use month_files::{HEAD, Lines, TEXT};
use month_reader::Stream;
use std::io;

#[derive(Clone, Copy)]
struct Case<'a> {
    piece: usize,
    input: &'a [u8],
    files: &'a [u8],
}

fn first_case(input: &[u8]) -> Option<(Case<'_>, &[u8])>
    ensures { IfSome result (λ p. length p.1.now < length input.now) }
{
    let ([piece, lines, files], rest) = test_replay::first_numbers::<3>(input)?;
    let (input, rest) = rest.split_at_checked(lines as usize)?;
    let (files, rest) = rest.split_at_checked(files as usize)?;
    let piece = piece as usize;
    Some((
        Case {
            piece,
            input,
            files,
        },
        rest,
    ))
}

// The lines in two pieces.
fn lines_of(input: &[u8], piece: usize) -> Lines {
    let (first, rest) = input.split_at(input.len().min(piece));
    month_files::with_lines(
        month_files::with_lines(month_files::no_lines(), first),
        rest,
    )
}

// A mix in pieces.
fn hand_over(bytes: &[u8], piece: usize, stream: Stream) -> Stream
    requires { Reached stream }
    ensures { WithBytes stream bytes.now result }
{
    let mut all = stream;
    let mut at = 0;
    while at < bytes.len() {
        let end = at + 1 + piece.min(bytes.len() - at - 1);
        all = month_reader::with_piece(all, &bytes[at..end]);
        at = end;
    }
    all
}

// The first file, which its length stands in front of, and what stands behind it. There is none, which is an empty one, where there is
// no length.
fn first_file(files: &[u8]) -> (&[u8], &[u8])
    ensures within { length result.1.now ≤ length files.now }
    ensures parted { 4 ≤ length files.now → drop 4 files.now ≡ result.0.now ++ result.1.now }
{
    let Some((length, rest)) = files.split_first_chunk() else {
        return (&[], files);
    };
    rest.split_at(rest.len().min(u32::from_le_bytes(*length) as usize))
}

// Hands over mix i, counted from 0, to its end, and gives the files behind it.
fn hand_mix<'a>(
    head: &[u8],
    i: usize,
    files: &'a [u8],
    piece: usize,
    stream: &mut Stream,
) -> &'a [u8]
    requires head_holds_line { (formed head.now ≡ true) × (2 * i + 1 < length head.now) }
    requires earlier_mixes_read { (i < most_mixes) × Ended (take i (channels_of head.now)) stream.old }
    ensures { (length result.now ≤ length files.now) × Ended (take (i + 1) (channels_of head.now)) stream.new }
{
    let channels = month_files::channels_at(head, i);
    let (file, behind) = first_file(files);
    let whole = hand_over(file, piece, *stream);
    *stream = month_reader::with_end(whole, channels);
    behind
}

fn hand_mixes(head: &[u8], files: &[u8], piece: usize) -> Stream
    requires { (formed head.now ≡ true) × (length head.now ≤ head_bytes) }
{
    let mut all = month_reader::start();
    let mut rest = files;
    for i in 0..head.len() / 2 {
        rest = hand_mix(head, i, rest, piece, &mut all);
    }
    all
}

fn stream_of(head: &[u8], lines: Lines, files: &[u8], piece: usize) -> Stream
    requires { length head.now ≤ head_bytes }
{
    match month_files::questions(lines, head) {
        Ok(()) => hand_mixes(head, files, piece),
        Err(_) => month_reader::start(),
    }
}

fn print_case<R: Print>(rt: &R, case: Case<'_>) -> io::Result<()> {
    let n = case.input.len().min(HEAD);
    let head = &case.input[..n];
    let lines = lines_of(case.input, case.piece);
    let stream = stream_of(head, lines, case.files, case.piece);
    let mut text = [0u8; TEXT];
    let length = month_files::month_text(head, lines, stream, &mut text);
    rt.write_all(&text[..length])
}

fn main(rt: HostRuntime) -> io::Result<()> {
    let mut buffer = test_replay::buffer::<65536>();
    let n = first_bytes::read_full(&mut rt.stdin(), &mut buffer);
    test_replay::for_each_case(&buffer[..n], first_case, |case| print_case(&rt, case))
}
