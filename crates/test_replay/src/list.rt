// A list's file, its rows, and what is said of it.
ghost use Rattle.std.specs.Prelude.{◌≡◌, ◌≤◌, ◌<◌, length, take, IfSome};

use crate::text::{is_row, line_length};
use std::io;
use std::rt::Files;

// Room for a list or for cases. The `ensures` gives only the length, which lending the array as a slice needs.
pub fn buffer<const N: usize>() -> [u8; N]
    ensures { N ≡ length result }
{
    [0; N]
}

// Reads a list to the start of the buffer, and answers how many bytes it has. A file that does not
// open has none, and one that is too long is cut: either shows in the report's count. Files are
// opened by names that are text, so a path that is none does not open.
pub fn read<R: Files + Eprint>(rt: &R, path: &[u8], buffer: &mut [u8]) -> usize
    ensures { (result ≤ length buffer.new) × (result ≡ length (take result buffer.new)) }
{
    let Ok(path) = str::from_utf8(path) else {
        let _ = eprintln!(rt; "a path is not text");
        return 0;
    };
    match first_bytes::read_file(rt, path, buffer) {
        Ok(n) => n,
        Err(error) => {
            let _ = eprintln!(rt; "{path}: {error}");
            0
        }
    }
}

// How many rows were checked, and how many of them were wrong.
#[derive(Clone, Copy, PartialEq, Eq, Debug)]
pub struct Tally {
    pub checked: u64,
    pub wrong: u64,
}

// The first line of a text, and what stands behind it.
fn first_line(text: &[u8]) -> Option<(&[u8], &[u8])>
    ensures { IfSome result (λ p. length p.1.now < length text.now) }
{
    if text.is_empty() {
        return None;
    }
    let (line, rest) = text.split_at(line_length(text));
    Some((line, rest.get(1..).unwrap_or(&[])))
}

// Asks `answer` of each row. It says whether the row is right, or nothing of one that only prepares others.
pub fn count_rows<F: FnMut(&[u8]) -> Option<bool>>(text: &[u8], mut answer: F) -> Tally
    requires { F.IsAlwaysCallable answer }
{
    let mut checked = 0;
    let mut wrong = 0;
    let mut rest = text;
    while let Some((line, behind)) = first_line(rest) {
        rest = behind;
        if is_row(line) {
            if let Some(right) = answer(line) {
                checked += 1;
                wrong += u64::from(!right);
            }
        }
    }
    Tally { checked, wrong }
}

// Reads a list into the buffer, asks `answer` of each row, and reports how many were wrong.
pub fn run_list<R: Files + Eprint + Print, F: FnMut(&[u8]) -> Option<bool>>(
    rt: &R,
    name: &[u8],
    path: &[u8],
    buffer: &mut [u8],
    answer: F,
) -> io::Result<()>
    requires { F.IsAlwaysCallable answer }
{
    let n = read(rt, path, buffer);
    let tally = count_rows(&buffer[..n], answer);
    report(rt, name, tally.checked, tally.wrong)
}

// One line: `NAME CHECKED checked WRONG wrong`.
pub fn report<R: Print>(rt: &R, name: &[u8], checked: u64, wrong: u64) -> io::Result<()> {
    rt.write_all(name)?;
    println!(rt; " {checked} checked {wrong} wrong")
}
