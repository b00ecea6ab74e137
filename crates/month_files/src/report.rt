// What the program prints, from what was read of a month.
ghost use Rattle.std.specs.Prelude.{◌≡◌, List, ℕ, ◌≤◌, length, take};
ghost use Rattle.month_files.specs.Month.{WasRead, TextOf};

use crate::lines::{Lines, questions};
use crate::print::{TEXT, put_reading};
use month_reader::Stream;
use text_output::put_refusal;

// `head` has the first bytes of standard input, `lines` its lines, and `stream` the mixes, each in whatever pieces it was read. Where the
// lines are refused no mix need be read. The text is that of the whole input and of the whole files.
pub fn month_text(head: &[u8], lines: Lines, stream: Stream, text: &mut [u8; TEXT]) -> usize
    ensures text { (input : List ℕ) (files : List (List ℕ)) → WasRead input files head.now lines stream
        → TextOf input files text.old result text.new }
    ensures within { (result ≤ length text.new) × (result ≡ length (take result text.new)) }
{
    match questions(lines, head) {
        Ok(()) => put_reading(text, stream.reading),
        Err(refusal) => put_refusal(text, refusal.into()),
    }
}
