// A chunk is an identifier of four bytes, a size of four, so many bytes, and behind an odd size a pad
// byte, if the file has one. The file begins with one that holds the others: its identifier, a size that
// nobody asks about, and what form it has.
ghost use Rattle.std.specs.Prelude.{◌≡◌, ◌+◌, ◌≤◌, length};
ghost use Rattle.iff_chunks.specs.Chunks.{is_form, noted, walk_of};

use byte_order::{ByteOrder, number4_at};

// Where the chunks begin.
const HEAD: usize = 12;
// An identifier and a size.
const HEADER: usize = 8;

// Where the first chunk of each of two identifiers begins, and whether the chunks fill the file to its end.
#[derive(Clone, Copy, PartialEq, Eq, Debug)]
pub struct Chunks {
    pub first: Option<usize>,
    pub second: Option<usize>,
    pub whole: bool,
}

// An identifier is compared as a number, its first letter the highest byte.
pub fn is_form(file: &[u8], outer: u32, form: u32) -> bool
    ensures { result ≡ is_form file.now outer form }
{
    if file.len() < HEAD {
        return false;
    }
    if number4_at(file, 0, ByteOrder::Big) != outer {
        return false;
    }
    number4_at(file, 8, ByteOrder::Big) == form
}

// The first place that is noted stays.
#[tactic(auto, unfolding(crate::specs::Chunks::noted))]
fn noted(place: Option<usize>, identifier: u32, wanted: u32, at: usize) -> Option<usize>
    ensures { result ≡ noted place identifier wanted at }
{
    match place {
        None if identifier == wanted => Some(at),
        _ => place,
    }
}

pub fn walk(file: &[u8], order: ByteOrder, a: u32, b: u32) -> Chunks
    ensures { result ≡ walk_of order a b file.now }
{
    let mut first = None;
    let mut second = None;
    let mut at = HEAD;
    while at < file.len() {
        if file.len() - at < HEADER {
            return Chunks {
                first,
                second,
                whole: false,
            };
        }
        let identifier = number4_at(file, at, ByteOrder::Big);
        let size = number4_at(file, at + 4, order) as usize;
        first = noted(first, identifier, a, at);
        second = noted(second, identifier, b, at);
        if file.len() - at - HEADER < size {
            return Chunks {
                first,
                second,
                whole: false,
            };
        }
        at = at + HEADER + size + size % 2;
    }
    Chunks {
        first,
        second,
        whole: true,
    }
}
