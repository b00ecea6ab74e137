// Standard input: a line for each mix, its channels.
ghost use Rattle.std.specs.Prelude.{◌≡◌, Bool, true, not, ◌&&◌, ◌+◌, ◌*◌, ◌≤◌, ◌<◌, min, eqb, leb, length, get_or};
ghost use Rattle.month.specs.Month.{most_mixes};
ghost use Rattle.month_files.specs.Lines.{no_lines, line_byte, lines_from, line_count, formed, channels_of, refusal_number, answer_number, lines_number};

use month::MOST_MIXES;

const LINE_FEED: u8 = 10;

// One byte more than the lines of the most mixes have: what a longer input has behind those changes nothing (`first_lines`).
pub const HEAD: usize = 2 * MOST_MIXES + 1;

// The line feeds of some bytes, counted up to one more than there may be mixes, and whether bytes stand behind the last.
#[derive(Clone, Copy)]
pub struct Lines {
    pub feeds: usize,
    pub pending: bool,
}

pub fn no_lines() -> Lines
    ensures { result ≡ no_lines }
{
    Lines {
        feeds: 0,
        pending: false,
    }
}

fn one_more(feeds: usize) -> usize
    ensures { result ≡ min (feeds + 1) (most_mixes + 1) }
{
    feeds.min(MOST_MIXES) + 1
}

fn with_line_byte(lines: Lines, byte: u8) -> Lines
    ensures { result ≡ line_byte lines byte }
{
    if byte == LINE_FEED {
        return Lines {
            feeds: one_more(lines.feeds),
            pending: false,
        };
    }
    Lines {
        feeds: lines.feeds,
        pending: true,
    }
}

// The lines of what came before, with this piece.
pub fn with_lines(lines: Lines, piece: &[u8]) -> Lines
    ensures { result ≡ lines_from lines piece.now }
{
    let mut all = lines;
    for &byte in piece {
        all = with_line_byte(all, byte);
    }
    all
}

fn is_digit(byte: u8) -> bool
    ensures { result ≡ (leb 49 byte && leb byte 56) }
{
    b'1' <= byte && byte <= b'8'
}

fn is_line(first: u8, second: u8) -> bool
    ensures { result ≡ (leb 49 first && (leb first 56 && eqb second 10)) }
{
    is_digit(first) && second == LINE_FEED
}

fn is_formed(text: &[u8]) -> bool
    ensures { result ≡ formed text.now }
{
    let mut rest = text;
    while let [first, second, behind @ ..] = rest {
        if !is_line(*first, *second) {
            return false;
        }
        rest = behind;
    }
    rest.is_empty()
}

fn too_many(lines: Lines) -> bool
    ensures { result ≡ not (leb (line_count lines) most_mixes) }
{
    if lines.pending {
        return MOST_MIXES <= lines.feeds;
    }
    MOST_MIXES < lines.feeds
}

// Why lines are refused.
#[derive(Clone, Copy, PartialEq, Eq, Debug)]
pub enum LinesRefusal {
    TooMany = 24,
    Malformed = 26,
}

impl From<LinesRefusal> for u32 {
    ghost from_gives = { λ refusal n. n ≡ refusal_number refusal };

    fn from(refusal: LinesRefusal) -> u32 {
        refusal as u32
    }
}

// Whether the lines are refused. Of a longer input the first bytes are enough for its text.
pub fn questions(lines: Lines, text: &[u8]) -> Result<(), LinesRefusal>
    ensures { answer_number result ≡ lines_number lines text.now }
{
    if too_many(lines) {
        return Err(LinesRefusal::TooMany);
    }
    if is_formed(text) {
        return Ok(());
    }
    Err(LinesRefusal::Malformed)
}

// The channels of a mix, counted from 0.
pub fn channels_at(text: &[u8], i: usize) -> u64
    requires { (formed text.now ≡ true) × (2 * i + 1 < length text.now) }
    ensures { (1 ≤ result) × (result ≡ get_or (channels_of text.now) i 0) }
{
    (text[2 * i] - b'0') as u64
}
