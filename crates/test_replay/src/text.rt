// A list is a text of lines. One that starts with '#' is a comment, and any other has its columns
// at fixed places.
ghost use Rattle.std.specs.Prelude.{◌≡◌, ◌+◌, ◌≤◌, ◌<◌, length, position, ◌==◌, IfSome};
ghost use Rattle.test_replay.specs.Text.{line_length, is_row, digit_of, hex_of, hex_at, below32};

const LINE_FEED: u8 = 10;

// How many bytes stand before the first line feed, or before the end where there is none.
pub fn line_length(text: &[u8]) -> usize
    ensures within { result ≤ length text.now }
    ensures line_length { result ≡ line_length text.now }
{
    first_feed(text).unwrap_or(text.len())
}

fn first_feed(text: &[u8]) -> Option<usize>
    ensures { result ≡ position (λ b. b == 10) text.now }
{
    text.iter().position(|byte| *byte == LINE_FEED)
}

pub fn is_row(line: &[u8]) -> bool
    ensures { result ≡ is_row line.now }
{
    line.first() != Some(&b'#')
}

// What a lowercase hexadecimal digit stands for.
fn digit(byte: u8) -> Option<u64>
    ensures most { IfSome result (λ d. d < 16) }
    ensures digit_value { result ≡ digit_of byte }
{
    match byte {
        b'0'..=b'9' => Some((byte - b'0') as u64),
        b'a'..=b'f' => Some((byte - b'a' + 10) as u64),
        _ => None,
    }
}

// The number that all of the column's bytes write, if there is one that fits.
#[tactic(auto, using(crate::proofs::laws::Text::hex_step, crate::proofs::laws::Text::hex_ends))]
pub fn hex(column: &[u8]) -> Option<u64>
    ensures { result ≡ hex_of column.now }
{
    let mut number: u64 = 0;
    for &byte in column {
        let d = digit(byte)?;
        if 1 << 60 <= number {
            return None;
        }
        number = number * 16 + d;
    }
    Some(number)
}

pub fn hex32(column: &[u8]) -> Option<u32>
    ensures { result ≡ below32 (hex_of column.now) }
{
    u32::try_from(hex(column)?).ok()
}

// The column of so many digits that starts at a place of a row.
pub fn hex_at(row: &[u8], at: usize, digits: usize) -> Option<u64>
    requires { at + digits ≤ length row.now }
    ensures { result ≡ hex_at row.now at digits }
{
    hex(&row[at..at + digits])
}

pub fn hex32_at(row: &[u8], at: usize, digits: usize) -> Option<u32>
    requires { at + digits ≤ length row.now }
    ensures { result ≡ below32 (hex_at row.now at digits) }
{
    hex32(&row[at..at + digits])
}
