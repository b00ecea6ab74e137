// What the program prints, and the names of its files, put into a buffer from a place on. Each function answers the place after it.
ghost use Rattle.std.specs.Prelude.{◌≡◌, ◌+◌, ◌*◌, ◌≤◌, length, take, IsUtf8};
ghost use Rattle.laws.specs.Pieces.{begun, put_at};
ghost use Rattle.month_files.specs.Text.{number_bytes, text_bytes, three_numbers, printed_totals, printed_reading, name_of};

use month::Totals;
use month_reader::Reading;
use text_output::{STEPS_64, put_decimal, put_number, put_refusal, put_text};

// Bytes at most: of a number with the byte after it, and of the names line.
const NUMBER_BYTES: usize = STEPS_64 + 2;

const NAMES_BYTES: usize = 42;

// Room for all that can be printed, and for a file's name.
pub const TEXT: usize = NAMES_BYTES + 7 * NUMBER_BYTES;

pub const NAME: usize = 3 + (STEPS_64 + 1) + 4;

// Three numbers, with a space after each.
fn put_three(text: &mut [u8], at: usize, a: u64, b: u64, c: u64) -> usize
    requires { at + 3 * number_bytes ≤ length text.old }
    ensures { (result ≡ at + length (three_numbers a b c)) × (text.new ≡ put_at at (three_numbers a b c) text.old) }
{
    let second = put_number(text, at, STEPS_64, a, b' ');
    let third = put_number(text, second, STEPS_64, b, b' ');
    put_number(text, third, STEPS_64, c, b' ')
}

fn put_totals(text: &mut [u8], totals: Totals) -> usize
    requires { text_bytes ≤ length text.old }
    ensures { (result ≡ length (printed_totals totals)) × (text.new ≡ begun (printed_totals totals) text.old) }
{
    let peak = totals.peak;
    let counts = put_text(text, 0, b"mixes frames full peak mix sample squares\n");
    let place = put_three(text, counts, totals.mixes, totals.frames, totals.full);
    let squares = put_three(text, place, peak.bits as u64, peak.mix, peak.sample);
    put_number(text, squares, STEPS_64, totals.squares, b'\n')
}

pub fn put_reading(text: &mut [u8; TEXT], reading: Reading) -> usize
    ensures { (result ≡ length (printed_reading reading)) × (text.new ≡ begun (printed_reading reading) text.old) }
{
    let number = reading.number;
    let totals = reading.totals;
    if number != 0 {
        return put_refusal(text, number);
    }
    put_totals(text, totals)
}

// `mix1.raw` of mix 1, and so on.
pub fn mix_name(name: &mut [u8; NAME], mix: u64) -> usize
    ensures written { (result ≡ length (name_of mix)) × (name.new ≡ begun (name_of mix) name.old) }
    ensures within { (result ≤ length name.new) × (result ≡ length (take result name.new)) }
    ensures utf8 { IsUtf8 (take result name.new) }
{
    let start = put_text(name, 0, b"mix");
    let end = put_decimal(name, start, STEPS_64, mix);
    put_text(name, end, b".raw")
}
