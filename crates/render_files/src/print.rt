// What the program prints, put into a buffer from a place on. Each function answers the place after it.
ghost use Rattle.std.specs.Prelude.{◌≡◌, [], ◌∷◌, ◌++◌, ◌+◌, ◌*◌, ◌≤◌, length};
ghost use Rattle.laws.specs.Pieces.{begun, put_at};
ghost use Rattle.text_output.specs.Text.{decimal};
ghost use Rattle.render_files.specs.Program.{most, number_bytes, line_bytes, names_bytes, line, printed_output};

use text_output::{STEPS_32, put_text};

// Bytes at most: of a number, with the byte after it, of a line, and of the names line.
pub const NUMBER_BYTES: usize = STEPS_32 + 2;

pub const LINE_BYTES: usize = 3 * NUMBER_BYTES;

pub const NAMES_BYTES: usize = 17;

// A number, and the byte after it.
fn put_number(text: &mut [u8], at: usize, n: u32, after: u8) -> usize
    requires { at + number_bytes ≤ length text.old }
    ensures place { result ≡ at + length (decimal n ++ (after ∷ [])) }
    ensures text { text.new ≡ put_at at (decimal n ++ (after ∷ [])) text.old }
{
    text_output::put_number(text, at, STEPS_32, n as u64, after)
}

fn put_line(text: &mut [u8], at: usize, block: u32, place: u32, bits: u32) -> usize
    requires { at + line_bytes ≤ length text.old }
    ensures place { result ≡ at + length (line block place bits) }
    ensures text { text.new ≡ put_at at (line block place bits) text.old }
{
    let second = put_number(text, at, block, b' ');
    let third = put_number(text, second, place, b' ');
    put_number(text, third, bits, b'\n')
}

// A line for each sample of the output; a block has `width` of them.
pub fn put_output(text: &mut [u8], width: usize, output: &[f32]) -> usize
    requires width_not_zero { 1 ≤ width }
    requires output_within_most { length output.now ≤ most }
    requires room_for_text { names_bytes + most * line_bytes ≤ length text.old }
    ensures length { result ≡ length (printed_output width output.now) }
    ensures text { text.new ≡ begun (printed_output width output.now) text.old }
{
    let mut at = put_text(text, 0, b"block place bits\n");
    let mut i = 0;
    while i < output.len() {
        let block = (i / width) as u32;
        let place = (i % width) as u32;
        at = put_line(text, at, block, place, float_bits::f32_bits(output[i]));
        i += 1;
    }
    at
}
