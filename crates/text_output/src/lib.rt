// Text put into a buffer from a place on: bytes, decimal numbers, a refusal. Each function answers the place after what it put.
#![tactic(auto)]

ghost use Rattle.std.specs.Prelude.{◌≡◌, [], ◌∷◌, ◌++◌, ◌+◌, ◌≤◌, ◌<◌, length};
ghost use Rattle.laws.specs.Pieces.{begun, put_at};
ghost use Rattle.text_output.specs.Text.{decimal_within, refusal_bytes, printed_refusal};

// How many digits there are behind the first, at most, in a number below 2^32 and in one below 2^64.
pub const STEPS_32: usize = 9;

pub const STEPS_64: usize = 19;

#[tactic(auto, using(laws::proofs::laws::Pieces::part_put), unfolding(laws::specs::Pieces::put_at))]
pub fn put_text(text: &mut [u8], at: usize, piece: &[u8]) -> usize
    requires { at + length piece.now ≤ length text.old }
    ensures place { result ≡ at + length piece.now }
    ensures text { text.new ≡ put_at at piece.now text.old }
{
    let end = at + piece.len();
    text[at..end].copy_from_slice(piece);
    end
}

fn digit(n: u64) -> u8
    requires { n < 10 }
    ensures { result ≡ 48 + n }
{
    48 + n as u8
}

// The decimal digits of a number, `steps` and one more at most.
pub fn put_decimal(text: &mut [u8], at: usize, steps: usize, n: u64) -> usize
    requires { at + steps + 1 ≤ length text.old }
    ensures place { result ≡ at + length (decimal_within steps n) }
    ensures text { text.new ≡ put_at at (decimal_within steps n) text.old }
{
    if steps == 0 {
        text[at] = digit(n % 10);
        return at + 1;
    }
    if n < 10 {
        text[at] = digit(n);
        return at + 1;
    }
    let end = put_decimal(text, at, steps - 1, n / 10);
    text[end] = digit(n % 10);
    end + 1
}

// A number, and the byte after it.
pub fn put_number(text: &mut [u8], at: usize, steps: usize, n: u64, after: u8) -> usize
    requires { at + steps + 2 ≤ length text.old }
    ensures place { result ≡ at + length (decimal_within steps n ++ (after ∷ [])) }
    ensures text { text.new ≡ put_at at (decimal_within steps n ++ (after ∷ [])) text.old }
{
    let end = put_decimal(text, at, steps, n);
    text[end] = after;
    end + 1
}

pub fn put_refusal(text: &mut [u8], number: u32) -> usize
    requires { refusal_bytes ≤ length text.old }
    ensures length { result ≡ length (printed_refusal number) }
    ensures text { text.new ≡ begun (printed_refusal number) text.old }
{
    let at = put_text(text, 0, b"refused\n");
    put_number(text, at, STEPS_32, number as u64, b'\n')
}
