// A stream of cases. A case is numbers of four bytes, the lowest first, some of which are lengths; then files of those lengths, one
// after another.
ghost use Rattle.std.specs.Prelude.{◌≡◌, ◌+◌, ◌*◌, ◌≤◌, ◌<◌, length, take, IfSome};

use std::io;

// A case that the oracle's `batch` reads too: its numbers are a kind, which is not looked at, the bytes of the three files, and
// the output's samples.
#[derive(Clone, Copy)]
pub struct Case<'a> {
    pub scene: &'a [u8],
    pub samples: &'a [u8],
    pub visitor: &'a [u8],
    pub output: usize,
}

// The numbers that the input begins with, and what stands behind them.
pub fn first_numbers<const N: usize>(input: &[u8]) -> Option<([u32; N], &[u8])>
    ensures { IfSome result (λ p. length p.1.now + 4 * N ≡ length input.now) }
{
    let mut numbers = [0; N];
    let mut rest = input;
    for number in numbers.iter_mut() {
        let (bytes, behind) = rest.split_first_chunk()?;
        *number = u32::from_le_bytes(*bytes);
        rest = behind;
    }
    Some((numbers, rest))
}

// The case that the input begins with, and what stands behind it.
pub fn first_case(input: &[u8]) -> Option<(Case<'_>, &[u8])>
    ensures { IfSome result (λ p. length p.1.now < length input.now) }
{
    let ([_, scene, samples, visitor, output], rest) = first_numbers::<5>(input)?;
    let (scene, rest) = rest.split_at_checked(scene as usize)?;
    let (samples, rest) = rest.split_at_checked(samples as usize)?;
    let (visitor, rest) = rest.split_at_checked(visitor as usize)?;
    let output = output as usize;
    Some((
        Case {
            scene,
            samples,
            visitor,
            output,
        },
        rest,
    ))
}

// Answers each case of the input, up to the first that is not whole, and stops where an answer fails.
pub fn for_each_case<
    'a,
    C: Drop,
    P: Fn(&'a [u8]) -> Option<(C, &'a [u8])>,
    F: FnMut(C) -> io::Result<()>,
>(input: &'a [u8], first: P, mut answer: F) -> io::Result<()>
    requires first { P.IsAlwaysCallable first }
    requires shorter { (bytes : _) (r : _) → P.post first bytes r → IfSome r (λ p. length p.1.now < length bytes.now) }
    requires answer { F.IsAlwaysCallable answer }
{
    let mut rest = input;
    while let Some((case, behind)) = first(rest) {
        answer(case)?;
        rest = behind;
    }
    Ok(())
}

// Puts the samples to the start of the room, as far as it goes, and answers how many there are.
pub fn samples_of(bytes: &[u8], room: &mut [f32]) -> usize
    ensures { (result ≤ length room.new) × (result ≡ length (take result room.new)) }
{
    let words = bytes.as_chunks().0;
    let n = words.len().min(room.len());
    for (i, sample) in room[..n].iter_mut().enumerate() {
        *sample = float_bits::f32_from_bits(u32::from_le_bytes(words[i]));
    }
    n
}
