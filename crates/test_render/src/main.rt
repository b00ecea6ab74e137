// Reads cases from standard input (`test_replay`, cases.rt), renders each and prints its number and the bits of its output, a
// line for each.
#![tactic(auto)]

use std::io;
use test_replay::Case;

// Prints the number and the output, which is cut where the room ends.
fn print_render<'a, R: Print>(
    rt: &R,
    file: &[u8],
    samples: &'a [f32],
    visitor: &'a [f32],
    room: &mut [f32],
    length: usize,
) -> io::Result<()> {
    let n = length.min(room.len());
    let number = room_desk::render(file, samples, visitor, &mut room[0..n]);
    println!(rt; "{number}")?;
    for &sample in &room[..n] {
        println!(rt; "{}", float_bits::f32_bits(sample))?;
    }
    Ok(())
}

fn render_case<R: Print>(rt: &R, case: Case<'_>) -> io::Result<()> {
    let mut samples = [0.0f32; 8192];
    let mut visitor = [0.0f32; 8192];
    let n = test_replay::samples_of(case.samples, &mut samples);
    let m = test_replay::samples_of(case.visitor, &mut visitor);
    // A refusal leaves these as they are.
    let mut output = [0.75f32; 8192];
    print_render(
        rt,
        case.scene,
        &samples[..n],
        &visitor[..m],
        &mut output,
        case.output,
    )
}

fn main(rt: HostRuntime) -> io::Result<()> {
    let mut buffer = test_replay::buffer::<524288>();
    let n = first_bytes::read_full(&mut rt.stdin(), &mut buffer);
    test_replay::for_each_case(
        &buffer[..n],
        |input| test_replay::first_case(input),
        |case| render_case(&rt, case),
    )
}
