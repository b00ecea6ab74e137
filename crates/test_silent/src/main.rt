// Reads cases from standard input (`test_replay`, cases.rt), of which the last number says how many tracks there is room for, and
// prints the number of each and what is in the room then, a line for each case.
#![tactic(auto)]

use std::io;
use test_replay::Case;

// The most samples of a case.
const SAMPLES: usize = 16384;

// The most tracks there is room for.
const ROOM: usize = 40;

fn print_silent<'a, R: Print>(
    rt: &R,
    file: &[u8],
    samples: &'a [f32],
    visitor: &'a [f32],
    room: &mut [u32],
    count: usize,
) -> io::Result<()> {
    let n = count.min(room.len());
    let number = silent_tracks::silent(file, samples, visitor, &mut room[0..n]);
    print!(rt; "{number}")?;
    for track in &room[..n] {
        print!(rt; " {track}")?;
    }
    println!(rt; "")
}

fn silent_case<R: Print>(rt: &R, case: Case<'_>) -> io::Result<()> {
    let mut samples = [0.0f32; SAMPLES];
    let mut visitor = [0.0f32; SAMPLES];
    let n = test_replay::samples_of(case.samples, &mut samples);
    let m = test_replay::samples_of(case.visitor, &mut visitor);
    // A refusal leaves these as they are.
    let mut room = [9u32; ROOM];
    print_silent(
        rt,
        case.scene,
        &samples[..n],
        &visitor[..m],
        &mut room,
        case.output,
    )
}

fn main(rt: HostRuntime) -> io::Result<()> {
    let mut buffer = test_replay::buffer::<524288>();
    let n = first_bytes::read_full(&mut rt.stdin(), &mut buffer);
    test_replay::for_each_case(
        &buffer[..n],
        |input| test_replay::first_case(input),
        |case| silent_case(&rt, case),
    )
}
