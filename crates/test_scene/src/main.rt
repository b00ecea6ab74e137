// Reads cases from standard input (`test_replay`, cases.rt) and prints the number of each.
#![tactic(auto)]

use std::io;
use test_replay::Case;

// The most samples of a case.
const SAMPLES: usize = 16384;

fn number_of(case: Case<'_>) -> u32 {
    let mut samples = [0.0f32; SAMPLES];
    let mut visitor = [0.0f32; SAMPLES];
    let n = test_replay::samples_of(case.samples, &mut samples);
    let m = test_replay::samples_of(case.visitor, &mut visitor);
    let answer = scene_reader::read_scene(case.scene, &samples[..n], &visitor[..m], case.output);
    answer.number
}

fn print_case<R: Print>(rt: &R, case: Case<'_>) -> io::Result<()> {
    println!(rt; "{}", number_of(case))
}

fn main(rt: HostRuntime) -> io::Result<()> {
    let mut buffer = test_replay::buffer::<524288>();
    let n = first_bytes::read_full(&mut rt.stdin(), &mut buffer);
    test_replay::for_each_case(
        &buffer[..n],
        |input| test_replay::first_case(input),
        |case| print_case(&rt, case),
    )
}
