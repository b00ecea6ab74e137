// Reads cases from standard input (`test_replay`, cases.rt) and prints what the render program prints for the three files of each.
#![tactic(auto)]

use render_files::TEXT;
use std::io;
use test_replay::Case;

fn print_case<R: Print>(rt: &R, case: Case<'_>) -> io::Result<()> {
    let mut text = [0u8; TEXT];
    let n = render_files::render_text(case.scene, case.samples, case.visitor, &mut text);
    rt.write_all(&text[..n])
}

fn main(rt: HostRuntime) -> io::Result<()> {
    let mut buffer = test_replay::buffer::<524288>();
    let n = first_bytes::read_full(&mut rt.stdin(), &mut buffer);
    test_replay::for_each_case(
        &buffer[..n],
        |input| test_replay::first_case(input),
        |case| print_case(&rt, case),
    )
}
