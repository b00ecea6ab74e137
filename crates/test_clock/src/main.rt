// Runs the lists of vectors of the crate `clock` (docs/VECTORS.md), and says of each list how many
// answers were checked and how many were wrong.
#![tactic(auto)]

mod moves;
mod traces;

use std::io;
use traces::Trace;

fn main(rt: HostRuntime) -> io::Result<()> {
    let mut buffer = test_replay::buffer::<204800>();
    let mut trace = Trace::new();
    test_replay::run_list(&rt, b"clock", b"clock.txt", &mut buffer, |row| {
        trace.clock_row(row)
    })?;
    let mut trace = Trace::new();
    test_replay::run_list(
        &rt,
        b"when_to_start",
        b"when_to_start.txt",
        &mut buffer,
        |row| trace.start_row(row),
    )
}
