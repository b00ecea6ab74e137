// Runs the list of vectors of the crate `playback` (docs/VECTORS.md), and says how many updates were
// checked and how many were wrong.
#![tactic(auto)]

mod traces;

use std::io;
use traces::Trace;

fn main(rt: HostRuntime) -> io::Result<()> {
    let mut buffer = test_replay::buffer::<204800>();
    let mut trace = Trace::new();
    test_replay::run_list(&rt, b"playback", b"playback.txt", &mut buffer, |row| {
        trace.read_row(row)
    })
}
