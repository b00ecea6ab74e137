// The render program: see `render_files`.
#![tactic(auto)]

use std::io;

fn main(rt: HostRuntime) -> io::Result<()> {
    render_files::run(&rt)
}
