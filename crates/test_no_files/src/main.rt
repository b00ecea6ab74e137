// The render program where there is no scene.txt, no samples.raw and no visitor.raw.
#![tactic(auto)]

use std::io;

fn main(rt: HostRuntime) -> io::Result<()> {
    render_files::run(&rt)
}
