// A track's last two sounds, added in the pass that scales its frames.
#![tactic(auto)]

mod sounds;

pub use sounds::add_last_sounds;
