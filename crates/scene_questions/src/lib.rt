// The questions that are asked of a scene. All ten are defined in specs/Questions.antt; here is the code
// of those that are asked of a whole: 1, and 6 to 9. `scene_file` asks 2, `scene_rules` 3 to 5, of every
// line, and `scene_reader` 10, of an output; it answers.
#![tactic(auto)]

mod lengths;
mod samples;
mod tracks;

pub use lengths::size_ok;
pub use samples::{samples_ok, sounds_fit};
pub use tracks::{depths_fit, parent_of, placings_fit, routes_fit};
