// Sound files in the form AIFF, for users: what a file in hand is, its samples, and a file of given
// samples. Where one is refused nothing is written.
#![tactic(auto)]

mod routines;

pub use routines::{info, length, read, write};
pub use wave_sound::{Refusal, number_of};
