// Which of a block's orders count, and the tweens that they name.
#![tactic(auto)]

mod orders;

pub use orders::{MARKS, Marks, counts_by, key, kind_number, resume_tween_of, tween_of};
