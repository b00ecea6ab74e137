// Lines of a table by their owner: of each owner the last line, and of each line the one before it
// with the same owner. So an owner's lines are found, latest first, without a look at the others; with
// a table's lines counted from its end, first line first. And marks: which lines are used at all.
#![tactic(auto)]

mod chain;
mod marks;
mod walk;

pub use chain::{Links, OWNERS, last_line, line_before, links_of};
pub use marks::{Marks, mark_above, mark_owners};
pub use walk::{LinesOf, lines_of};
