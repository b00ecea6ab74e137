// The orders by their blocks: of each block the first line, and of each line the next of its block. So
// a block's orders are found without a look at the others. And which of them count.
#![tactic(auto)]

mod by_block;
mod marks;

pub use by_block::{OrderLinks, first_line, links_by_block, next_line};
pub use marks::last_lines;
