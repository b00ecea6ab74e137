// What a block's orders do to a mixer that is lent.
#![tactic(auto)]

mod order;
mod orders;

pub use orders::on_start_processing;
