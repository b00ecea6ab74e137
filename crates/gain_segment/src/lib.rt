// Segments of the gain table: amplitudes without the table, for levels that lie between two of its entries.
#![tactic(auto)]

mod segment;

pub use segment::{Segment, segment_of};
