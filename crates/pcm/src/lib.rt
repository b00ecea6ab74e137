// Samples as sound files store them: 16-bit whole numbers and 32-bit floats, in either byte order.
#![tactic(auto)]

mod sample;

pub use sample::{Encoding, distance_16, is_whole_16, put_sample, sample_at};
