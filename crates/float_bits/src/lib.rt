// Floats, their bits, NaN included, and the bytes of those.
#![tactic(auto)]

mod bits;
mod bytes;

pub use bits::{f32_bits, f32_from_bits, f64_from_bits, is_f32, is_f64};
pub use bytes::word;
