// Whole numbers in bytes, in either byte order.
#![tactic(auto)]

mod bytes;

pub use bytes::{ByteOrder, number2_at, number4_at, put_number2, put_number4};
