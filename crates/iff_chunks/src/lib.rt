// A file of chunks: which form it has, and where its first chunks of two kinds begin.
#![tactic(auto)]

mod form;

pub use form::{Chunks, is_form, walk};
