// What a trace says of a row.

// Of a row that only prepares others, which is wrong where it cannot be read.
pub fn prepared(read: Option<()>) -> Option<bool> {
    match read {
        Some(()) => None,
        None => Some(false),
    }
}

// Of a row that asks, which is wrong where it cannot be read too.
pub fn asked(right: Option<bool>) -> Option<bool> {
    Some(right.unwrap_or(false))
}
