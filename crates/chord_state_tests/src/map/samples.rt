//! Replies, and a comparison, for tests.
use chord_map::{Bytes, Reply, Values};
use std::alloc::{AllocError, Global};

/// The reply with this one value.
pub fn one_value(alloc: Global, value: &[u8]) -> Result<Reply, AllocError> {
    let value = Bytes::from_slice(alloc, value)?;
    let mut values = Values::new(alloc);
    let pushed = values.push(value);
    if pushed.is_err() {
        drop(values);
        return Err(AllocError);
    }
    Ok(Reply::Values(values.share()?))
}

/// Whether the two are equal, if both were made.
pub fn equal<T: PartialEq + Drop>(first: Option<T>, second: Option<T>) -> Option<bool> {
    let (first, second) = first.zip(second)?;
    Some(first == second)
}
