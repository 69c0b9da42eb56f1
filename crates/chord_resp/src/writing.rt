//! Writing answers, each added at the end of a buffer whole or not at all.

pub mod arrays;
pub mod lines;
pub mod refusals;
