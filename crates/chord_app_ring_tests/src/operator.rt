//! Tests, by what they look at.

mod answers;
mod calls;
pub mod devices;
mod links;
pub mod operators;
mod refusals;
pub mod sights;
mod words;
