//! Tests, by what they look at.

mod calls;
mod crowds;
mod joins;
mod operators;
mod stops;
