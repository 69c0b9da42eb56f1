//! Tests, by what they look at.

mod answers;
mod both_ends;
mod dumps;
mod loopback;
mod requests;
mod runs;
mod sights;
mod streams;
mod tables;
