//! The tests of `chord_live`, and of its ring, `chord_live_ring`.
#![tactic(auto)]

#[cfg(test)]
mod checks;
#[cfg(test)]
mod rings;
