//! The tests of the command `serve --stay` and its clients, over loopback.
#![tactic(auto)]

#[cfg(test)]
mod checks;
#[cfg(test)]
mod tests;
