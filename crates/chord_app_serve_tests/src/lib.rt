//! The tests of the commands `run` and `serve --connections`, and of `ask` and `load` with a ring
//! behind the server.
#![tactic(auto)]

#[cfg(test)]
mod checks;
#[cfg(test)]
mod tests;
