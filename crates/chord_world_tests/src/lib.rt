//! The tests of `chord_world` and of its console, `chord_app_world`.
#![tactic(auto)]

#[cfg(test)]
mod checks;
#[cfg(test)]
mod console;
#[cfg(test)]
mod steps;
