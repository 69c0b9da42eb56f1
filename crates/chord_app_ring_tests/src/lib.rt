//! The tests of `chord_app_operator` and of `chord_app_ring`, each of which is one end of an
//! operator's HTTP.
#![tactic(auto)]

#[cfg(test)]
mod checks;
#[cfg(test)]
mod operator;
#[cfg(test)]
mod samples;
#[cfg(test)]
mod tests;
