//! The tests of event loops (`chord_app_loop`).
#![tactic(auto)]

#[cfg(test)]
mod askers;
#[cfg(test)]
mod budgets;
#[cfg(test)]
mod checks;
#[cfg(test)]
mod operators;
#[cfg(test)]
mod parties;
#[cfg(test)]
mod serving;
#[cfg(test)]
mod simulated;
#[cfg(test)]
mod waiting;
