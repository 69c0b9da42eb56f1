//! The tests of texts, plans and command lines (`chord_app_text`, `chord_app_plan`,
//! `chord_app_options`), of the commands `ask` and `load` (`chord_app_ask`), and of what a server has
//! beside its ring (`chord_app_sockets`).
#![tactic(auto)]

#[cfg(test)]
mod asking;
#[cfg(test)]
mod checks;
#[cfg(test)]
mod plan;
#[cfg(test)]
mod quoted;
#[cfg(test)]
mod sockets;
#[cfg(test)]
mod tests;
