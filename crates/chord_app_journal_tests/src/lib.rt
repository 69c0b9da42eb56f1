//! The tests of a server's journal: what its file has behind writes that fail, and what is read of
//! it (`chord_journal_file`); how it is opened, written by several threads and loaded
//! (`chord_app_journal`).
#![tactic(auto)]

#[cfg(test)]
mod appending;
#[cfg(test)]
mod appends;
#[cfg(test)]
mod checks;
#[cfg(test)]
mod device;
#[cfg(test)]
mod loads;
#[cfg(test)]
mod opens;
#[cfg(test)]
mod reading;
#[cfg(test)]
mod reads;
#[cfg(test)]
mod texts;
#[cfg(test)]
mod writes;
