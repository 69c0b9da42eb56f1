//! The tests of the journal (`chord_journal`): what its buffer spells, and what the reader of
//! Redis's protocol (`chord_resp`) finds in it.
#![tactic(auto)]

#[cfg(test)]
mod growths;
#[cfg(test)]
mod journaling;
#[cfg(test)]
mod scripts;
#[cfg(test)]
mod shown;
