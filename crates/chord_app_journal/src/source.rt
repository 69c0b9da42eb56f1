//! Where commands come from.

use chord_journal::JournalPiece;
use std::sync::Wait;

/// Where the commands of changes come from.
pub trait Source {
    /// Takes out what was not taken out yet. The spare vector is emptied and comes in its place.
    fn take<R: Wait>(&self, rt: &R, spare: Vec<u8>) -> JournalPiece;

    /// How many bytes were added in all. It never falls, and the command of a change is within it
    /// before the change is answered.
    fn mark(&self) -> u64;
}
