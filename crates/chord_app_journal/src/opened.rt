//! A journal that was opened.

use crate::place::Place;
use chord_journal_file::Scanned;
use std::fs::File;

/// The file of a journal, which has whole commands alone.
#[derive(Drop)]
pub struct OpenedJournal {
    /// It is read from its beginning, and written at its end.
    pub file: File,
    /// What keeps other servers off: drop it once the file is used no more.
    pub lock: File,
    pub place: Place,
    /// What it had before it was cut.
    pub scanned: Scanned,
}
