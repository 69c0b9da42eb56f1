//! The file of a journal: how changes come into it, and how it is read.
//!
//! A [`JournalFile`] is a [`Device`] with whole commands alone: `append` adds all of some bytes, or
//! cuts the device back to what it had. A [`Syncing`] is its other handle, by which what was
//! written is brought to the disk; a sync that failed is never tried again.
//!
//! A [`JournalReader`] takes a file in by `feed`, in pieces of any length, and gives its changes by
//! `next`. It says up to where the file has whole commands, and [`scan`] how a whole file ends.
#![tactic(auto)]

mod device;
mod heads;
mod journal_file;
mod many;
mod notes;
mod read_fault;
mod reader;
mod scanning;
mod syncing;
mod window;

pub use device::Device;
pub use journal_file::{JournalFile, WriteFault};
pub use read_fault::{FaultKind, ReadFault};
pub use reader::{Ends, JournalReader};
pub use scanning::{ScanFault, Scanned, scan};
pub use syncing::{SyncFault, Syncing};
