//! The journal of a server: its file, who writes it, and how it is loaded at the start.
//!
//! [`open_journal`] opens a file for one server alone, and cuts off what is no whole command. A
//! [`JournalWriter`] takes the commands from a [`Source`], writes them, and says up to where they
//! are written and where a sync has brought them to the disk; a thread of the server has it do so
//! in rounds. [`load`] has the
//! changes of a file done by several [`Doer`]s, those of a key always by the same one.
#![tactic(auto)]

mod journal_writer;
mod loading;
mod opened;
mod opening;
mod place;
mod source;
mod writing;

pub use journal_writer::{JournalWriter, SyncRule, Trouble};
pub use loading::{Doer, LoadFault, Loaded, Progress, load};
pub use opened::OpenedJournal;
pub use opening::{OpenFault, open_journal};
pub use place::Place;
pub use source::Source;
