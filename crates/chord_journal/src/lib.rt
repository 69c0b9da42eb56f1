//! The journal: the changes of a map, as commands of Redis's protocol.
//!
//! [`JournalBuffer`] grows by one command for each call that changed the map. Room for it is made
//! by `reserve` before the call is executed, so that `append` cannot fail behind it. `take` gives
//! what there is, to be written to a file.
//!
//! [`laws`] says what a reader finds in such a file, whole or cut short.
#![tactic(auto)]

mod buffer;
pub mod laws;
mod piece;

pub use buffer::JournalBuffer;
pub use piece::JournalPiece;
