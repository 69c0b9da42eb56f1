//! Redis's protocol (RESP, version 2): what its clients write, and what they are answered.
//!
//! [`Commands`] takes in the bytes of a stream by `feed`, in pieces of any length, and gives its
//! whole commands by `next`. [`command_of`] says what the words of
//! one call for. The writers, as [`put_integer`], add one answer to a buffer.
//!
//! [`laws`] says that every stream has one reading, however it was cut.
#![tactic(auto)]

pub mod laws;
pub mod limits;
mod reading;
mod table;
mod writing;

pub use reading::commands::Commands;
pub use reading::protocol_error::ProtocolError;
pub use reading::read_error::ReadError;
pub use reading::word::Word;
pub use reading::words::Words;
pub use table::command::Command;
pub use table::command_of;
pub use table::denied::Denied;
pub use table::refusal::{Progress, Refusal};
pub use table::verb::{Verb, is_text};
pub use writing::arrays::{put_bulks, put_integers};
pub use writing::lines::{put_bulk, put_count, put_error, put_integer, put_null, put_simple};
pub use writing::refusals::{put_refusal, refusal_text};
