//! Clients of a server over loopback: the command `ask`, which asks requests one after another, and
//! the command `load`, which asks many over several connections and reports how long they took.
#![tactic(auto)]

mod ask;
mod load;

pub use ask::copy::CopyRead;
pub use ask::input::{ask_copy, ask_lines, ask_one};
pub use ask::line::{read_line, read_words};
pub use ask::link::ClientOptions;
pub use ask::outcome::AskOutcome;
pub use ask::tokens::Tokens;
pub use load::bounds::{Drops, Kind, Load, UNIQUE_VALUE, Until};
pub use load::histogram::{Bucket, Histogram};
pub use load::report::Report;
pub use load::running::run_load;
