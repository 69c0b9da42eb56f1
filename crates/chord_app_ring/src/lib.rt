//! The command `ring`: an operator asks a running server over HTTP on loopback, and sees what it
//! answers.
//!
//! [`request_bytes`] writes what a [`RingCommand`] asks for, [`exchange`] sends it over any stream
//! and takes one [`Answer`], and [`text_of`] gives the text of one that does what was asked for, or
//! why it does not ([`RingFault`]). [`run_ring`] does the whole command, and [`run_dump`] copies
//! all pairs.
#![tactic(auto)]

mod command;
mod connecting;
mod dump_run;
mod dumping;
mod fault;
mod inbox;
mod page;
mod request;
mod run;
mod stream;
mod told;

pub use command::{RingCommand, RingLine, RingTask};
pub use dump_run::run_dump;
pub use dumping::{DumpFault, PAGE_TRIES, PageTeller, dump};
pub use fault::RingFault;
pub use inbox::Answer;
pub use page::{PAGE_PAIRS, Page, PageTurn, first_behind, id_in, page_of, request_behind};
pub use request::{pairs_bytes, pairs_path, request_body, request_bytes, request_path};
pub use run::run_ring;
pub use stream::{exchange, exchange_pairs};
pub use told::text_of;
