//! A running ring: nodes under locks, with their workers and upkeep.
//!
//! A [`Ring`] has a slot for each node and an inbox for each node and each caller. It starts no
//! thread: its user calls [`Ring::work`] for each node on a thread of its own, and [`Ring::tick`]
//! for each now and then. Each node's lock holds the node with its seat of the table, and each
//! message under way is an envelope.
//!
//! Who asks the ring is admitted by [`Ring::admit_caller`] or [`Ring::admit_client`], which give
//! the core of a caller and its seat. [`Ring::post`] and [`Ring::hear`] send and wait, and
//! [`Ring::carry`] does the nodes' events on the calling thread. `chord_live` has such callers.
//!
//! [`Ring::begin_journal`] begins a journal of all changes, and [`Ring::take_journal`] takes out
//! what it has, to be written.
#![tactic(auto)]

mod board;
mod carried;
mod closing;
mod counting;
mod deed;
mod departing;
mod fault;
mod freeing;
mod handing_over;
mod journaling;
mod linking;
mod looking;
mod moment;
mod probe;
mod reader;
mod register;
mod rescuing;
mod resting;
mod ring;
mod ring_parts;
mod round;
mod seated_node;
mod slot;
mod tick;
mod trail;
mod waiting;
mod work;

pub use carried::Carried;
pub use chord_journal::JournalPiece;
pub use chord_live_steps::{Keyed, Target, Tidied, deal, join_adjoining, tidy, trim};
pub use chord_live_types::{
    CreateFault, JoinFault, LeaveFault, NewFault, NoSuchNode, OpenClientFault, OpenFault, Settings,
    TickFault,
};
pub use closing::Closed;
pub use fault::{CrashFault, RescueFault, RingRetireFault};
pub use probe::{NoProbe, Probe};
pub use ring::Ring;
pub use ring_parts::RingParts;
pub use round::Round;
