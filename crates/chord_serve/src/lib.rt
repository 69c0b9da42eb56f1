//! A byte server: frames in, frames out, over anything that reads and writes.
//!
//! A [`Link`] is a connection that owns its stream and speaks a [`Protocol`]: in frames, a
//! [`FrameProtocol`], which asks an [`Asker`] each request once, and writes the answers: a reply, a
//! fault, or, for a number that was answered before, the same frame again. Where nothing else is to
//! be done meanwhile, [`drive`] reads and writes for a protocol, and [`serve`] for one in frames.
//! A session may outlive its connection: [`first_opening`] says how a connection begins, a
//! [`FrameProtocol`] speaks for a [`ClientSession`] and leaves it [`Parted`], and a
//! [`SessionTable`] has the sessions of a server: those that connections have, and those without
//! one, the [`KeptSessions`]. [`Served`] says why a connection ended. [`tell_callers_spent`] is
//! what a client is told whose connection is not served. The other end is [`call`], which sends one
//! request and waits, or a [`WireClient`], which has up to 16 requests in flight, and whose session
//! may go on over another connection. [`laws`] says that the output does not depend on how the
//! input was cut.
#![tactic(auto)]

mod asker;
mod calls;
mod client_session;
mod driving;
mod due;
mod frame_protocol;
mod greeting;
mod intake;
mod kept_sessions;
pub mod laws;
mod link;
mod openings;
mod parted;
mod read_size;
mod refusing;
mod served;
mod server;
mod session_table;
mod step;
mod told;
mod wire_client;
mod write_bytes;

pub use asker::{Asked, Asker};
pub use calls::{CallFault, call, call_2};
pub use client_session::ClientSession;
pub use driving::drive;
pub use due::Due;
pub use frame_protocol::FrameProtocol;
pub use greeting::first_opening;
pub use kept_sessions::{KeptSession, KeptSessions};
pub use link::connection::Link;
pub use link::marks::{Marks, NoMarks};
pub use link::protocol::Protocol;
pub use link::stage::{Stage, Step};
pub use link::stream::{Pair, Stream};
pub use openings::{tell_callers_spent, tell_no_session, tell_opened, tell_session_known};
pub use parted::Parted;
pub use read_size::ReadSize;
pub use served::Served;
pub use server::serve;
pub use session_table::{BeginRefusal, HeldSession, Resumed, SessionTable};
pub use wire_client::sessions::{BeginFault, CloseFault, OpenFault, ResumeFault};
pub use wire_client::{AgainFault, ReceiveFault, SendFault, WireClient};
