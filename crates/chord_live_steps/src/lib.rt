//! What a running ring does step by step, without a lock, a thread or a channel.
//!
//! What a node does with a message ([`deal`]), how it tidies what it holds ([`tidy`],
//! [`join_adjoining`], [`trim`]), and how nodes and callers get their numbers and seats
//! ([`Numbers`]). `chord_live_ring` does these under its locks.
//!
//! A [`SeatedCore`] has the requests of one who asks the ring and its caller's seat, so that each
//! request and each reply is a step of the caller that the seat shows. There are two kinds of such
//! cores, each an [`AskingCore`]. `chord_live` sends and waits with them.
#![tactic(auto)]

mod adjoining;
mod asking_core;
mod caller_asking;
mod client_asking;
mod dealing;
mod departure;
mod keyed;
mod note_envelope;
mod numbers;
mod pieces;
mod seated_caller;
mod seated_core;
mod surveying;
mod target;
mod tidying;

pub use adjoining::join_adjoining;
pub use asking_core::AskingCore;
pub use dealing::{deal, deal_by_id, is_for};
pub use departure::Departure;
pub use keyed::Keyed;
pub use note_envelope::NoteEnvelope;
pub use numbers::Numbers;
pub use pieces::trim;
pub use seated_core::SeatedCore;
pub use target::Target;
pub use tidying::{Tidied, tidy};
