//! Whose connections event loops serve.

use crate::budget::Budget;
use crate::guest::Guest;
use chord_app_sockets::Ended;
use chord_serve::{Link, Marks, Protocol, Stream};

/// What becomes of a connection that begins.
#[derive(Drop)]
pub enum Met<P: Protocol, S: Stream> {
    /// More must come before that is known.
    Reads,
    /// It is met again in a moment.
    Waits,
    /// This link serves it.
    Begins(Link<P, S>),
    /// It ended so.
    Ended(Ended),
}

/// Says what connections become, and hears how they end. Its marks are those of the changes that
/// answers may show.
pub trait Owner<P: Protocol, S: Stream>: Marks {
    /// What becomes of a connection that begins. It is met before anything is read, and again once
    /// more came, its input ended, or it was silent for a second.
    fn meet(&self, guest: &Guest<S>) -> Met<P, S>;

    /// The connection of this number ended so. The protocol of its link comes back, if it had one.
    fn hear_end(&self, number: u64, ended: &Ended, protocol: Option<P>);

    /// The connection of this number is closed.
    fn hear_close(&self, number: u64);

    /// Whether all connections are to end.
    fn wants_end(&self) -> bool;

    /// How much its connections may hold.
    fn budget(&self) -> &Budget;

    /// Has changes written up to this mark, for answers that wait for it. Says up to where they are
    /// written: where that is less, the loops are woken once it is more.
    fn settle(&self, _mark: u64) -> u64 {
        u64::MAX
    }
}
