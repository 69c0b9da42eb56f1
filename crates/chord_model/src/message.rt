//! The messages between callers and nodes.

use chord_caller::{Ask, Note, Told};
use chord_handover::{Declined, Got, Part};

/// Every kind of message.
#[derive(Debug, Drop)]
pub enum Message {
    /// A call, on its way to any node.
    Ask(Ask),
    /// The reply to a call, for its caller.
    Told(Told),
    /// For the caller: the store has no room for the pair that its call of this number would add.
    Full { caller: u64, number: u64 },
    /// A part of a handover, for its receiver.
    Part(Part),
    /// For the giver: its handover was taken.
    Got(Got),
    /// For the giver: its handover will not be taken.
    Declined(Declined),
    /// What a caller knows, for any caller.
    Note(Note),
}
