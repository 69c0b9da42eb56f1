//! What a node answers to a call.

use chord_caller::{Ask, Told};

/// The answer to a call.
#[derive(Debug, Drop)]
pub enum Answered {
    /// The reply is sent, for the first time or again.
    Told(Told),
    /// The call is sent on to the node of this number.
    Forward(u64, Ask),
    /// Nothing is sent.
    Dropped,
    /// The store has no room for the pair that the call would add.
    Full,
}
