//! The outcomes of steps.

/// What a step did.
#[derive(Clone, Copy, Debug, PartialEq, Eq)]
pub enum Outcome {
    /// A node of this number was created, or joined.
    Node(u64),
    /// A caller of this number was opened.
    Caller(u64),
    /// A message of this number was sent.
    Message(u64),
    /// A call was answered by the message of this number.
    Told(u64),
    /// A call was sent on as the message of this number.
    Forwarded(u64),
    /// A call was dropped.
    Dropped,
    /// A call was answered Full by the message of this number.
    Full(u64),
    /// This caller took a reply: the last of its taken calls.
    Fresh(u64),
    /// The caller had taken the reply before, or given the request up.
    Known,
    /// A caller heard that a store was full.
    HeardFull,
    /// A handover was taken, now or before; the message of this number is the Got.
    Got(u64),
    /// A handover will not be taken; the message of this number is the Declined.
    Declined(u64),
    /// A part came that is not of the next handover of its sender.
    Early,
    /// A store has no room for the pairs of a handover.
    NoRoom,
    /// A part was buffered; other parts are missing.
    Noted,
    /// A handover left the outbox of its giver.
    Freed,
    /// The outbox has no such handover.
    Unknown,
    /// The segment of a declined handover is held again.
    Held,
    /// A caller met a note.
    Met,
    /// A member learned of this node, which is before its first entry, or of none.
    Candidate(Option<u64>),
    /// The step was done and has no other outcome.
    Done,
}
