//! Counts of answers.

/// How many requests of clients were answered, by what was answered.
#[derive(Clone, Copy, Debug, Default, PartialEq, Eq)]
pub struct AnswerCounts {
    /// A reply of the ring.
    pub reply: u64,
    /// A store had no room.
    pub full: u64,
    /// The ring gave no reply.
    pub no_answer: u64,
    /// Memory ran out.
    pub memory: u64,
    /// The ring was not asked: what came was no request, or not one that may be sent then.
    pub refused: u64,
}

/// The answers in each protocol.
#[derive(Clone, Copy, Debug, Default, PartialEq, Eq)]
pub struct ProtocolAnswers {
    pub frames: AnswerCounts,
    /// Of the commands of Redis's protocol: each request that a command asks counts as one.
    pub redis: AnswerCounts,
}
