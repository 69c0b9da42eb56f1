//! Counts of the connections of clients and of their sessions.

/// How many connections of clients ended, by how.
#[derive(Clone, Copy, Debug, Default, PartialEq, Eq)]
pub struct EndCounts {
    /// They ended after a whole frame or command.
    pub ended: u64,
    /// They ended within one.
    pub truncated: u64,
    /// A frame was refused.
    pub malformed: u64,
    /// The bytes were no command of Redis's protocol.
    pub protocol: u64,
    /// Reading failed, or they could not be accepted.
    pub read: u64,
    /// Writing failed.
    pub write: u64,
    /// They were read as often as is allowed.
    pub turns_spent: u64,
    /// Memory ran out.
    pub memory: u64,
    /// No caller was left.
    pub callers_spent: u64,
    /// The client was idle for too long.
    pub idle: u64,
}

/// The sessions of clients.
#[derive(Clone, Copy, Debug, Default, PartialEq, Eq)]
pub struct SessionCounts {
    /// Sessions without a connection now.
    pub kept: u64,
    /// Sessions that went on over another connection.
    pub resumed: u64,
    /// Sessions that were dropped for their caller or their memory.
    pub dropped: u64,
    /// Connections that were refused a session.
    pub refused: u64,
}

/// How many bytes the connections of clients carried.
#[derive(Clone, Copy, Debug, Default, PartialEq, Eq)]
pub struct ByteCounts {
    /// From clients.
    pub read: u64,
    /// To clients.
    pub written: u64,
}
