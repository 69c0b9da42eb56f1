//! What a server sends in a session.
use crate::answer::Answer;

/// A frame of a server.
#[derive(Debug, Drop)]
pub enum SessionAnswer {
    Answer(Answer),
    /// The session begins or goes on. Its floor, and the last number of which a request was read.
    Opened { floor: u64, last: u64 },
    /// The session ended.
    Closed,
}
