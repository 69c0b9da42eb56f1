//! What a client sends in a session.
use crate::request::WireRequest;
use crate::token::Token;

/// A session that begins, or is resumed.
#[derive(Clone, Copy, Debug, PartialEq, Eq)]
pub struct Opening {
    pub token: Token,
    pub resumes: bool,
}

/// A frame of a client.
#[derive(Debug, Drop)]
pub enum SessionFrame {
    Request(WireRequest),
    Open(Opening),
    /// The session is to end.
    Close,
}
