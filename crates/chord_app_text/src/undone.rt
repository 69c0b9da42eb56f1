//! Why the request of a line of a copy is not done.

use std::fmt;

/// Why the server did not do a request, or is not known to have done it.
#[derive(Clone, Copy, Debug, PartialEq, Eq)]
pub enum Undone {
    Full,
    SetFull,
    NoAnswer,
    /// The server had no caller for the connection.
    CallersSpent,
    /// Another fault of the protocol, by its code.
    Code(u8),
    /// The connection ended before the answer came.
    Lost,
}

/// The name of the fault, and what it says.
impl fmt::Display for Undone {
    fn fmt<W: fmt::Write>(&self, f: &mut fmt::Formatter<W>) -> fmt::Result {
        match self {
            Undone::Full => f.write_str("full: the node's store has no room"),
            Undone::SetFull => f.write_str("setfull: the key has 1000 values already"),
            Undone::NoAnswer => f.write_str("noanswer: the ring did not answer in time"),
            Undone::CallersSpent => {
                f.write_str("callersspent: the server has no caller for the connection")
            }
            Undone::Code(code) => write!(f, "fault {code} of the protocol"),
            Undone::Lost => f.write_str("lost: the connection ended before the answer came"),
        }
    }
}
