//! Why a file is no journal.

use chord_resp::ProtocolError;
use std::alloc::{AllocError, AllocFailed};
use std::fmt;

/// What stands in a file where a change must be.
#[derive(Clone, Copy, Debug, PartialEq, Eq)]
pub enum FaultKind {
    /// Bytes that are no command.
    Protocol(ProtocolError),
    /// The head of a Redis's snapshot.
    Snapshot,
    /// A command that neither adds members to a set nor removes some.
    NoChange,
    /// A key that is empty or above 255 bytes.
    KeyLength,
    /// A member above 4,096 bytes.
    MemberLength,
    /// A set that would have more than 1,000 members.
    SetFull,
    /// A change that no node made in time.
    NoAnswer,
    /// Memory ran out.
    Memory,
}

/// Why a file is no journal, and where.
#[derive(Clone, Copy, Debug, PartialEq, Eq)]
pub struct ReadFault {
    pub kind: FaultKind,
    /// How many bytes stand before the command.
    pub offset: u64,
}

impl From<AllocError> for FaultKind {
    fn from(_refused: AllocError) -> FaultKind {
        FaultKind::Memory
    }
}

impl<T: Drop> From<AllocFailed<T>> for FaultKind {
    fn from(_refused: AllocFailed<T>) -> FaultKind {
        FaultKind::Memory
    }
}

impl fmt::Display for FaultKind {
    fn fmt<W: fmt::Write>(&self, f: &mut fmt::Formatter<W>) -> fmt::Result {
        f.write_str(match self {
            FaultKind::Protocol(_) => "no command",
            FaultKind::Snapshot => "a snapshot: write it with `aof-use-rdb-preamble no`",
            FaultKind::NoChange => "a command that is neither SADD nor SREM",
            FaultKind::KeyLength => "a key that has not 1 to 255 bytes",
            FaultKind::MemberLength => "a member of more than 4096 bytes",
            FaultKind::SetFull => "a set of more than 1000 members",
            FaultKind::NoAnswer => "a change that no node made in time",
            FaultKind::Memory => "what takes more memory than there is",
        })
    }
}

impl fmt::Display for ReadFault {
    fn fmt<W: fmt::Write>(&self, f: &mut fmt::Formatter<W>) -> fmt::Result {
        let ReadFault { kind, offset } = self;
        write!(f, "{kind}, at byte {offset}")
    }
}
