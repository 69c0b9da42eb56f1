//! The replies to a caller.
ghost use Rattle.std.specs.Prelude.{◌≡◌, ◌↔◌, IsTrue, IfOk, IsOk, OnErr};
ghost use Rattle.chord_map.specs.Copies.{IsShortReply};
ghost use Rattle.chord_map.specs.Map.{IsValues, fits};

use crate::request::Request;
use crate::shared_values::SharedValues;
use std::alloc::AllocError;

#[derive(Debug, Drop)]
pub enum Reply {
    Added,
    Present,
    SetFull,
    Values(SharedValues),
    Removed,
    Absent,
}

impl Reply {
    /// An equal copy. Only values need memory: two or more of them, or a single one above 24 bytes.
    pub fn try_copy(&self) -> Result<Reply, AllocError>
        ensures copy { IfOk result (λ copy. copy ≡ self.now) }
        ensures memory { OnErr result (IsValues self.now) }
        ensures short { IsShortReply self.now → IsOk result }
    {
        match self {
            Reply::Added => Ok(Reply::Added),
            Reply::Present => Ok(Reply::Present),
            Reply::SetFull => Ok(Reply::SetFull),
            Reply::Values(values) => Ok(Reply::Values(values.try_copy()?)),
            Reply::Removed => Ok(Reply::Removed),
            Reply::Absent => Ok(Reply::Absent),
        }
    }

    /// Whether the reply is of the request's kind.
    pub fn fits(&self, request: &Request) -> bool
        ensures { result ≡ fits self.now request.now }
    {
        match (self, request) {
            (Reply::Added | Reply::Present | Reply::SetFull, Request::Insert { .. }) => true,
            (Reply::Values(_), Request::Retrieve { .. }) => true,
            (Reply::Removed | Reply::Absent, Request::Remove { .. }) => true,
            _ => false,
        }
    }
}

impl PartialEq for Reply {
    ghost use Rattle.std.specs.Prelude.{◌≡◌, ◌↔◌, IsTrue};
    ghost use Rattle.std.specs.Cmp.{partial_equiv_from_equiv};
    ghost use Rattle.chord_map.specs.Same.{same_reply, same_reply-equiv};

    ghost eq = { same_reply };

    ghost laws = { partial_equiv_from_equiv same_reply-equiv };

    fn eq(&self, other: &Reply) -> bool
        ensures test { result ≡ same_reply self.now other.now }
        ensures same { IsTrue result ↔ (self.now ≡ other.now) }
    {
        match (self, other) {
            (Reply::Added, Reply::Added) => true,
            (Reply::Present, Reply::Present) => true,
            (Reply::SetFull, Reply::SetFull) => true,
            (Reply::Values(values), Reply::Values(others)) => values == others,
            (Reply::Removed, Reply::Removed) => true,
            (Reply::Absent, Reply::Absent) => true,
            _ => false,
        }
    }
}

impl Eq for Reply {
    ghost use Rattle.chord_map.specs.Same.{same_reply-equiv};

    ghost laws = { same_reply-equiv };
}
