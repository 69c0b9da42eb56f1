//! Executed calls.
ghost use Rattle.std.specs.Prelude.{◌≡◌, IfOk, IsOk};
ghost use Rattle.chord_map.specs.Copies.{IsShortReply, IsShortRequest};
ghost use Rattle.std.specs.Option.{option_copied};
ghost use Rattle.chord_map.specs.History.{done_at};

use crate::reply::Reply;
use crate::request::Request;
use std::alloc::{AllocError, Global};

/// A call that was executed: who made it, its number, its request and the reply.
#[derive(Debug, PartialEq, Eq, Drop)]
pub struct Done {
    pub caller: u64,
    pub number: u64,
    pub request: Request,
    pub reply: Reply,
}

impl Done {
    /// An equal copy.
    pub fn try_copy(&self) -> Result<Done, AllocError>
        ensures copy { IfOk result (λ copy. copy ≡ self.now) }
        ensures short { IsShortRequest self.now.request → IsShortReply self.now.reply → IsOk result }
    {
        Ok(Done {
            caller: self.caller,
            number: self.number,
            request: self.request.try_copy()?,
            reply: self.reply.try_copy()?,
        })
    }
}

/// The entry of a call in the list, if the list has the call.
#[tactic(auto, unfolding(crate::specs::History::done_at))]
pub fn find_done(dones: &[Done], caller: u64, number: u64) -> Option<&Done>
    ensures { option_copied result ≡ done_at caller number dones.now }
{
    dones
        .iter()
        .find(|done| done.caller == caller && done.number == number)
}

/// Equal copies of the calls.
pub fn copy_dones(alloc: Global, dones: &[Done]) -> Result<Vec<Done>, AllocError>
    ensures { IfOk result (λ copies. copies.items ≡ dones.now) }
{
    let mut copies = Vec::with_capacity(alloc, dones.len())?;
    for done in dones {
        copies.push(done.try_copy()?)?;
    }
    Ok(copies)
}
