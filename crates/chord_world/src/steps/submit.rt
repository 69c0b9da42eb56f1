//! Submitting calls.
ghost use Rattle.std.specs.Prelude.{◌<◌, length};
ghost use Rattle.chord_world.specs.State.{KeepsRing};
ghost use Rattle.chord_world.specs.Steps.{SubmitStepIs, Advances};
ghost use Rattle.chord_world.specs.Sending.{MaySubmit, CanSubmit, SubmitsAt};

use crate::outcome::Outcome;
use crate::refusal::Refusal;
use crate::steps::outgoing::push_message;
use crate::world::World;
use chord_caller::{Ask, CallerCore};
use chord_map::Request;
use chord_node::Message;
use chord_store::EntryStore;
use std::alloc::AllocError;

/// The caller at this index submits a copy of the request; it can fail for memory only.
fn submit_at(
    callers: &mut Vec<CallerCore>,
    place: usize,
    request: &Request,
) -> Result<Ask, AllocError>
    requires place { place < length callers.old.items }
    requires can { CanSubmit place request.now callers.old.items }
    ensures { SubmitsAt place request.now callers.old.items result callers.new.items }
{
    let copy = request.try_copy()?;
    let core = &mut callers[place];
    match core.submit(copy) {
        Ok(ask) => Ok(ask),
        Err(_) => Err(AllocError),
    }
}

impl<S: EntryStore> World<S> {
    /// Whether the caller may submit the request at the node, apart from memory.
    fn may_submit(&self, caller: u64, via: u64, request: &Request) -> Result<(), Refusal>
        ensures { MaySubmit caller via request.now self.now result }
    {
        self.are_there(caller, via)?;
        match self.callers[caller as usize].refusal(request) {
            Some(fault) => Err(Refusal::from(fault)),
            None => Ok(()),
        }
    }

    /// The caller submits a copy of the request, which is sent to the node.
    pub(crate) fn submit(
        &mut self,
        caller: u64,
        via: u64,
        request: &Request,
    ) -> Result<Outcome, Refusal>
        ensures answer { SubmitStepIs caller via request.now self.old result self.new }
        ensures step { Advances self.old result self.new }
        ensures ring { KeepsRing self.old self.new }
    {
        self.may_submit(caller, via, request)?;
        if self.sent.reserve(1).is_err() {
            return Err(Refusal::Memory);
        }
        let Ok(ask) = submit_at(&mut self.callers, caller as usize, request) else {
            return Err(Refusal::Memory);
        };
        let number = push_message(&mut self.sent, Message::Ask(ask), Some(via));
        Ok(Outcome::Message(number))
    }
}
