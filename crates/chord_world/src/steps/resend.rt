//! Sending requests again.
ghost use Rattle.chord_world.specs.State.{KeepsRing};
ghost use Rattle.chord_world.specs.Steps.{Advances};
ghost use Rattle.chord_world.specs.Calling.{WantedIs, AgainIs, ResendStepIs};

use crate::outcome::Outcome;
use crate::refusal::{Refusal, StepFault};
use crate::steps::outgoing::send;
use crate::world::World;
use chord_caller::{Ask, CallerCore, ResendFault};
use chord_node::Message;
use chord_store::EntryStore;

/// The number to send again: the one given, else the least pending one.
fn wanted(core: &CallerCore, named: Option<u64>) -> Option<u64>
    ensures { WantedIs named core.now result }
{
    match named {
        Some(number) => Some(number),
        None => core.pending(),
    }
}

/// The request of that number, as it is sent again.
fn ask_again(core: &CallerCore, named: Option<u64>) -> Result<Ask, Refusal>
    ensures { AgainIs named core.now result }
{
    let Some(number) = wanted(core, named) else {
        return Err(Refusal::Step(StepFault::Idle));
    };
    match core.resend(number) {
        Ok(ask) => Ok(ask),
        Err(ResendFault::Idle) => Err(Refusal::Step(StepFault::Idle)),
        Err(ResendFault::Memory) => Err(Refusal::Memory),
    }
}

impl<S: EntryStore> World<S> {
    /// The caller sends a pending request again.
    pub(crate) fn resend(
        &mut self,
        caller: u64,
        via: u64,
        number: Option<u64>,
    ) -> Result<Outcome, Refusal>
        ensures answer { ResendStepIs caller via number self.old result self.new }
        ensures step { Advances self.old result self.new }
        ensures ring { KeepsRing self.old self.new }
    {
        self.are_there(caller, via)?;
        let ask = ask_again(&self.callers[caller as usize], number)?;
        let message = send(&mut self.sent, Message::Ask(ask), Some(via))?;
        Ok(Outcome::Message(message))
    }
}
