//! Delivering messages.
ghost use Rattle.std.specs.Prelude.{◌≡◌, ◌≢◌, ◌<◌, Some, [], length, slice_get};
ghost use Rattle.chord_caller.specs.declared.told.Told.{Told as ToldOf};
ghost use Rattle.chord_caller.specs.declared.ask.Ask.{Ask as AskOf};
ghost use Rattle.chord_model.specs.declared.message.Message.TheVariants.{Ask as AskMessage, Told as ToldMessage};
ghost use Rattle.chord_world.specs.State.{KeepsRing};
ghost use Rattle.chord_world.specs.Steps.{Advances};
ghost use Rattle.chord_world.specs.Delivered.{DeliverIs, outcome_heard};
ghost use Rattle.chord_world.specs.Delivering.{HearsAt, IsOwed, ReceiverIs};

use crate::deed::NodeDeed;
use crate::members::is_out;
use crate::outcome::Outcome;
use crate::refusal::{Refusal, StepFault};
use crate::world::World;
use chord_caller::{CallerCore, Heard, TakeFault, Told};
use chord_node::Message;
use chord_store::EntryStore;
use std::alloc::AllocError;

/// The caller at this index hears a copy of the reply.
fn hear_at(callers: &mut Vec<CallerCore>, place: usize, told: &Told) -> Result<Heard, AllocError>
    requires place { place < length callers.old.items }
    requires owed { IsOwed place told.now callers.old.items }
    ensures { HearsAt place told.now callers.old.items result callers.new.items }
{
    let reply = told.reply.try_copy()?;
    let copy = Told {
        caller: told.caller,
        number: told.number,
        reply,
    };
    let core = &mut callers[place];
    match core.take(copy) {
        Ok(heard) => Ok(heard),
        Err(TakeFault::Foreign) => unreachable!(),
        Err(TakeFault::Memory) => Err(AllocError),
    }
}

/// The outcome of hearing a reply.
fn outcome_of_heard(heard: Heard, caller: u64) -> Outcome
    ensures { result ≡ outcome_heard heard caller }
{
    match heard {
        Heard::Fresh => Outcome::Fresh(caller),
        Heard::Known => Outcome::Known,
    }
}

impl<S: EntryStore> World<S> {
    /// The node that the call at `place` is for, if it exists and has not crashed.
    fn receiver(&self, place: usize) -> Result<u64, Refusal>
        requires { (ask : AskOf) × (slice_get self.now.world.sent place ≡ Some (AskMessage ask)) }
        ensures { ReceiverIs place self.now result }
    {
        let Some(to) = self.sent[place].to else {
            unreachable!()
        };
        if to >= self.nodes.len() as u64 {
            return Err(Refusal::NoSuchNode);
        }
        if is_out(&self.fates, to) {
            return Err(Refusal::Step(StepFault::Crashed));
        }
        Ok(to)
    }

    /// A call is taken in by the node that it is for.
    fn deliver_ask(&mut self, place: usize) -> Result<Outcome, Refusal>
        requires ask { (ask : AskOf) × (slice_get self.old.world.sent place ≡ Some (AskMessage ask)) }
        requires created { self.old.world.nodes ≢ [] }
        ensures answer { DeliverIs place self.old result self.new }
        ensures step { Advances self.old result self.new }
        ensures ring { KeepsRing self.old self.new }
    {
        let _ = &self.sent;
        let to = self.receiver(place)?;
        let message = place as u64;
        self.act(to, NodeDeed::Answer { message })
    }

    /// A reply is taken in by its caller.
    fn deliver_told(&mut self, place: usize) -> Result<Outcome, Refusal>
        requires told { (told : ToldOf) × (slice_get self.old.world.sent place ≡ Some (ToldMessage told)) }
        requires created { self.old.world.nodes ≢ [] }
        ensures answer { DeliverIs place self.old result self.new }
        ensures step { Advances self.old result self.new }
        ensures ring { KeepsRing self.old self.new }
    {
        let Message::Told(told) = &self.sent[place].message else {
            unreachable!()
        };
        let caller = told.caller;
        chord_model::laws::headline();
        let Ok(heard) = hear_at(&mut self.callers, caller as usize, told) else {
            return Err(Refusal::Memory);
        };
        Ok(outcome_of_heard(heard, caller))
    }

    /// The message is delivered to the node or the caller that it is for.
    pub(crate) fn deliver(&mut self, message: u64) -> Result<Outcome, Refusal>
        ensures answer { DeliverIs message self.old result self.new }
        ensures step { Advances self.old result self.new }
        ensures ring { KeepsRing self.old self.new }
    {
        if self.nodes.is_empty() {
            return Err(Refusal::NotCreated);
        }
        if message >= self.sent.len() as u64 {
            return Err(Refusal::NoSuchMessage);
        }
        let place = message as usize;
        match &self.sent[place].message {
            Message::Ask(_) => self.deliver_ask(place),
            Message::Told(_) => self.deliver_told(place),
            Message::Full { .. } => Ok(Outcome::HeardFull),
            Message::Part(part) => {
                let to = part.to;
                self.act(to, NodeDeed::TakePart { message })
            }
            Message::Got(got) => {
                let got = *got;
                self.act(got.from, NodeDeed::TakeGot { got })
            }
            Message::Declined(declined) => {
                let declined = *declined;
                self.act(declined.from, NodeDeed::TakeBack { declined })
            }
            Message::Note(_) => Err(Refusal::Step(StepFault::NeedsMeet)),
        }
    }
}
