//! Sending and meeting notes.
ghost use Rattle.std.specs.Prelude.{◌<◌, length};
ghost use Rattle.chord_world.specs.State.{KeepsRing};
ghost use Rattle.chord_world.specs.Steps.{Advances};
ghost use Rattle.chord_world.specs.Calling.{CallerIs, ShowIs, MeetsAt, MeetIs};

use crate::outcome::Outcome;
use crate::refusal::{Refusal, StepFault};
use crate::steps::outgoing::send;
use crate::world::World;
use chord_caller::{CallerCore, Note};
use chord_node::Message;
use chord_store::EntryStore;
use std::alloc::AllocError;

/// The caller at this index meets the note.
fn meet_at(callers: &mut Vec<CallerCore>, place: usize, note: &Note) -> Result<(), AllocError>
    requires { place < length callers.old.items }
    ensures { MeetsAt place note.now callers.old.items result callers.new.items }
{
    let core = &mut callers[place];
    core.meet(note)
}

impl<S: EntryStore> World<S> {
    /// Whether a node was created and the caller exists.
    pub(crate) fn is_caller(&self, caller: u64) -> Result<(), Refusal>
        ensures { CallerIs caller self.now result }
    {
        if self.nodes.is_empty() {
            return Err(Refusal::NotCreated);
        }
        if caller >= self.callers.len() as u64 {
            return Err(Refusal::NoSuchCaller);
        }
        Ok(())
    }

    /// The caller sends a note of what it knows.
    pub(crate) fn show(&mut self, caller: u64) -> Result<Outcome, Refusal>
        ensures answer { ShowIs caller self.old result self.new }
        ensures step { Advances self.old result self.new }
        ensures ring { KeepsRing self.old self.new }
    {
        self.is_caller(caller)?;
        let note = self.callers[caller as usize].show()?;
        let message = send(&mut self.sent, Message::Note(note), None)?;
        Ok(Outcome::Message(message))
    }

    /// The caller learns the calls of the note that it did not know.
    pub(crate) fn meet(&mut self, caller: u64, message: u64) -> Result<Outcome, Refusal>
        ensures answer { MeetIs caller message self.old result self.new }
        ensures step { Advances self.old result self.new }
        ensures ring { KeepsRing self.old self.new }
    {
        self.is_caller(caller)?;
        if message >= self.sent.len() as u64 {
            return Err(Refusal::NoSuchMessage);
        }
        let Message::Note(note) = &self.sent[message as usize].message else {
            return Err(Refusal::Step(StepFault::NotNote));
        };
        meet_at(&mut self.callers, caller as usize, note)?;
        Ok(Outcome::Met)
    }
}
