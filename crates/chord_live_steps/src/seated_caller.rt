//! The core of a caller that stores all that it took, with its seat.
ghost use Rattle.std.specs.Prelude.{◌≡◌, ◌++◌, [], ◌∷◌, IfOk, IfSome, OnErr, Ok, None, true, is_some};
ghost use Rattle.chord_caller.specs.Caller.{known_calls, submission_at};
ghost use Rattle.chord_live_steps.specs.Asking.{MeetIs};
ghost use Rattle.chord_live_steps.specs.Ending.{IsTaken};
ghost use Rattle.chord_map.specs.History.{done_at};
ghost use Rattle.chord_model.specs.declared.message.Message.TheVariants.{Note as NoteMessage};

use crate::note_envelope::NoteEnvelope;
use crate::seated_core::SeatedCore;
use chord_caller::CallerCore;
use chord_map::{Done, Reply};
use chord_node::Message;
use chord_table::{Naming, Shared};
use std::alloc::AllocError;

impl<J: Naming> SeatedCore<J, CallerCore> {
    /// The calls whose replies it took, in the order taken.
    pub fn mine(&self) -> &[Done]
        ensures { result.now ≡ self.now.caller.mine }
    {
        self.core.mine()
    }

    /// The calls that it learned by others' notes.
    pub fn told(&self) -> &[Done]
        ensures { result.now ≡ self.now.caller.told }
    {
        self.core.told()
    }

    /// Whether the request of this number was submitted.
    pub fn was_submitted(&self, number: u64) -> bool
        ensures { result ≡ is_some (submission_at number self.now.caller.submitted) }
    {
        self.core.was_submitted(number)
    }

    /// A copy of the reply to the request of this number, if it was taken.
    pub fn reply_to(&self, number: u64) -> Result<Option<Reply>, AllocError>
        ensures some { IfOk result (λ found. IfSome found (IsTaken self.now.caller number)) }
        ensures none { result ≡ Ok None → done_at self.now.caller.number number self.now.caller.mine ≡ None }
        ensures err { OnErr result (is_some (done_at self.now.caller.number number self.now.caller.mine) ≡ true) }
    {
        match self.core.taken(number) {
            Some(done) => match done.reply.try_copy() {
                Ok(reply) => Ok(Some(reply)),
                Err(_) => Err(AllocError),
            },
            None => Ok(None),
        }
    }

    /// A note of all that the caller knows.
    pub fn show(&mut self, table: &Shared<J>) -> Result<NoteEnvelope<J>, AllocError>
        ensures same { self.new ≡ self.old }
        ensures ok { IfOk result (λ shown. shown ≡ record { caller = self.old.caller.number; done = known_calls self.old.caller }) }
    {
        let note = self.core.show()?;
        let envelope = self.seat.send(table, &self.core, Message::Note(note));
        Ok(NoteEnvelope { envelope })
    }

    /// Learns the calls of a note that the caller did not know.
    pub fn meet(&mut self, table: &Shared<J>, shown: NoteEnvelope<J>) -> Result<(), AllocError>
        ensures messages { self.new.messages ≡ self.old.messages ++ NoteMessage shown ∷ [] }
        ensures answer { MeetIs shown self.old.caller result self.new.caller }
    {
        match self.seat.receive(table, shown.envelope) {
            Message::Note(note) => match self.core.meet(&note) {
                Ok(()) => {
                    self.seat.local(table, &self.core);
                    Ok(())
                }
                Err(_) => Err(AllocError),
            },
            _ => unreachable!(),
        }
    }
}
