//! The seats of callers.
ghost use Rattle.std.specs.Prelude.{◌≡◌, ◌++◌, [], ◌∷◌, Contains, Option, None, Some};
ghost use Rattle.chord_caller.specs.Caller.{AskLetter, CallerStep, Letter, with_given_up, with_request};
ghost use Rattle.chord_caller.specs.Client.{caller_after_hearing};
ghost use Rattle.chord_model.specs.Letters.{message_of};
ghost use Rattle.chord_model.specs.declared.message.Message.TheVariants.{Ask as AskMessage, Told as ToldMessage};
ghost use Rattle.chord_table.specs.Shown.{CallerShown};
ghost use Rattle.chord_table.specs.Views.{MayCall};

use crate::actor_seat::ActorSeat;
use crate::envelope::Envelope;
use crate::laws::each_scene_holds;
use crate::naming::Naming;
use crate::shared::Shared;
use crate::witness::Witness;
use chord_caller::{Ask, CallerCore, Told};
use chord_node::Message;
use std::marker::{Brand, Model};

/// A caller's seat. Contracts see the caller, and the messages that came to it.
#[derive(Drop)]
pub struct CallerSeat<J: Naming> {
    pub(crate) seat: ActorSeat<J>,
}

impl<J: Naming> Model for CallerSeat<J> {
    ghost use Rattle.std.specs.Prelude.{◌≡◌};
    ghost use Rattle.chord_table.specs.Seen.{OfCaller};
    ghost use Rattle.chord_table.specs.Views.{CallerSight, caller_in};

    ghost Value = { CallerSight };

    ghost view = { λ a. record { caller = caller_in a.seat.actor; messages = a.seat.messages } };

    ghost invariant = { λ a. a.seat.actor ≡ OfCaller (caller_in a.seat.actor) };
}

impl<J: Naming> CallerSeat<J> {
    /// Records an event of the caller that sends nothing, or whose message is lost.
    pub fn local(&mut self, table: &Shared<J>, after: &CallerCore)
        requires event { (sent : Option Letter) × MayCall self.old.caller self.old.messages after.now sent }
        ensures { self.new ≡ record self.old { caller = after.now } }
    {
        self.seat.local::<Brand, CallerCore>(table, after);
    }

    /// Records an event of the caller, and sends its message.
    pub fn send(&mut self, table: &Shared<J>, after: &CallerCore, message: Message) -> Envelope<J>
        requires event { (sent : Letter) × (message ≡ message_of sent) × MayCall self.old.caller self.old.messages after.now (Some sent) }
        ensures seat { self.new ≡ record self.old { caller = after.now } }
        ensures envelope { result ≡ message }
    {
        self.seat.send::<Brand, CallerCore>(table, after, message)
    }

    /// Records that the caller submitted a call, and sends it. No core has to hold what the seat
    /// shows.
    pub fn submit(&mut self, table: &Shared<J>, ask: Ask) -> Envelope<J>
        requires event { CallerStep self.old.caller None (with_request ask.request self.old.caller) (Some (AskLetter ask)) }
        ensures seat { self.new ≡ record self.old { caller = with_request ask.request self.old.caller } }
        ensures envelope { result ≡ AskMessage ask }
    {
        self.seat.send::<Brand, ()>(table, &(), Message::Ask(ask))
    }

    /// Sends a pending call again, which leaves the caller as it is.
    pub fn resend(&mut self, table: &Shared<J>, ask: Ask) -> Envelope<J>
        requires event { CallerStep self.old.caller None self.old.caller (Some (AskLetter ask)) }
        ensures seat { self.new ≡ self.old }
        ensures envelope { result ≡ AskMessage ask }
    {
        let again = Message::Ask(ask);
        self.seat.send::<Brand, ()>(table, &(), again)
    }

    /// Records that the caller gave its pending call of this number up.
    pub fn give_up(&mut self, table: &Shared<J>, number: u64)
        requires event { CallerStep self.old.caller None (with_given_up number self.old.caller) None }
        ensures { self.new ≡ record self.old { caller = with_given_up number self.old.caller } }
    {
        self.seat.local::<Brand, u64>(table, &number);
    }

    /// Records that the caller heard a reply that came.
    pub fn hear(&mut self, table: &Shared<J>, told: &Told)
        requires came { Contains self.old.messages (ToldMessage told.now) }
        ensures { self.new ≡ record self.old { caller = caller_after_hearing told.now self.old.caller } }
    {
        self.seat.local::<Brand, Told>(table, told);
    }

    /// Takes in a message for the caller.
    pub fn receive(&mut self, table: &Shared<J>, envelope: Envelope<J>) -> Message
        ensures message { result ≡ envelope }
        ensures seat { self.new ≡ record self.old {
          messages = self.old.messages ++ envelope ∷ [];
        } }
    {
        self.seat.receive(table, envelope)
    }

    /// A witness of the caller as it is now.
    pub fn witness(&mut self, table: &Shared<J>) -> Witness<J>
        ensures same { self.new ≡ self.old }
        ensures noted { result ≡ self.old.caller ∷ [] }
    {
        self.seat.testify(table)
    }

    /// Proves that all that the caller took is in one legal history, each call once, in the order
    /// that callers had seen.
    pub fn look(&mut self, table: &Shared<J>)
        ensures same { self.new ≡ self.old }
        ensures shown { CallerShown self.old }
    {
        each_scene_holds();
        self.seat.look(table);
    }
}
