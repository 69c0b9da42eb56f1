//! The seat of any actor.
ghost use Rattle.std.specs.Prelude.{◌≡◌, ◌++◌, [], ◌∷◌, Option, Some};
ghost use Rattle.chord_model.specs.declared.message.Message.{Message as Content};
ghost use Rattle.chord_table.specs.Seen.{OfCaller};
ghost use Rattle.chord_table.specs.Views.{IsTrueOfSome, MayBecome, MayRelinkTo, caller_in, view_of};

use crate::envelope::Envelope;
use crate::event::Event;
use crate::moves::{Local, Look, Pair, Post, Receive, Relink, Testify, Vacate};
use crate::naming::Naming;
use crate::shared::Shared;
use crate::view::View;
use crate::witness::Witness;
use atomic_table::Seat;
use chord_node::Message;
use std::marker::{Model, PhantomData};

/// An actor's seat, with the index of the word that its steps are at. Contracts see the actor, and
/// messages that were sent.
#[derive(Drop)]
pub(crate) struct ActorSeat<J: Naming> {
    pub(crate) seat: Seat<u8, View>,
    pub(crate) word: usize,
    pub(crate) of: PhantomData<J>,
}

impl<J: Naming> Model for ActorSeat<J> {
    ghost use Rattle.std.specs.Prelude.{◌≡◌, ◌<◌, []};
    ghost use Rattle.chord_table.specs.Views.{Sight, sight_of, view_of};

    ghost Value = { Sight };

    ghost view = { λ a. sight_of a.seat.me.0 };

    ghost invariant = { λ a. (a.seat.table_id ≡ J.name.table)
        × (a.seat.me ≡ (view_of (sight_of a.seat.me.0), [])) × (a.word < J.name.table.words) };
}

impl<J: Naming> ActorSeat<J> {
    /// Records an event whose message, if any, is lost. The proof names the new state by `E.actor`;
    /// `after` is passed only so that the proof can refer to it.
    pub(crate) fn local<E: Event, A>(&mut self, table: &Shared<J>, after: &A)
        requires event { (sent : Option Content) × MayBecome self.old.actor self.old.messages E.actor sent }
        ensures { self.new ≡ record self.old { actor = E.actor } }
    {
        let _ = after;
        let word = self.word;
        table.table.shared.load::<Local<E>>(&mut self.seat, word);
    }

    /// Records a step of the ring at the actor, which is a node, beside another node: both seats
    /// become one, and two again. The proof names the new state by `E.actor`.
    pub(crate) fn relink<E: Event, A>(
        &mut self,
        table: &Shared<J>,
        other: &mut ActorSeat<J>,
        after: &A,
    )
        requires step { MayRelinkTo self.old.actor other.old.actor E.actor }
        ensures mine { self.new ≡ record self.old { actor = E.actor } }
        ensures other { other.new ≡ other.old }
    {
        let _ = after;
        let (_, nothing) = table.table.shared.load_new_seat::<Vacate>(0);
        let theirs = std::mem::replace(&mut other.seat, nothing);
        table.table.shared.join_seat::<Pair>(&mut self.seat, theirs);
        let back = table.table.shared.split_seat::<Relink<E>>(&mut self.seat);
        other.seat = back;
    }

    /// The same at the node alone, where the step is one whatever other nodes have.
    pub(crate) fn relink_alone<E: Event, A>(&mut self, table: &Shared<J>, after: &A)
        requires step { MayRelinkTo self.old.actor self.old.actor E.actor }
        ensures { self.new ≡ record self.old { actor = E.actor } }
    {
        let _ = after;
        let at = self.word;
        table.table.shared.load::<Local<E>>(&mut self.seat, at);
    }

    /// Records an event and sends its message. The proof names the new state by `E.actor`.
    pub(crate) fn send<E: Event, A>(
        &mut self,
        table: &Shared<J>,
        after: &A,
        message: Message,
    ) -> Envelope<J>
        requires picked { E.message ≡ message }
        requires event { MayBecome self.old.actor self.old.messages E.actor (Some message) }
        ensures seat { self.new ≡ record self.old { actor = E.actor } }
        ensures envelope { result ≡ message }
    {
        let _ = after;
        let seat = table.table.shared.split_seat::<Post<E>>(&mut self.seat);
        Envelope {
            message,
            seat,
            of: PhantomData,
        }
    }

    /// Takes in a message that was sent to the actor.
    pub(crate) fn receive(&mut self, table: &Shared<J>, envelope: Envelope<J>) -> Message
        ensures message { result ≡ envelope }
        ensures seat { self.new ≡ record self.old {
          messages = self.old.messages ++ envelope ∷ [];
        } }
    {
        // The message is moved behind the step, so that it is moved once.
        table
            .table
            .shared
            .join_seat::<Receive>(&mut self.seat, envelope.seat);
        envelope.message
    }

    /// A witness of the caller that the seat shows.
    pub(crate) fn testify(&mut self, table: &Shared<J>) -> Witness<J>
        requires calls { self.old.actor ≡ OfCaller (caller_in self.old.actor) }
        ensures same { self.new ≡ self.old }
        ensures noted { result ≡ caller_in self.old.actor ∷ [] }
    {
        let seat = table.table.shared.split_seat::<Testify>(&mut self.seat);
        Witness {
            seat,
            of: PhantomData,
        }
    }

    /// Proves that what the seat shows is true of some scene that steps lead to.
    pub(crate) fn look(&mut self, table: &Shared<J>)
        ensures same { self.new ≡ self.old }
        ensures shown { IsTrueOfSome (view_of self.old) }
    {
        table.table.shared.load::<Look>(&mut self.seat, 0);
    }
}
