//! Envelopes of messages under way.
ghost use Rattle.std.specs.Prelude.{◌≡◌};

use crate::naming::Naming;
use crate::view::View;
use atomic_table::Seat;
use chord_node::Message;
use std::marker::{Model, PhantomData};

/// A message that was sent, with a seat that shows it. Contracts see the message.
#[derive(Drop)]
pub struct Envelope<J: Naming> {
    pub(crate) message: Message,
    pub(crate) seat: Seat<u8, View>,
    pub(crate) of: PhantomData<J>,
}

impl<J: Naming> Model for Envelope<J> {
    ghost use Rattle.std.specs.Prelude.{◌≡◌, []};
    ghost use Rattle.chord_model.specs.declared.message.Message.{Message};
    ghost use Rattle.chord_table.specs.Seen.{Sent};

    ghost Value = { Message };

    ghost view = { λ envelope. envelope.message };

    ghost invariant = { λ envelope. (envelope.seat.table_id ≡ J.name.table) × (envelope.seat.me ≡ (Sent envelope.message, [])) };
}

impl<J: Naming> Envelope<J> {
    /// The message.
    pub fn message(&self) -> &Message
        ensures { result.now ≡ self.now }
    {
        &self.message
    }
}
