//! A message under way, with the identifier of its key.
ghost use Rattle.std.specs.Prelude.{◌≡◌};
ghost use Rattle.chord_live_steps.specs.Keys.{IsKeyId};

use chord_ident::Id;
use chord_node::Message;
use chord_table::{Envelope, Naming};

/// An envelope with the identifier of its key if it is a call, so that this is computed once, and
/// under no lock.
#[derive(Drop)]
pub struct Keyed<J: Naming> {
    pub envelope: Envelope<J>,
    pub id: Id,
    ghost known: { IsKeyId id.number envelope },
}

/// The identifier of a call's key, and 0 for any other message.
pub(crate) fn id_in(message: &Message) -> Id
    ensures { IsKeyId result.number message.now }
{
    match message {
        Message::Ask(ask) => Id::of_bytes(ask.request.key()),
        Message::Told(_) | Message::Full { .. } | Message::Note(_) => Id::new(0),
        Message::Part(_) | Message::Got(_) | Message::Declined(_) => Id::new(0),
    }
}

impl<J: Naming> Keyed<J> {
    /// The envelope with the identifier of its key.
    pub fn new(envelope: Envelope<J>) -> Keyed<J>
        ensures { result.envelope ≡ envelope }
    {
        let id = id_in(envelope.message());
        Keyed { envelope, id }
    }
}
