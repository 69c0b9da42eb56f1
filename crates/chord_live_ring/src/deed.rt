//! What a node does, as it is counted.
ghost use Rattle.std.specs.Prelude.{◌≡◌};
ghost use Rattle.chord_live_ring.specs.Deeds.{kind_of, deed_at_ask, deed_of};

use chord_node::Message;

/// Something that a node did.
#[derive(Clone, Copy, Debug, PartialEq, Eq)]
pub enum Deed {
    /// It told the reply to a request.
    Told,
    /// It passed a request on.
    Forwarded,
    /// It sent nothing for a request, which was too old, or memory was out.
    Dropped,
    /// It said that its store has no room for a pair.
    Full,
    /// It put a segment into its outbox, for another node.
    Gave,
    /// It took a segment that another node gave.
    Took,
    /// It took a segment back that its receiver declined.
    TookBack,
    /// It had a round of upkeep.
    Ticked,
}

/// The kind of a message.
#[derive(Clone, Copy, Debug, PartialEq, Eq)]
pub enum MessageKind {
    Ask,
    Told,
    Full,
    Part,
    Got,
    Declined,
    Note,
}

impl MessageKind {
    /// The kind of a message.
    pub fn of(message: &Message) -> MessageKind
        ensures { result ≡ kind_of message.now }
    {
        match message {
            Message::Ask(_) => MessageKind::Ask,
            Message::Told(_) => MessageKind::Told,
            Message::Full { .. } => MessageKind::Full,
            Message::Part(_) => MessageKind::Part,
            Message::Got(_) => MessageKind::Got,
            Message::Declined(_) => MessageKind::Declined,
            Message::Note(_) => MessageKind::Note,
        }
    }
}

impl Deed {
    /// What a node did with a request, by the kind of the message that it sent.
    fn at_ask(sent: Option<MessageKind>) -> Deed
        ensures { result ≡ deed_at_ask sent }
    {
        match sent {
            Some(MessageKind::Told) => Deed::Told,
            Some(MessageKind::Ask) => Deed::Forwarded,
            Some(MessageKind::Full) => Deed::Full,
            _ => Deed::Dropped,
        }
    }

    /// What a node did with a message, by the kind of the message that it sent, and how many
    /// segments it held before and after.
    pub fn of(
        came: MessageKind,
        sent: Option<MessageKind>,
        before: usize,
        after: usize,
    ) -> Option<Deed>
        ensures { result ≡ deed_of came sent before after }
    {
        match came {
            MessageKind::Ask => Some(Deed::at_ask(sent)),
            MessageKind::Part if before < after => Some(Deed::Took),
            MessageKind::Declined if before < after => Some(Deed::TookBack),
            _ => None,
        }
    }
}
