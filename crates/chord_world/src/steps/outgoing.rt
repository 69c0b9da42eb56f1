//! Sending messages.
ghost use Rattle.std.specs.Prelude.{◌≡◌, ◌<◌, [], ◌∷◌, ◌++◌, length};
ghost use Rattle.std.specs.Vec.{vec_len, vec_capacity};
ghost use Rattle.chord_world.specs.State.{messages_of, targets_of};
ghost use Rattle.chord_world.specs.Calling.{SentIs};

use crate::sent::Sent;
use chord_node::Message;
use std::alloc::AllocError;

/// Sends a message, for which there is room, to this node if it is an Ask.
pub(crate) fn push_message(sent: &mut Vec<Sent>, message: Message, to: Option<u64>) -> u64
    requires { vec_len sent.old < vec_capacity sent.old }
    ensures number { result ≡ length (messages_of sent.old.items) }
    ensures sent { messages_of sent.new.items ≡ messages_of sent.old.items ++ message ∷ [] }
    ensures targets { targets_of sent.new.items ≡ targets_of sent.old.items ++ to ∷ [] }
{
    let number = sent.len() as u64;
    sent.push_reserved(Sent { message, to });
    number
}

/// Sends a message, to this node if it is an Ask.
pub(crate) fn send(
    sent: &mut Vec<Sent>,
    message: Message,
    to: Option<u64>,
) -> Result<u64, AllocError>
    ensures { SentIs message to (messages_of sent.old.items) (targets_of sent.old.items) result (messages_of sent.new.items) (targets_of sent.new.items) }
{
    sent.reserve(1)?;
    Ok(push_message(sent, message, to))
}
