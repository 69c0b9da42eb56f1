//! What a node does with a message.
ghost use Rattle.std.specs.Prelude.{◌≡◌, ◌↔◌, ℕ, IsTrue, IfOk, IfSome, OnErr};
ghost use Rattle.chord_live_steps.specs.Dealt.{IsFor, DealIs, DealSteps, answer_to, confirmation_of, executed_for};
ghost use Rattle.chord_live_steps.specs.Keys.{IsKeyId};
ghost use Rattle.chord_model.specs.declared.message.Message.TheVariants.{Ask as AskMessage};
ghost use Rattle.chord_node.specs.Asked.{Journals, ask_done};
ghost use Rattle.chord_segment.specs.Segment.{id_of};

use crate::keyed::id_in;
use crate::target::Target;
use chord_caller::Ask;
use chord_handover::{Part, Ticket};
use chord_ident::Id;
use chord_journal::JournalBuffer;
use chord_node::{Answered, Message, Node, PartAnswer};
use chord_store::EntryStore;
use std::alloc::AllocError;

/// Whether a message is for the node of this number.
pub fn is_for(message: &Message, number: u64) -> bool
    ensures { IsTrue result ↔ IsFor message.now number }
{
    match message {
        Message::Ask(_) => true,
        Message::Part(part) => part.to == number,
        Message::Got(got) => got.from == number,
        Message::Declined(declined) => declined.from == number,
        Message::Told(_) | Message::Full { .. } | Message::Note(_) => false,
    }
}

/// What the answer to a call of this caller and number sends, and to whom.
fn answer_of(caller: u64, number: u64, answered: Answered) -> Option<(Target, Message)>
    ensures { result ≡ answer_to caller number answered }
{
    match answered {
        Answered::Told(told) => Some((Target::Caller(caller), Message::Told(told))),
        Answered::Forward(to, passed) => Some((Target::Node(to), Message::Ask(passed))),
        Answered::Full => {
            let full = Message::Full { caller, number };
            Some((Target::Caller(caller), full))
        }
        Answered::Dropped => None,
    }
}

/// What the answer to a part of a handover sends to its sender.
fn confirmation_of(part: &Part, given: PartAnswer) -> Option<(Target, Message)>
    ensures sent { result ≡ confirmation_of part.now given }
    ensures no_call { (id : ℕ) → IfSome result (λ sent. IsKeyId id sent.1) }
{
    let sender = Target::Node(part.from);
    match given {
        PartAnswer::Got => Some((sender, Message::Got(Ticket::of(part)))),
        PartAnswer::Declined => Some((sender, Message::Declined(Ticket::of(part)))),
        PartAnswer::Early | PartAnswer::Clash | PartAnswer::Full | PartAnswer::Part => None,
    }
}

/// Makes the node take a call whose key has this identifier.
fn deal_ask<S: EntryStore>(
    node: &mut Node<S>,
    id: Id,
    ask: Ask,
    journal: &mut JournalBuffer,
) -> Result<Option<(Target, Message)>, AllocError>
    requires { id.number ≡ id_of ask.request }
    ensures answer { DealIs (AskMessage ask) node.old result node.new }
    ensures step { DealSteps (AskMessage ask) node.old result node.new }
    ensures kept { OnErr result (node.new ≡ node.old) }
    ensures journal { Journals result (ask_done ask node.old) journal.old journal.new }
    ensures key { IfOk result (λ sent. IfSome sent (λ both. IsKeyId id.number both.1)) }
{
    let caller = ask.caller;
    let number = ask.number;
    let answered = node.take_ask(id, ask, journal)?;
    Ok(answer_of(caller, number, answered))
}

/// Makes the node's call for a message that is for it, and gives what the node sends. If the
/// message is a call, `id` is the identifier of its key; a call that is sent on has the same key.
/// Out of memory leaves the node unchanged.
pub fn deal_by_id<S: EntryStore>(
    node: &mut Node<S>,
    id: Id,
    message: Message,
    journal: &mut JournalBuffer,
) -> Result<Option<(Target, Message)>, AllocError>
    requires own { IsFor message node.old.number }
    requires key { IsKeyId id.number message }
    ensures answer { DealIs message node.old result node.new }
    ensures step { DealSteps message node.old result node.new }
    ensures kept { OnErr result (node.new ≡ node.old) }
    ensures journal { Journals result (executed_for message node.old) journal.old journal.new }
    ensures key { IfOk result (λ sent. IfSome sent (λ both. IsKeyId id.number both.1)) }
{
    match message {
        Message::Ask(ask) => deal_ask(node, id, ask, journal),
        Message::Part(part) => {
            let given = node.on_give(&part)?;
            Ok(confirmation_of(&part, given))
        }
        Message::Got(got) => {
            node.on_got(&got);
            Ok(None)
        }
        Message::Declined(declined) => {
            node.on_declined(&declined)?;
            Ok(None)
        }
        Message::Told(_) | Message::Full { .. } | Message::Note(_) => unreachable!(),
    }
}

/// Makes the node's call for a message that is for it, and gives what the node sends. Out of memory
/// leaves the node unchanged.
pub fn deal<S: EntryStore>(
    node: &mut Node<S>,
    message: Message,
    journal: &mut JournalBuffer,
) -> Result<Option<(Target, Message)>, AllocError>
    requires own { IsFor message node.old.number }
    ensures answer { DealIs message node.old result node.new }
    ensures step { DealSteps message node.old result node.new }
    ensures kept { OnErr result (node.new ≡ node.old) }
    ensures journal { Journals result (executed_for message node.old) journal.old journal.new }
{
    let id = id_in(&message);
    deal_by_id(node, id, message, journal)
}
