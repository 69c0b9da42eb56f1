//! What a node does.
ghost use Rattle.std.specs.Prelude.{◌≡◌, ◌≢◌, ◌<◌, List, None, Some, length, true};
ghost use Rattle.std.specs.Vec.{vec_len, vec_capacity};
ghost use Rattle.chord_node.specs.declared.handovers.part_answer.PartAnswer.TheVariants.{Clash};
ghost use Rattle.chord_node.specs.declared.handovers.part_answer.Back.TheVariants.{Clash as BackClash};
ghost use Rattle.chord_model.specs.Node.{NodeStep};
ghost use Rattle.chord_model.specs.World.{with_one};
ghost use Rattle.chord_map.specs.declared.done.Done.{Done};
ghost use Rattle.chord_world.specs.Delivering.{message_by};
ghost use Rattle.chord_world.specs.State.{messages_of, targets_of};
ghost use Rattle.chord_world.specs.declared.deed.NodeDeed.TheVariants as deed;
ghost use Rattle.chord_world.specs.Deeds.{DoesIt, NodeFits, log_of};
ghost use Rattle.chord_world.specs.Linking.{IsFinger, with_finger_at};
ghost use Rattle.chord_world.specs.Taking.{outcome_of, outcome_of_given, outcome_of_freed};
ghost use Rattle.chord_world.specs.Taking.{outcome_of_back, confirmation, no_target, target_of};

use crate::outcome::Outcome;
use crate::refusal::Refusal;
use crate::sent::Sent;
use crate::steps::outgoing::{push_message, send};
use chord_handover::{Declined, Got, Ticket};
use chord_history::History;
use chord_ident::Id;
use chord_links::Peer;
use chord_map::Done;
use chord_node::{Answered, Back, Message, Node, PartAnswer};
use chord_store::EntryStore;

/// What a node does. Places are indices of its held segments.
#[derive(Clone, Copy, Debug)]
pub(crate) enum NodeDeed {
    /// It cuts the segment.
    Cut { place: u64, at: Id },
    /// It joins the segment at `behind` behind the one at `place`.
    Merge { place: u64, behind: u64 },
    /// It begins to leave.
    Leave,
    /// It is gone.
    Retire,
    /// It gives the segment to the node `to`, and sends the first part.
    Give { place: u64, to: u64 },
    /// It sends a part of an item of its outbox again.
    SendPart { to: u64, number: u64, part: u64 },
    /// It takes in the part that was sent under this number, and sends its answer.
    TakePart { message: u64 },
    /// It takes in a Got.
    TakeGot { got: Got },
    /// It takes in a Declined.
    TakeBack { declined: Declined },
    /// It sets its finger, 1 to 128, to the peer.
    SetFinger { finger: u64, peer: Peer },
    /// It answers the call that was sent under this number.
    Answer { message: u64 },
}

/// The node gives the segment, and sends the first part.
fn give<S: EntryStore>(
    node: &mut Node<S>,
    sent: &mut Vec<Sent>,
    place: usize,
    to: u64,
) -> Result<Outcome, Refusal>
    ensures { (history : List Done) → DoesIt (deed.Give place to) node.old
        (log_of sent.old.items history) result node.new (log_of sent.new.items history) }
{
    node.may_give(place, to)?;
    sent.reserve(1)?;
    let part = node.give(place, to)?;
    let message = push_message(sent, Message::Part(part), None);
    Ok(Outcome::Message(message))
}

/// The node sends the part again.
fn send_part<S: EntryStore>(
    node: &mut Node<S>,
    sent: &mut Vec<Sent>,
    to: u64,
    number: u64,
    part: u64,
) -> Result<Outcome, Refusal>
    ensures { (history : List Done) → DoesIt (deed.SendPart to number part) node.old
        (log_of sent.old.items history) result node.new (log_of sent.new.items history) }
{
    let part = node.resend_part(to, number, part)?;
    let message = send(sent, Message::Part(part), None)?;
    Ok(Outcome::Message(message))
}

/// Sends the message of an answer to a part of this handover, and gives the outcome.
fn confirm(sent: &mut Vec<Sent>, ticket: Ticket, given: PartAnswer) -> Outcome
    requires fits { given ≢ Clash }
    requires room { vec_len sent.old < vec_capacity sent.old }
    ensures sent { messages_of sent.new.items
        ≡ with_one (messages_of sent.old.items) (confirmation ticket given) }
    ensures targets { targets_of sent.new.items
        ≡ with_one (targets_of sent.old.items) (no_target (confirmation ticket given)) }
    ensures outcome { outcome_of_given given (length (messages_of sent.old.items)) ≡ Some result }
{
    match given {
        PartAnswer::Got => Outcome::Got(push_message(sent, Message::Got(ticket), None)),
        PartAnswer::Declined => Outcome::Declined(push_message(
            sent,
            Message::Declined(ticket),
            None,
        )),
        PartAnswer::Early => Outcome::Early,
        PartAnswer::Clash => unreachable!(),
        PartAnswer::Full => Outcome::NoRoom,
        PartAnswer::Part => Outcome::Noted,
    }
}

/// The outcome of a Got.
fn outcome_of_got(freed: bool) -> Outcome
    ensures { result ≡ outcome_of_freed freed }
{
    if freed {
        Outcome::Freed
    } else {
        Outcome::Unknown
    }
}

/// The outcome of a Declined.
fn outcome_of_declined(back: Back) -> Outcome
    requires { back ≢ BackClash }
    ensures { outcome_of_back back ≡ Some result }
{
    match back {
        Back::Held => Outcome::Held,
        Back::Unknown => Outcome::Unknown,
        Back::Clash => unreachable!(),
        Back::Full => Outcome::NoRoom,
    }
}

/// The node takes in the part that was sent under this number, and sends its answer.
fn take_part<S: EntryStore>(
    node: &mut Node<S>,
    sent: &mut Vec<Sent>,
    number: usize,
) -> Result<Outcome, Refusal>
    requires { NodeFits (deed.TakePart number) node.old (messages_of sent.old.items) }
    ensures { (history : List Done) → DoesIt (deed.TakePart number) node.old
        (log_of sent.old.items history) result node.new (log_of sent.new.items history) }
{
    sent.reserve(1)?;
    let Message::Part(part) = &sent[number].message else {
        unreachable!()
    };
    let ticket = Ticket::of(part);
    let given = node.on_give(part)?;
    Ok(confirm(sent, ticket, given))
}

/// Sets the finger of the node to the peer.
fn set_finger<S: EntryStore>(node: &mut Node<S>, finger: usize, peer: Peer)
    requires { IsFinger finger }
    ensures value { node.new ≡ with_finger_at finger peer node.old }
    ensures step { NodeStep node.old None node.new None None }
{
    let mut links = *node.links();
    links.set_finger(finger, peer);
    node.set_links(links);
}

/// Sends the message of an answer to this caller's call, and gives the outcome.
fn post(sent: &mut Vec<Sent>, caller: u64, number: u64, answered: Answered) -> Outcome
    requires { vec_len sent.old < vec_capacity sent.old }
    ensures sent { messages_of sent.new.items
        ≡ with_one (messages_of sent.old.items) (message_by caller number answered) }
    ensures targets { targets_of sent.new.items
        ≡ with_one (targets_of sent.old.items) (target_of answered) }
    ensures outcome { result ≡ outcome_of answered (length (messages_of sent.old.items)) }
{
    match answered {
        Answered::Told(told) => Outcome::Told(push_message(sent, Message::Told(told), None)),
        Answered::Forward(to, passed) => {
            Outcome::Forwarded(push_message(sent, Message::Ask(passed), Some(to)))
        }
        Answered::Dropped => Outcome::Dropped,
        Answered::Full => {
            Outcome::Full(push_message(sent, Message::Full { caller, number }, None))
        }
    }
}

/// Adds the executed call to the history, if there is one.
fn add_done(history: &mut History, done: Option<Done>)
    requires { history.old.has_room ≡ true }
    ensures { history.new.calls ≡ with_one history.old.calls done }
{
    if let Some(done) = done {
        history.add(done);
    }
}

/// The node answers the call that was sent under this number. An executed call goes into the
/// history, and the message of the answer is sent.
fn answer<S: EntryStore>(
    node: &mut Node<S>,
    sent: &mut Vec<Sent>,
    history: &mut History,
    number: usize,
) -> Result<Outcome, Refusal>
    requires { NodeFits (deed.Answer number) node.old (messages_of sent.old.items) }
    ensures { DoesIt (deed.Answer number) node.old (log_of sent.old.items history.old.calls) result
        node.new (log_of sent.new.items history.new.calls) }
{
    sent.reserve(1)?;
    history.reserve()?;
    let Message::Ask(ask) = &sent[number].message else {
        unreachable!()
    };
    let (caller, of) = (ask.caller, ask.number);
    let did = node.on_ask(ask)?;
    add_done(history, did.1);
    Ok(post(sent, caller, of, did.0))
}

impl NodeDeed {
    /// The node does it, and sends its message, if it has one.
    pub(crate) fn act<S: EntryStore>(
        self,
        node: &mut Node<S>,
        sent: &mut Vec<Sent>,
        history: &mut History,
    ) -> Result<Outcome, Refusal>
        requires { NodeFits self node.old (messages_of sent.old.items) }
        ensures { DoesIt self node.old (log_of sent.old.items history.old.calls) result
            node.new (log_of sent.new.items history.new.calls) }
    {
        match self {
            NodeDeed::Cut { place, at } => {
                node.cut_at(place as usize, at)?;
                Ok(Outcome::Done)
            }
            NodeDeed::Merge { place, behind } => {
                node.merge(place as usize, behind as usize)?;
                Ok(Outcome::Done)
            }
            NodeDeed::Leave => {
                node.begin_leave()?;
                Ok(Outcome::Done)
            }
            NodeDeed::Retire => {
                node.retire()?;
                Ok(Outcome::Done)
            }
            NodeDeed::Give { place, to } => give(node, sent, place as usize, to),
            NodeDeed::SendPart { to, number, part } => send_part(node, sent, to, number, part),
            NodeDeed::TakePart { message } => take_part(node, sent, message as usize),
            NodeDeed::TakeGot { got } => {
                let freed = node.on_got(&got);
                Ok(outcome_of_got(freed))
            }
            NodeDeed::TakeBack { declined } => {
                let back = node.on_declined(&declined)?;
                Ok(outcome_of_declined(back))
            }
            NodeDeed::SetFinger { finger, peer } => {
                set_finger(node, finger as usize, peer);
                Ok(Outcome::Done)
            }
            NodeDeed::Answer { message } => answer(node, sent, history, message as usize),
        }
    }
}
