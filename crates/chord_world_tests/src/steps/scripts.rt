//! Scripts that several tests run.

use crate::steps::deeds::{A, C, Deed};
use chord_world::{Outcome, Refusal, StepFault, StepResult};
use std::alloc::{AllocError, Global};

/// A key moves to a joining node while its caller waits
/// for a reply; then both nodes leave, if they may.
pub const MOVING_KEY: &[Deed] = &[
    Deed::Create(A),
    Deed::Open(1),
    Deed::Retrieve(0, 0, b"abc"),
    Deed::Deliver(0),
    Deed::Deliver(1),
    Deed::Insert(0, b"abc", b"x"),
    Deed::Deliver(2),
    Deed::Deliver(3),
    // Node 1 joins behind node 0, which gives it half of the circle.
    Deed::Join(C, 0),
    Deed::Rectify(0, 1),
    Deed::Candidate(0, 1),
    Deed::Cut(0, C),
    Deed::Give(0, 1),
    Deed::Retrieve(0, 0, b"abc"),
    Deed::Deliver(5),
    Deed::Deliver(4),
    Deed::Deliver(6),
    Deed::Deliver(8),
    Deed::Deliver(4),
    Deed::Deliver(2),
    Deed::Deliver(10),
    Deed::Deliver(3),
    Deed::Deliver(7),
    Deed::Deliver(9),
    // Node 1 gives back what it holds and is gone; node 0 can't leave.
    Deed::Leave(1),
    Deed::Retire(1),
    Deed::Give(1, 0),
    Deed::Deliver(11),
    Deed::Deliver(12),
    Deed::Retire(1),
    Deed::Deliver(4),
    Deed::Leave(0),
    Deed::Retire(0),
    Deed::Retrieve(0, 1, b"abc"),
    Deed::Deliver(14),
    Deed::Deliver(15),
    Deed::Deliver(16),
];

/// The answers to a key that moves.
pub const ANSWERS_TO_MOVING_KEY: &[StepResult] = &[
    StepResult::Did(Outcome::Node(0)),
    StepResult::Did(Outcome::Caller(0)),
    StepResult::Did(Outcome::Message(0)),
    StepResult::Did(Outcome::Told(1)),
    StepResult::Did(Outcome::Fresh(0)),
    StepResult::Did(Outcome::Message(2)),
    StepResult::Did(Outcome::Told(3)),
    StepResult::Did(Outcome::Fresh(0)),
    // Node 1 joins, and is given half of the circle.
    StepResult::Did(Outcome::Node(1)),
    DONE,
    DONE,
    DONE,
    StepResult::Did(Outcome::Message(4)),
    StepResult::Did(Outcome::Message(5)),
    StepResult::Did(Outcome::Forwarded(6)),
    StepResult::Did(Outcome::Got(7)),
    StepResult::Did(Outcome::Told(8)),
    StepResult::Did(Outcome::Fresh(0)),
    StepResult::Did(Outcome::Got(9)),
    StepResult::Did(Outcome::Forwarded(10)),
    StepResult::Did(Outcome::Dropped),
    StepResult::Did(Outcome::Known),
    StepResult::Did(Outcome::Freed),
    StepResult::Did(Outcome::Unknown),
    // Node 1 leaves, and node 0 may not.
    DONE,
    StepResult::Refused(Refusal::Step(StepFault::NotEmpty)),
    StepResult::Did(Outcome::Message(11)),
    StepResult::Did(Outcome::Got(12)),
    StepResult::Did(Outcome::Freed),
    DONE,
    StepResult::Did(Outcome::Got(13)),
    DONE,
    StepResult::Refused(Refusal::Unsafe),
    StepResult::Did(Outcome::Message(14)),
    StepResult::Did(Outcome::Forwarded(15)),
    StepResult::Did(Outcome::Told(16)),
    StepResult::Did(Outcome::Fresh(0)),
];

const DONE: StepResult = StepResult::Did(Outcome::Done);

/// A call that a full store refuses is sent again after there is room.
pub const FULL_STORE_AND_A_RETRY: &[Deed] = &[
    Deed::Create(A),
    Deed::Open(1),
    Deed::Open(1),
    // Caller 0 inserts the value that the store has room for, and caller 1 another one.
    Deed::Insert(0, b"a", b"x"),
    Deed::Deliver(0),
    Deed::Deliver(1),
    Deed::Insert(1, b"a", b"y"),
    Deed::Deliver(2),
    Deed::Deliver(3),
    // Caller 1 goes on asking while its request is pending, and caller 0 removes its value.
    Deed::Retrieve(1, 0, b"a"),
    Deed::Remove(0, b"a", b"x"),
    Deed::Deliver(4),
    Deed::Deliver(5),
    Deed::Resend(1, None),
    Deed::Deliver(6),
    Deed::Deliver(7),
];

/// The answers to a full store and a retry, where the store has room for one pair.
pub const ANSWERS_TO_FULL_STORE_AND_A_RETRY: &[StepResult] = &[
    StepResult::Did(Outcome::Node(0)),
    StepResult::Did(Outcome::Caller(0)),
    StepResult::Did(Outcome::Caller(1)),
    StepResult::Did(Outcome::Message(0)),
    StepResult::Did(Outcome::Told(1)),
    StepResult::Did(Outcome::Fresh(0)),
    StepResult::Did(Outcome::Message(2)),
    StepResult::Did(Outcome::Full(3)),
    StepResult::Did(Outcome::HeardFull),
    StepResult::Refused(Refusal::Step(StepFault::WindowFull)),
    StepResult::Did(Outcome::Message(4)),
    StepResult::Did(Outcome::Told(5)),
    StepResult::Did(Outcome::Fresh(0)),
    StepResult::Did(Outcome::Message(6)),
    StepResult::Did(Outcome::Told(7)),
    StepResult::Did(Outcome::Fresh(1)),
];

/// A handover goes to a node that is gone, which declines it, while a call for its keys is under
/// way.
pub const DECLINED_HANDOVER: &[Deed] = &[
    Deed::Create(A),
    Deed::Open(1),
    Deed::Insert(0, b"abc", b"x"),
    Deed::Deliver(0),
    Deed::Deliver(1),
    Deed::Join(C, 0),
    Deed::Cut(0, C),
    Deed::Leave(1),
    Deed::Retire(1),
    Deed::Give(0, 1),
    Deed::Retrieve(0, 0, b"abc"),
    Deed::Deliver(3),
    Deed::Deliver(2),
    // The giver hears that twice, and holds the segment again.
    Deed::Deliver(4),
    Deed::Deliver(4),
    Deed::Resend(0, None),
    Deed::Deliver(5),
    Deed::Deliver(6),
];

/// Two callers tell each other by notes what they know.
pub const TWO_NOTES: &[Deed] = &[
    Deed::Create(A),
    Deed::Open(1),
    Deed::Open(1),
    Deed::Insert(1, b"a", b"x"),
    Deed::Deliver(0),
    Deed::Deliver(1),
    Deed::Show(1),
    Deed::Meet(0, 2),
    // Caller 0 knows of the value, and removes it.
    Deed::Remove(0, b"a", b"x"),
    Deed::Deliver(3),
    Deed::Deliver(4),
    Deed::Show(0),
    Deed::Meet(1, 5),
    // Caller 1 knows that it is gone, and meets its own first note too.
    Deed::Meet(1, 2),
    Deed::Retrieve(1, 0, b"a"),
    Deed::Deliver(6),
    Deed::Deliver(7),
];

/// After 65 inserts: a node joins, and is given half of the circle in two parts.
const TWO_PARTS: &[Deed] = &[
    Deed::Join(C, 0),
    Deed::Rectify(0, 1),
    Deed::Candidate(0, 1),
    Deed::Cut(0, C),
    Deed::Give(0, 1),
    Deed::SendPart(2),
    Deed::Deliver(131),
    Deed::Deliver(130),
    Deed::Deliver(130),
    Deed::Deliver(132),
    Deed::Deliver(133),
    Deed::Retrieve(0, 0, b"a"),
    Deed::Deliver(134),
    Deed::Deliver(135),
    Deed::Deliver(136),
];

/// The answers to the handover of the 65 values.
pub const ANSWERS_TO_TWO_PARTS: &[StepResult] = &[
    StepResult::Did(Outcome::Node(1)),
    DONE,
    DONE,
    DONE,
    StepResult::Did(Outcome::Message(130)),
    StepResult::Did(Outcome::Message(131)),
    // The second part comes first, and the first one twice.
    StepResult::Did(Outcome::Noted),
    StepResult::Did(Outcome::Got(132)),
    StepResult::Did(Outcome::Got(133)),
    StepResult::Did(Outcome::Freed),
    StepResult::Did(Outcome::Unknown),
    StepResult::Did(Outcome::Message(134)),
    StepResult::Did(Outcome::Forwarded(135)),
    StepResult::Did(Outcome::Told(136)),
    StepResult::Did(Outcome::Fresh(0)),
];

/// 65 values of one byte: one more than fits into a part of a handover.
pub const VALUES: &[u8] = b"ABCDEFGHIJKLMNOPQRSTUVWXYZabcdefghijklmnopqrstuvwxyz0123456789+-*";

/// Caller 0 of a new node inserts each of the values under `a`, and is answered; then its node
/// hands half of the circle over.
pub fn sixty_five_and_two_parts(alloc: Global) -> Result<Vec<Deed>, AllocError> {
    let mut deeds = Vec::new(alloc);
    deeds.push(Deed::Create(A))?;
    deeds.push(Deed::Open(1))?;
    for (before, value) in (0..65u8).zip(VALUES.chunks(1)) {
        let message = 2 * u64::from(before);
        deeds.push(Deed::Insert(0, b"a", value))?;
        deeds.push(Deed::Deliver(message))?;
        deeds.push(Deed::Deliver(message + 1))?;
    }
    for deed in TWO_PARTS {
        deeds.push(*deed)?;
    }
    Ok(deeds)
}
