//! Handovers: what givers keep of them, and what receivers take.

mod giving;
mod growths;
mod outbox;
mod parts;
mod taken;
mod taking;

use chord_handover::Payload;
use chord_ident::{Id, Span};
use chord_segment::Segment;
use std::alloc::Global;

const A: u128 = 0x40000000000000000000000000000000;

/// The whole circle.
pub const CIRCLE: Span = Span {
    after: Id { number: A },
    upto: Id { number: A },
};

/// The whole circle with no pairs, as a payload.
pub fn empty_payload(alloc: Global) -> Payload {
    Payload::new(Segment::empty(alloc, CIRCLE), Vec::new(alloc))
}
