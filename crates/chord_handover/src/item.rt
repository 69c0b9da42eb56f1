//! Items of the outbox.

use crate::payload::Payload;
use std::marker::Model;

/// A payload on its way to a node, under its number there.
#[derive(Debug, Drop)]
pub struct Item {
    pub to: u64,
    pub number: u64,
    pub payload: Payload,
}

impl Model for Item {
    ghost use Rattle.chord_handover.specs.Handover.{Item as ItemOf};

    ghost Value = { ItemOf };

    ghost view = { λ item. record { to = item.to; number = item.number; segment = item.payload.segment; pairs = item.payload.pairs } };
}
