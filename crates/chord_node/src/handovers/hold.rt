//! Putting payloads into a node's store.
ghost use Rattle.std.specs.Prelude.{◌≡◌, ◌<◌, OnOk};
ghost use Rattle.std.specs.Vec.{vec_len, vec_capacity};
ghost use Rattle.chord_handover.specs.Payload.{IsPayload};
ghost use Rattle.chord_model.specs.Stock.{IsStocked};
ghost use Rattle.chord_node.specs.Received.{PutIs};
ghost use Rattle.chord_node.specs.View.{segments_of};

use crate::handovers::held::meets_any;
use chord_handover::Payload;
use chord_segment::Segment;
use chord_store::{EntryStore, StoreFault};

/// Why a payload's pairs are not put into the store.
#[derive(Clone, Copy, Debug, PartialEq, Eq)]
pub enum PutFault {
    Clash,
    Full,
    Memory,
}

/// Puts a payload's pairs into the store, if its span overlaps no held one.
pub(crate) fn put_pairs<S: EntryStore>(
    held: &[Segment],
    store: &mut S,
    payload: &Payload,
) -> Result<(), PutFault>
    requires { IsStocked (segments_of held.now) (S.content store.old) }
    ensures answer { PutIs payload.now (segments_of held.now) (S.content store.old) (S.limit store.old) result (S.content store.new) }
    ensures limit { S.limit store.new ≡ S.limit store.old }
    ensures payload { IsPayload payload.now }
{
    let span = payload.segment().span();
    let pairs = payload.pairs();
    if meets_any(held, span) {
        return Err(PutFault::Clash);
    }
    match store.put_all(&span, pairs) {
        Ok(()) => Ok(()),
        Err(StoreFault::Full) => Err(PutFault::Full),
        Err(StoreFault::Memory) => Err(PutFault::Memory),
    }
}

/// Puts a payload's pairs into the store, and reserves room for one more held segment.
pub(crate) fn make_held<S: EntryStore>(
    held: &mut Vec<Segment>,
    store: &mut S,
    payload: &Payload,
) -> Result<(), PutFault>
    requires { IsStocked (segments_of held.old.items) (S.content store.old) }
    ensures answer { PutIs payload.now (segments_of held.old.items) (S.content store.old) (S.limit store.old) result (S.content store.new) }
    ensures limit { S.limit store.new ≡ S.limit store.old }
    ensures payload { IsPayload payload.now }
    ensures held { held.new.items ≡ held.old.items }
    ensures room { OnOk result (vec_len held.new < vec_capacity held.new) }
{
    put_pairs(held, store, payload)?;
    if held.reserve(1).is_err() {
        let span = payload.segment().span();
        store.take_out(&span);
        return Err(PutFault::Memory);
    }
    Ok(())
}
