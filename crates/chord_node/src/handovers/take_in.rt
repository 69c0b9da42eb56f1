//! Taking in parts of handovers.
ghost use Rattle.std.specs.Prelude.{◌≡◌, ◌+◌, ◌<◌, ◌^◌};
ghost use Rattle.chord_segment.specs.Marks.{mark_of};
ghost use Rattle.chord_model.specs.Stock.{IsStocked};
ghost use Rattle.chord_node.specs.Received.{WholeIs, NextIs};
ghost use Rattle.chord_node.specs.View.{segments_of};

use crate::handovers::hold::{PutFault, make_held};
use crate::handovers::part_answer::PartAnswer;
use chord_handover::{Gather, Part, Payload, Taken};
use chord_segment::Segment;
use chord_store::EntryStore;
use std::alloc::AllocError;

/// Takes the sender's next handover, which is whole.
fn take_whole<S: EntryStore>(
    held: &mut Vec<Segment>,
    store: &mut S,
    taken: &mut Taken,
    part: &Part,
    payload: Payload,
) -> Result<PartAnswer, AllocError>
    requires stocked { IsStocked (segments_of held.old.items) (S.content store.old) }
    requires next { part.now.number ≡ mark_of part.now.from taken.old.taken.last + 1 }
    requires fits { part.now.number < 2 ^ 64 }
    ensures answer { WholeIs part.now payload (segments_of held.old.items) (S.content store.old) (S.limit store.old) taken.old.taken result (segments_of held.new.items) (S.content store.new) taken.new.taken }
    ensures limit { S.limit store.new ≡ S.limit store.old }
    ensures stocked { IsStocked (segments_of held.new.items) (S.content store.new) }
{
    if taken.reserve().is_err() {
        drop(payload);
        return Err(AllocError);
    }
    match make_held(held, store, &payload) {
        Ok(()) => {}
        Err(fault) => {
            drop(payload);
            return match fault {
                PutFault::Clash => Ok(PartAnswer::Clash),
                PutFault::Full => Ok(PartAnswer::Full),
                PutFault::Memory => Err(AllocError),
            };
        }
    }
    let (segment, pairs) = payload.into_parts();
    drop(pairs);
    held.push_reserved(segment);
    taken.mark(part.from);
    Ok(PartAnswer::Got)
}

/// Buffers a part of the sender's next handover, or takes the handover if the part makes it whole.
pub(crate) fn take_next<S: EntryStore>(
    held: &mut Vec<Segment>,
    store: &mut S,
    taken: &mut Taken,
    part: &Part,
) -> Result<PartAnswer, AllocError>
    requires stocked { IsStocked (segments_of held.old.items) (S.content store.old) }
    requires next { part.now.number ≡ mark_of part.now.from taken.old.taken.last + 1 }
    requires fits { part.now.number < 2 ^ 64 }
    ensures answer { NextIs part.now (segments_of held.old.items) (S.content store.old) (S.limit store.old) taken.old.taken result (segments_of held.new.items) (S.content store.new) taken.new.taken }
    ensures limit { S.limit store.new ≡ S.limit store.old }
    ensures stocked { IsStocked (segments_of held.new.items) (S.content store.new) }
{
    match taken.whole_with(part) {
        Ok(Gather::Unfit) => Ok(PartAnswer::Clash),
        Ok(Gather::More) => match taken.buffer(part) {
            Ok(()) => Ok(PartAnswer::Part),
            Err(fault) => Err(fault),
        },
        Ok(Gather::Whole(payload)) => take_whole(held, store, taken, part, payload),
        Err(fault) => Err(fault),
    }
}
