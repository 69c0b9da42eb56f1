//! Beginning a handover.
ghost use Rattle.std.specs.Prelude.{◌≡◌, IfOk};
ghost use Rattle.chord_handover.specs.Handover.{part_at};
ghost use Rattle.chord_handover.specs.Payload.{handover_of_payload};
ghost use Rattle.chord_model.specs.Stock.{IsStocked};
ghost use Rattle.chord_store.specs.Inside.{pairs_inside};

use chord_handover::{Part, Ticket, copy_chunk, count_parts};
use chord_map::Pair;
use chord_segment::Segment;
use chord_store::EntryStore;
use std::alloc::{AllocError, Global};

/// The first part of the handover of a segment, and the pairs that go with it.
pub(crate) fn prepare_give<S: EntryStore>(
    alloc: Global,
    store: &S,
    segment: &Segment,
    ticket: Ticket,
) -> Result<(Part, Vec<Pair>), AllocError>
    ensures pairs { IfOk result (λ both. both.1.items ≡ pairs_inside segment.now.segment.span (S.content store.now)) }
    ensures part { IfOk result (λ both. both.0 ≡ part_at (handover_of_payload ticket (record { segment = segment.now.segment; pairs = pairs_inside segment.now.segment.span (S.content store.now) })) 1) }
{
    let pairs = store.copy_span(alloc, &segment.span())?;
    let first = copy_chunk(alloc, &pairs, 1)?;
    let copy = segment.try_copy()?;
    let of = count_parts(&pairs);
    let part = Part {
        from: ticket.from,
        to: ticket.to,
        number: ticket.number,
        place: 1,
        of,
        segment: Some(Box::new(alloc, copy)?),
        pairs: first,
    };
    Ok((part, pairs))
}
