//! Changes of the held segments.
ghost use Rattle.std.specs.Prelude.{◌≡◌, ◌<◌, ◌^◌, ◌↔◌, ℕ, IsTrue, Any};
ghost use Rattle.chord_ident.specs.Circle.{Meet};
ghost use Rattle.chord_segment.specs.Segment.{RoomySegment};
ghost use Rattle.chord_node.specs.Moves.{CutHeld, MergeHeld, merge_fault_of};
ghost use Rattle.chord_model.specs.Stock.{holds};
ghost use Rattle.chord_node.specs.View.{segments_of};

use crate::fault::{CutAtFault, MergeFault};
use chord_ident::{Id, Span};
use chord_segment::{Segment, SegmentJoinFault};
use std::alloc::Global;
use std::mem::replace;

/// Cuts the segment at this index. The part behind the point gets the next index.
pub(crate) fn cut_segment(held: &mut Vec<Segment>, place: usize, at: Id) -> Result<(), CutAtFault>
    ensures answer { CutHeld place at (segments_of held.old.items) result (segments_of held.new.items) }
    ensures circle { at.number < 2 ^ 128 }
    ensures covers { (x : ℕ) → x < 2 ^ 128 → holds x (segments_of held.new.items) ≡ holds x (segments_of held.old.items) }
{
    if held.len() <= place {
        return Err(CutAtFault::NoSegment);
    }
    let span = held[place].span();
    if span.cut(at).is_err() {
        return Err(CutAtFault::NotInside);
    }
    if held.reserve(1).is_err() {
        return Err(CutAtFault::Memory);
    }
    let segment = &mut held[place];
    let Ok(second) = segment.split_off(at) else {
        return Err(CutAtFault::Memory);
    };
    match held.insert(place + 1, second) {
        Ok(()) => Ok(()),
        Err(_) => unreachable!(),
    }
}

/// Why a merge is refused.
fn merge_fault(fault: SegmentJoinFault) -> MergeFault
    ensures { result ≡ merge_fault_of fault }
{
    match fault {
        SegmentJoinFault::NotAdjacent => MergeFault::NotAdjacent,
        SegmentJoinFault::Overlap => MergeFault::Overlap,
        SegmentJoinFault::Twice => MergeFault::Twice,
        SegmentJoinFault::Memory => MergeFault::Memory,
    }
}

/// Joins the segment at `other` behind the one at `place`, at that index.
pub(crate) fn merge_segments(
    alloc: Global,
    held: &mut Vec<Segment>,
    place: usize,
    other: usize,
) -> Result<(), MergeFault>
    ensures answer { MergeHeld place other (segments_of held.old.items) result (segments_of held.new.items) }
    ensures covers { (x : ℕ) → x < 2 ^ 128 → holds x (segments_of held.new.items) ≡ holds x (segments_of held.old.items) }
{
    if held.len() <= place || held.len() <= other || place == other {
        return Err(MergeFault::NoSegment);
    }
    let span = held[place].span();
    let behind = held[other].span();
    if span.upto != behind.after {
        return Err(MergeFault::NotAdjacent);
    }
    let mut next = replace(&mut held[other], Segment::empty(alloc, behind));
    let first = &mut held[place];
    match first.absorb(&mut next) {
        Ok(()) => {
            held.remove(other);
            Ok(())
        }
        Err(fault) => {
            held[other] = next;
            Err(merge_fault(fault))
        }
    }
}

/// Whether the span overlaps a held one.
pub(crate) fn meets_any(held: &[Segment], span: Span) -> bool
    ensures { IsTrue result ↔ Any (λ (segment : RoomySegment). Meet span.after.number span.upto.number segment.segment.span.after.number segment.segment.span.upto.number) held.now }
{
    held.iter().any(|segment| span.meets(segment.span()))
}
