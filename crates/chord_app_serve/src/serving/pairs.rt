//! The pairs of a ring as its operator reads them.
ghost use Rattle.std.specs.Prelude.{◌≡◌, map, max, IfOk, IfSome};
ghost use Rattle.chord_app_serve.specs.ReadPairs.{first_of, operator_look, placed_look, is_stuck, rest_behind, segment_span, item_span, HasSpan, IsLostBy, IsLost, IsReadAt, IsEmptyAt, IsRead, ShowsPage};

use crate::serving::operator::RingOperator;
use chord_app_operator::{PageState, Pair, PairsPage, PairsRequest};
use chord_ident::{Id, Span};
use chord_node::PlacedPair;
use chord_sight::{NodeSight, OutboxSight, Phase, SegmentSight};
use chord_store::EntryStore;
use chord_table::Naming;
use std::alloc::{AllocError, Global};
use std::sync::Wait;
use std::time::Clock;

/// The greatest identifier, behind which comes 0.
const LAST: u128 = u128::MAX;

/// The identifier from which on pairs are read.
pub fn first_of(request: PairsRequest) -> Id
    ensures { result ≡ first_of request }
{
    match request.after {
        Some(after) => Id::new(after.number.wrapping_add(1)),
        None => Id::new(0),
    }
}

fn pair_shown(alloc: Global, placed: &PlacedPair) -> Result<Pair, AllocError>
    ensures { IfOk result (λ pair. operator_look pair ≡ placed_look placed.now) }
{
    Ok(Pair {
        key: Vec::from_slice(alloc, placed.pair.key.as_slice())?,
        value: Vec::from_slice(alloc, placed.pair.value.as_slice())?,
    })
}

fn pairs_shown(alloc: Global, pairs: &[PlacedPair]) -> Result<Vec<Pair>, AllocError>
    ensures { IfOk result (λ shown. map operator_look shown.items ≡ map placed_look pairs.now) }
{
    let mut shown = Vec::with_capacity(alloc, pairs.len())?;
    for placed in pairs {
        shown.push(pair_shown(alloc, placed)?)?;
    }
    Ok(shown)
}

/// A page of a node as an operator is told of it.
pub fn page_shown(alloc: Global, page: &chord_node::PairsPage) -> Result<PairsPage, AllocError>
    ensures { IfOk result (ShowsPage page.now) }
{
    let pairs = pairs_shown(alloc, &page.pairs)?;
    Ok(PairsPage {
        pairs,
        next: page.next,
        state: PageState::Held,
    })
}

// The identifier behind which to go on where nobody answers for what is left of the span.
fn rest_behind(first: Id, span: Span) -> Option<Id>
    ensures { result ≡ rest_behind first span }
{
    if first.number <= span.upto.number && span.upto.number < LAST {
        Some(span.upto)
    } else {
        None
    }
}

// The segment with the identifier among these.
fn segment_with(segments: &[SegmentSight], first: Id) -> Option<Span>
    ensures { IfSome result (HasSpan segment_span segments.now first) }
{
    for segment in segments {
        if segment.span.contains(first) {
            return Some(segment.span);
        }
    }
    None
}

// The first handover of the identifier among these.
fn handover_with(outbox: &[OutboxSight], first: Id) -> Option<OutboxSight>
    ensures { IfSome result (λ item. HasSpan item_span outbox.now first item.span) }
{
    for item in outbox {
        if item.span.contains(first) {
            return Some(*item);
        }
    }
    None
}

// The first handover of the identifier that a node gives.
fn given_handover(sight: &NodeSight, first: Id) -> Option<OutboxSight>
    ensures { IfSome result (λ item. IsLostBy sight.now first item.span) }
{
    handover_with(&sight.outbox, first)
}

// Whether a handover between these will not end: its giver crashed, or its receiver, which has no
// phase then.
fn is_stuck(giver: Phase, receiver: Option<chord_model::Phase>) -> bool
    ensures { result ≡ is_stuck giver receiver }
{
    match (giver, receiver) {
        (Phase::Crashed, _) => true,
        (_, None) => true,
        (_, Some(_)) => false,
    }
}

// The span with the identifier that a node lost when it crashed.
fn lost_segment(sight: &NodeSight, first: Id) -> Option<Span>
    ensures { IfSome result (IsLostBy sight.now first) }
{
    match sight.phase {
        Phase::Crashed => segment_with(&sight.segments, first),
        Phase::Staying | Phase::Leaving | Phase::Gone | Phase::Rescuing => None,
    }
}

impl<'t, 's, 'r, J: Naming, S: EntryStore, R: Wait + Clock> RingOperator<'t, 's, 'r, J, S, R> {
    /// The page of the node that holds the first identifier and has not crashed, if there is one.
    pub fn held_page(
        &self,
        alloc: Global,
        request: PairsRequest,
    ) -> Result<Option<PairsPage>, AllocError>
        ensures { IfOk result (λ found. IfSome found (IsReadAt (first_of request) (max request.limit 1))) }
    {
        let first = first_of(request);
        let limit = request.limit.max(1);
        for slot in 0..self.ring.slot_count() {
            let Some(number) = self.ring.number_at(slot) else {
                continue;
            };
            if let Some(page) = self.ring.pairs_from(self.rt, alloc, number, first, limit)? {
                let shown = page_shown(alloc, &page)?;
                drop(page);
                return Ok(Some(shown));
            }
        }
        Ok(None)
    }

    // The span of a handover of the identifier that will not end, since its giver or its receiver
    // crashed.
    fn lost_handover(&self, sight: &NodeSight, first: Id) -> Option<Span>
        ensures { IfSome result (IsLostBy sight.now first) }
    {
        let item = given_handover(sight, first)?;
        if is_stuck(sight.phase, self.ring.phase_of(self.rt, item.to)) {
            Some(item.span)
        } else {
            None
        }
    }

    // The span with the identifier that was lost with the node of this number, if it was: by a
    // segment of the node, or by a handover.
    fn lost_at(
        &self,
        alloc: Global,
        number: u64,
        first: Id,
    ) -> Result<(Option<Span>, Option<Span>), AllocError>
        ensures { IfOk result (λ found. IfSome found.0 (IsLost first) × IfSome found.1 (IsLost first)) }
    {
        let Some(sight) = self.ring.sight(self.rt, alloc, number)? else {
            return Ok((None, None));
        };
        let segment = lost_segment(&sight, first);
        let handover = self.lost_handover(&sight, first);
        drop(sight);
        Ok((segment, handover))
    }

    // The span with the identifier for which nobody answers any more, if there is one. What a node
    // lost comes before a handover.
    fn lost_span(&self, alloc: Global, first: Id) -> Result<Option<Span>, AllocError>
        ensures { IfOk result (λ found. IfSome found (IsLost first)) }
    {
        let mut lost = None;
        for slot in 0..self.ring.slot_count() {
            let Some(number) = self.ring.number_at(slot) else {
                continue;
            };
            let (segment, handover) = self.lost_at(alloc, number, first)?;
            if segment.is_some() {
                return Ok(segment);
            }
            lost = lost.or(handover);
        }
        Ok(lost)
    }

    /// The page where no node that has not crashed holds the identifier: it goes on behind what was
    /// lost with a node, or from here, where the identifier moves from node to node.
    pub fn empty_page(&self, alloc: Global, first: Id) -> Result<PairsPage, AllocError>
        ensures { IfOk result (IsEmptyAt first) }
    {
        match self.lost_span(alloc, first)? {
            Some(span) => Ok(PairsPage {
                pairs: Vec::new(alloc),
                next: rest_behind(first, span),
                state: PageState::Lost,
            }),
            None => Ok(PairsPage {
                pairs: Vec::new(alloc),
                next: Some(Id::new(first.number.wrapping_sub(1))),
                state: PageState::UnderWay,
            }),
        }
    }

    /// The page of pairs that a request asks for. One node after another is asked, each under its
    /// lock.
    pub fn page_of(&self, alloc: Global, request: PairsRequest) -> Result<PairsPage, AllocError>
        ensures { IfOk result (IsRead request) }
    {
        if let Some(page) = self.held_page(alloc, request)? {
            return Ok(page);
        }
        self.empty_page(alloc, first_of(request))
    }
}
