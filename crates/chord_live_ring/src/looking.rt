//! How a node is seen: its lists, item by item.
ghost use Rattle.std.specs.Prelude.{◌≡◌, true, false, Some, length, map, slice_get, IfOk, IfSome, IfNone};
ghost use Rattle.chord_handover.specs.Handover.{Item};
ghost use Rattle.chord_ident.specs.Circle.{in_span};
ghost use Rattle.chord_model.specs.declared.holder.Holder.TheVariants.{UnderWay};
ghost use Rattle.chord_segment.specs.Callers.{calls_in};
ghost use Rattle.chord_live_ring.specs.Sights.{capped, segment_sight, outbox_sight, known_fingers, look_in, number_in, numbers_of, phase_seen, sight_of, GivesIs, HoldingIs};
ghost use Rattle.chord_live_steps.specs.Pieces.{goes_to, GivesToIs};

use chord_ident::Id;
use chord_links::{Fingers, Peer};
use chord_node::{Holder, Node};
use chord_segment::{CallerReplies, Segment};
use chord_sight::{NodeCounts, NodeSight, OutboxSight, Phase, SegmentSight};
use chord_store::EntryStore;
use std::alloc::{AllocError, Global};

/// The phase of a node that acts or does not, and crashed or not: one that crashed and acts is being
/// rescued.
pub(crate) fn phase_seen(acts: bool, crashed: bool, phase: chord_node::Phase) -> Phase
    ensures { result ≡ phase_seen acts crashed phase }
{
    if !acts {
        return Phase::Crashed;
    }
    match phase {
        chord_node::Phase::Gone => Phase::Gone,
        _ if crashed => Phase::Rescuing,
        chord_node::Phase::Staying => Phase::Staying,
        chord_node::Phase::Leaving => Phase::Leaving,
    }
}

/// The number of another node, if one is known.
fn number_in(peer: Option<Peer>) -> Option<u64>
    ensures { result ≡ number_in peer }
{
    match peer {
        Some(peer) => Some(peer.number),
        None => None,
    }
}

/// How many fingers are known.
pub(crate) fn known_fingers(fingers: &Fingers) -> u64
    ensures { result ≡ known_fingers fingers.now }
{
    let mut known = 0u64;
    for place in 0..128usize {
        if fingers.get(place + 1).is_some() {
            known += 1;
        }
    }
    known
}

/// The numbers of these nodes.
pub(crate) fn numbers_of(alloc: Global, peers: &[Peer]) -> Result<Vec<u64>, AllocError>
    ensures { IfOk result (λ numbers. numbers.items ≡ numbers_of peers.now) }
{
    let mut numbers = Vec::with_capacity(alloc, peers.len())?;
    for peer in peers {
        numbers.push(peer.number)?;
    }
    Ok(numbers)
}

/// How many replies are kept for these callers; at most 2^64 - 1 are told.
fn kept_for(callers: &[CallerReplies]) -> u64
    ensures { result ≡ capped (length (calls_in callers.now)) }
{
    let mut kept = 0u64;
    for own in callers {
        kept = kept.saturating_add(own.len() as u64);
    }
    kept
}

/// A held segment.
fn segment_sight(segment: &Segment) -> SegmentSight
    ensures { result ≡ segment_sight segment.now.segment }
{
    SegmentSight {
        span: segment.span(),
        kept: kept_for(segment.callers()),
    }
}

/// The held segment at this index.
#[tactic(auto, using(crate::proofs::Looked::some_seen, crate::proofs::Looked::none_seen))]
fn segment_at<S: EntryStore>(node: &Node<S>, place: usize) -> Option<SegmentSight>
    ensures { result ≡ slice_get (map segment_sight node.now.held) place }
{
    let segment = node.segment(place)?;
    Some(segment_sight(segment))
}

/// All segments that a node holds, in order.
#[tactic(auto, using(crate::proofs::Looked::taken_on))]
pub(crate) fn segments_of<S: EntryStore>(
    alloc: Global,
    node: &Node<S>,
) -> Result<Vec<SegmentSight>, AllocError>
    ensures { IfOk result (λ segments. segments.items ≡ map segment_sight node.now.held) }
{
    let mut segments = Vec::with_capacity(alloc, node.held_count())?;
    for place in 0..node.held_count() {
        let Some(segment) = segment_at(node, place) else {
            unreachable!()
        };
        segments.push(segment)?;
    }
    Ok(segments)
}

/// The item of a node's outbox at this index.
#[tactic(auto, using(crate::proofs::Looked::some_item, crate::proofs::Looked::none_item))]
fn item_at<S: EntryStore>(node: &Node<S>, place: u64) -> Option<OutboxSight>
    ensures { result ≡ slice_get (map outbox_sight node.now.outbox) place }
{
    let (to, number, span) = node.outbox_item(place)?;
    let pairs = node.outbox_pairs(place)?;
    Some(OutboxSight {
        to,
        number,
        span,
        pairs: pairs as u64,
    })
}

/// All items of a node's outbox, in order.
#[tactic(auto, using(crate::proofs::Looked::taken_on))]
pub(crate) fn outbox_of<S: EntryStore>(
    alloc: Global,
    node: &Node<S>,
) -> Result<Vec<OutboxSight>, AllocError>
    ensures { IfOk result (λ items. items.items ≡ map outbox_sight node.now.outbox) }
{
    let mut items = Vec::with_capacity(alloc, node.outbox_len())?;
    for place in 0..node.outbox_len() {
        let Some(item) = item_at(node, place as u64) else {
            unreachable!()
        };
        items.push(item)?;
    }
    Ok(items)
}

/// The item of a node's outbox at this index, if it hands the identifier over.
fn handover_at<S: EntryStore>(node: &Node<S>, place: usize, id: Id) -> Option<Holder>
    ensures some { IfSome result (λ found. (item : Item) × (slice_get node.now.outbox place ≡ Some item) × (in_span item.segment.span id.number ≡ true) × (found ≡ UnderWay node.now.number item.to item.number)) }
    ensures none { IfNone result ((item : Item) → slice_get node.now.outbox place ≡ Some item → in_span item.segment.span id.number ≡ false) }
{
    let from = node.number();
    let (to, number, span) = node.outbox_item(place as u64)?;
    if span.contains(id) {
        Some(Holder::UnderWay { from, to, number })
    } else {
        None
    }
}

/// A node's first handover of the identifier, if its outbox has one.
fn handover_of<S: EntryStore>(node: &Node<S>, id: Id) -> Option<Holder>
    ensures { GivesIs id.number node.now result }
{
    for place in 0..node.outbox_len() {
        if let Some(found) = handover_at(node, place, id) {
            return Some(found);
        }
    }
    None
}

/// The node if it holds the identifier, else its first handover of it, if its outbox has one.
pub(crate) fn holding_of<S: EntryStore>(node: &Node<S>, id: Id) -> Option<Holder>
    ensures { HoldingIs id.number node.now result }
{
    if node.holds(id) {
        return Some(Holder::Node(node.number()));
    }
    handover_of(node, id)
}

/// Whether the item of a node's outbox at this index goes to a node.
fn item_goes_to<S: EntryStore>(node: &Node<S>, place: usize, to: u64) -> bool
    ensures { result ≡ goes_to to (slice_get node.now.outbox place) }
{
    match node.outbox_item(place as u64) {
        Some((receiver, _, _)) => receiver == to,
        None => false,
    }
}

/// Whether a node's outbox has an item that goes to another node.
pub(crate) fn gives_to<S: EntryStore>(node: &Node<S>, to: u64) -> bool
    ensures { GivesToIs to node.now.outbox result }
{
    for place in 0..node.outbox_len() {
        if item_goes_to(node, place, to) {
            return true;
        }
    }
    false
}

/// How a node looks, which is seen in this phase.
pub(crate) fn sight_of<S: EntryStore>(
    alloc: Global,
    node: &Node<S>,
    counts: NodeCounts,
    phase: Phase,
) -> Result<NodeSight, AllocError>
    ensures { IfOk result (λ sight. look_in sight ≡ sight_of phase node.now counts) }
{
    let links = node.links();
    let successors = numbers_of(alloc, links.list().entries())?;
    let segments = segments_of(alloc, node)?;
    let outbox = outbox_of(alloc, node)?;
    Ok(NodeSight {
        number: node.number(),
        id: links.me().id,
        phase,
        predecessor: number_in(links.predecessor()),
        successors,
        fingers: known_fingers(links.fingers()),
        segments,
        pairs: node.pair_count(),
        outbox,
        counts,
    })
}
