//! Adjoining segments: a node joins what came to it in pieces.
ghost use Rattle.std.specs.Prelude.{◌≡◌, ◌^◌, ◌-◌, true, None, Some, IfSome, slice_get};
ghost use Rattle.chord_live_steps.specs.Adjoining.{goes_on, is_next, Adjoin, JoinIs, JoinSteps, NoneAdjoin, NoneGoesOn};
ghost use Rattle.chord_node.specs.View.{span_of};

use crate::tidying::is_within;
use chord_ident::{Id, Span};
use chord_node::{MergeFault, Node};
use chord_store::EntryStore;
use std::alloc::AllocError;

/// Whether a span begins at `end`, and lies inside the node's own.
fn is_next(own: Span, end: Id, span: Span) -> bool
    ensures { result ≡ is_next own end span }
{
    span.after == end && is_within(span, own)
}

/// The index and the span of the first held segment that begins where the one at `place` ends, and
/// lies inside the node's own span.
fn find_next<S: EntryStore>(
    node: &Node<S>,
    own: Span,
    place: usize,
    end: Id,
) -> Option<(usize, Span)>
    ensures some { IfSome result (λ found. (span_of (slice_get node.now.held found.0) ≡ Some found.1) × (goes_on own place end found.0 found.1 ≡ true)) }
    ensures none { result ≡ None → NoneGoesOn own place end node.now.held (2 ^ 64 - 1) }
{
    for other in 0..usize::MAX {
        let span = node.span(other)?;
        if other != place && is_next(own, end, span) {
            return Some((other, span));
        }
    }
    None
}

/// The indices of two held segments inside the node's own span, of which the second begins where
/// the first ends.
fn find_adjoining<S: EntryStore>(node: &Node<S>, own: Span) -> Option<(usize, usize)>
    ensures some { IfSome result (λ found. Adjoin own node.now.held found.0 found.1) }
    ensures none { result ≡ None → NoneAdjoin own node.now.held (2 ^ 64 - 1) }
{
    for place in 0..usize::MAX {
        let span = node.span(place)?;
        if is_within(span, own) {
            if let Some((other, _)) = find_next(node, own, place, span.upto) {
                return Some((place, other));
            }
        }
    }
    None
}

/// Joins two held segments that adjoin and lie between the predecessor and the node, if there are
/// any, and answers whether it did. Two that have the same reply are not joined.
pub fn join_adjoining<S: EntryStore>(
    node: &mut Node<S>,
    predecessor: Id,
) -> Result<bool, AllocError>
    ensures answer { JoinIs predecessor node.old result node.new }
    ensures step { JoinSteps node.old result node.new }
{
    let own = Span::new(predecessor, node.links().me().id);
    let Some((place, other)) = find_adjoining(node, own) else {
        return Ok(false);
    };
    match node.merge(place, other) {
        Ok(()) => Ok(true),
        Err(MergeFault::Memory) => Err(AllocError),
        Err(_) => Ok(false),
    }
}
