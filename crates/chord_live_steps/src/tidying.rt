//! Tidying: a node holds only what is its own.
ghost use Rattle.std.specs.Prelude.{◌≡◌, ◌^◌, ◌-◌, true, false, Some, None, IfSome, slice_get};
ghost use Rattle.chord_node.specs.View.{span_of};
ghost use Rattle.chord_live_steps.specs.Tidy.{is_inside, AreInside, TidyIs, TidySteps};

use chord_ident::{Id, Span};
use chord_node::{CutAtFault, Node, Phase};
use chord_store::EntryStore;
use std::alloc::AllocError;

/// What tidying did.
#[derive(Clone, Copy, Debug, PartialEq, Eq)]
pub enum Tidied {
    Nothing,
    /// A held segment was cut.
    Cut,
    /// The held segment at this index is another node's.
    Give(usize),
}

/// Whether a span lies inside the node's own.
pub(crate) fn is_within(span: Span, own: Span) -> bool
    ensures { result ≡ is_inside own span }
{
    own.after == own.upto
        || (span.cut(own.after).is_err() && span.cut(own.upto).is_err() && own.contains(span.upto))
}

/// The index and the span of the first held segment that is not inside the node's own span.
fn find_outside<S: EntryStore>(node: &Node<S>, own: Span) -> Option<(usize, Span)>
    ensures some { IfSome result (λ found. (span_of (slice_get node.now.held found.0) ≡ Some found.1) × (is_inside own found.1 ≡ false) × AreInside own node.now.held found.0) }
    ensures none { result ≡ None → AreInside own node.now.held (2 ^ 64 - 1) }
{
    for place in 0..usize::MAX {
        let span = node.span(place)?;
        if !is_within(span, own) {
            return Some((place, span));
        }
    }
    None
}

/// At a staying node, takes the first held segment that is not between its predecessor and itself.
/// Cuts it at the predecessor, else at the node, if one of these lies within; else the segment is
/// to be given.
pub fn tidy<S: EntryStore>(node: &mut Node<S>, predecessor: Id) -> Result<Tidied, AllocError>
    ensures answer { TidyIs predecessor node.old result node.new }
    ensures step { TidySteps node.old result node.new }
{
    let me = node.links().me().id;
    if node.phase() != Phase::Staying {
        return Ok(Tidied::Nothing);
    }
    let Some((place, span)) = find_outside(node, Span::new(predecessor, me)) else {
        return Ok(Tidied::Nothing);
    };
    let at = if span.cut(predecessor).is_ok() {
        predecessor
    } else {
        me
    };
    match node.cut_at(place, at) {
        Ok(()) => Ok(Tidied::Cut),
        Err(CutAtFault::Memory) => Err(AllocError),
        Err(_) => Ok(Tidied::Give(place)),
    }
}
