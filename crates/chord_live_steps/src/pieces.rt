//! Pieces: a node gives a large segment in several handovers.
ghost use Rattle.chord_live_steps.specs.Pieces.{TrimIs, TrimSteps};

use chord_node::Node;
use chord_store::EntryStore;
use std::alloc::AllocError;

/// Cuts a piece from the held segment at this index, if that has enough pairs, and answers whether
/// it did. The piece stays at this index, and what is behind it gets the next one. A piece has more
/// than half of `most` pairs, and at most `most`, unless the pairs of one identifier bring it above
/// that.
pub fn trim<S: EntryStore>(node: &mut Node<S>, place: usize, most: u64) -> Result<bool, AllocError>
    ensures answer { TrimIs place most node.old result node.new }
    ensures step { TrimSteps node.old result node.new }
{
    let Some(span) = node.span(place) else {
        return Ok(false);
    };
    let Some(at) = node.cut_after(&span, most / 2 + 1, most) else {
        return Ok(false);
    };
    match node.cut_at(place, at) {
        Ok(()) => Ok(true),
        Err(_) => Err(AllocError),
    }
}
