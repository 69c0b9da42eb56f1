//! Parts of handovers.
ghost use Rattle.std.specs.Prelude.{◌≡◌, ◌↔◌, IsTrue, IfOk};
ghost use Rattle.chord_handover.specs.Handover.{IsFilled, parts_in, chunk};
ghost use Rattle.chord_handover.specs.Known.{boxed_in};

use crate::payload::copy_pairs;
use crate::ticket::Ticket;
use chord_map::Pair;
use chord_segment::Segment;
use std::alloc::{AllocError, Global};
use std::marker::Model;

/// The most pairs in a part.
pub const PART_PAIRS: usize = 64;

/// One of the parts of a handover, counted from 1. The first has the segment, in a box: messages
/// are moved often, and only this one would be large.
#[derive(Debug, Drop)]
pub struct Part {
    pub from: u64,
    pub to: u64,
    pub number: u64,
    pub place: u64,
    pub of: u64,
    pub segment: Option<Box<Segment>>,
    pub pairs: Vec<Pair>,
}

impl Model for Part {
    ghost use Rattle.chord_handover.specs.Handover.{Part as PartOf, IsPart};
    ghost use Rattle.chord_handover.specs.Known.{boxed_in};

    ghost Value = { PartOf };

    ghost view = { λ part. record { from = part.from; to = part.to; number = part.number; place = part.place; of = part.of; segment = boxed_in part.segment; pairs = part.pairs.items } };

    ghost invariant = { λ part. IsPart (record { from = part.from; to = part.to; number = part.number; place = part.place; of = part.of; segment = boxed_in part.segment; pairs = part.pairs.items }) };
}

impl Part {
    /// Whether it has as many pairs as its number asks for.
    pub(crate) fn is_filled(&self) -> bool
        ensures { IsTrue result ↔ IsFilled self.now }
    {
        let count = self.pairs.len();
        if self.place < self.of {
            count == PART_PAIRS
        } else {
            count <= PART_PAIRS && (count > 0 || self.of == 1)
        }
    }

    /// Whether both are equal.
    pub fn equals(&self, other: &Part) -> bool
        ensures { IsTrue result ↔ (self.now ≡ other.now) }
    {
        Ticket::of(self) == Ticket::of(other)
            && self.place == other.place
            && self.of == other.of
            && same_segments(&self.segment, &other.segment)
            && same_pairs(&self.pairs, &other.pairs)
    }

    /// An equal copy.
    pub fn try_copy(&self) -> Result<Part, AllocError>
        ensures { IfOk result (λ copy. copy ≡ self.now) }
    {
        let alloc = *self.pairs.allocator();
        let segment = copy_segment(alloc, &self.segment)?;
        let pairs = copy_pairs(alloc, &self.pairs)?;
        Ok(Part {
            from: self.from,
            to: self.to,
            number: self.number,
            place: self.place,
            of: self.of,
            segment,
            pairs,
        })
    }
}

/// An equal copy of a segment, if there is one.
pub fn copy_segment(
    alloc: Global,
    segment: &Option<Box<Segment>>,
) -> Result<Option<Box<Segment>>, AllocError>
    ensures { IfOk result (λ copy. boxed_in copy ≡ boxed_in segment.now) }
{
    match segment {
        Some(segment) => {
            let copy = segment.try_copy()?;
            Ok(Some(Box::new(alloc, copy)?))
        }
        None => Ok(None),
    }
}

/// Whether both segments are equal, or both are `None`.
fn same_segments(first: &Option<Box<Segment>>, second: &Option<Box<Segment>>) -> bool
    ensures { IsTrue result ↔ (boxed_in first.now ≡ boxed_in second.now) }
{
    match (first, second) {
        (Some(first), Some(second)) => first.equals(second),
        (None, None) => true,
        _ => false,
    }
}

/// The number of parts for these pairs.
pub fn count_parts(pairs: &[Pair]) -> u64
    ensures { result ≡ parts_in pairs.now }
{
    (pairs.len() as u64).div_ceil(64).max(1)
}

/// The pairs of a part, counted from 1; none for a part after the last.
pub fn chunk_of(pairs: &[Pair], part: u64) -> &[Pair]
    ensures { result.now ≡ chunk part pairs.now }
{
    let before = part.saturating_sub(1);
    if before >= count_parts(pairs) {
        return &[];
    }
    let rest = &pairs[PART_PAIRS * before as usize..];
    &rest[..rest.len().min(PART_PAIRS)]
}

/// Copies of the pairs of a part.
pub fn copy_chunk(alloc: Global, pairs: &[Pair], part: u64) -> Result<Vec<Pair>, AllocError>
    ensures { IfOk result (λ copies. copies.items ≡ chunk part pairs.now) }
{
    copy_pairs(alloc, chunk_of(pairs, part))
}

/// Whether the lists are equal.
pub fn same_pairs(first: &[Pair], second: &[Pair]) -> bool
    ensures { IsTrue result ↔ (first.now ≡ second.now) }
{
    first == second
}
