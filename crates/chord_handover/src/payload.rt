//! Payloads of handovers.
ghost use Rattle.std.specs.Prelude.{◌≡◌, ◌≤◌, ◌==◌, if◌then◌else◌, Some, None, IfOk};
ghost use Rattle.chord_handover.specs.Handover.{parts_in, part_at};
ghost use Rattle.chord_handover.specs.Known.{boxed_in};
ghost use Rattle.chord_handover.specs.Payload.{IsPayload, handover_of_payload};

use crate::part::{Part, copy_chunk, count_parts};
use crate::ticket::Ticket;
use chord_map::Pair;
use chord_segment::Segment;
use std::alloc::{AllocError, Global};
use std::marker::Model;

/// A segment with its pairs, which are strictly sorted,
/// lie in its span, and are at most 1,000 for each key.
#[derive(Debug, Drop)]
pub struct Payload {
    segment: Segment,
    pairs: Vec<Pair>,
}

impl Model for Payload {
    ghost use Rattle.chord_handover.specs.Payload.{Payload as PayloadOf, IsPayload};

    ghost Value = { PayloadOf };

    ghost view = { λ payload. record { segment = payload.segment.segment; pairs = payload.pairs.items } };

    ghost invariant = { λ payload. IsPayload (record { segment = payload.segment.segment; pairs = payload.pairs.items }) };
}

impl Payload {
    /// The segment with these pairs.
    pub fn new(segment: Segment, pairs: Vec<Pair>) -> Payload
        requires { IsPayload (record { segment = segment.segment; pairs = pairs.items }) }
        ensures { result ≡ record { segment = segment.segment; pairs = pairs.items } }
    {
        Payload { segment, pairs }
    }

    /// The segment of the payload.
    pub fn segment(&self) -> &Segment
        ensures { result.now.segment ≡ self.now.segment }
    {
        &self.segment
    }

    /// The pairs of the payload.
    pub fn pairs(&self) -> &[Pair]
        ensures value { result.now ≡ self.now.pairs }
        ensures rules { IsPayload self.now }
    {
        self.pairs.as_slice()
    }

    /// The segment and the pairs.
    pub fn into_parts(self) -> (Segment, Vec<Pair>)
        ensures segment { result.0.segment ≡ self.segment }
        ensures pairs { result.1.items ≡ self.pairs }
        ensures rules { IsPayload self }
    {
        (self.segment, self.pairs)
    }

    /// One of the parts of the payload's handover.
    pub fn part(&self, ticket: Ticket, part: u64) -> Result<Part, AllocError>
        requires some { 1 ≤ part }
        requires within { part ≤ parts_in self.now.pairs }
        ensures { IfOk result (λ found. found ≡ part_at (handover_of_payload ticket self.now) part) }
    {
        let alloc = *self.pairs.allocator();
        let segment = self.segment_for(alloc, part)?;
        let pairs = copy_chunk(alloc, &self.pairs, part)?;
        Ok(Part {
            from: ticket.from,
            to: ticket.to,
            number: ticket.number,
            place: part,
            of: count_parts(&self.pairs),
            segment,
            pairs,
        })
    }

    /// A copy of the segment for the first part; none for the others.
    fn segment_for(&self, alloc: Global, part: u64) -> Result<Option<Box<Segment>>, AllocError>
        ensures { IfOk result (λ segment. boxed_in segment ≡ (if part == 1 then Some self.now.segment else None)) }
    {
        if part != 1 {
            return Ok(None);
        }
        let copy = self.segment.try_copy()?;
        Ok(Some(Box::new(alloc, copy)?))
    }

    /// An equal copy.
    pub fn try_copy(&self) -> Result<Payload, AllocError>
        ensures { IfOk result (λ copy. copy ≡ self.now) }
    {
        let segment = self.segment.try_copy()?;
        let pairs = copy_pairs(*self.pairs.allocator(), &self.pairs)?;
        Ok(Payload { segment, pairs })
    }
}

/// Equal copies of the pairs.
pub fn copy_pairs(alloc: Global, pairs: &[Pair]) -> Result<Vec<Pair>, AllocError>
    ensures { IfOk result (λ copies. copies.items ≡ pairs.now) }
{
    let mut copies = Vec::with_capacity(alloc, pairs.len())?;
    for pair in pairs {
        copies.push(pair.try_copy()?)?;
    }
    Ok(copies)
}
