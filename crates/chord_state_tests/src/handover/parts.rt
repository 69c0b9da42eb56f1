//! Parts of handovers of the whole circle to node 1. Their pairs are under `abc`, with the numbers
//! from some number on as values.
ghost use Rattle.std.specs.Prelude.{◌≤◌};

use super::CIRCLE;
use chord_handover::Part;
use chord_map::{Bytes, Pair};
use chord_segment::Segment;
use std::alloc::{AllocError, Global};

/// Part `place` of `of` of a handover of node `from`. It has `count` pairs, whose values are the
/// numbers from `first` on.
#[derive(Clone, Copy, PartialEq, Eq)]
pub struct PartRow {
    pub from: u64,
    pub number: u64,
    pub place: u64,
    pub of: u64,
    pub first: u64,
    pub count: u64,
}

fn pair(alloc: Global, value: u64) -> Result<Pair, AllocError> {
    Ok(Pair {
        key: Bytes::from_slice(alloc, b"abc")?,
        value: Bytes::from_slice(alloc, &value.to_be_bytes())?,
    })
}

/// The pairs of the part.
pub fn pairs_of(alloc: Global, row: PartRow) -> Result<Vec<Pair>, AllocError> {
    let mut pairs = Vec::new(alloc);
    for value in row.first..row.first.saturating_add(row.count) {
        pairs.push(pair(alloc, value)?)?;
    }
    Ok(pairs)
}

/// The part of this row. Only the first has the segment.
fn with_pairs(row: PartRow, segment: Box<Segment>, pairs: Vec<Pair>) -> Part
    requires low { 1 ≤ row.place }
    requires high { row.place ≤ row.of }
{
    let segment = if row.place == 1 {
        Some(segment)
    } else {
        drop(segment);
        None
    };
    Part {
        from: row.from,
        to: 1,
        number: row.number,
        place: row.place,
        of: row.of,
        segment,
        pairs,
    }
}

/// The part of this row, if there is memory for it.
pub fn part_with(alloc: Global, row: PartRow) -> Result<Part, AllocError>
    requires low { 1 ≤ row.place }
    requires high { row.place ≤ row.of }
{
    let segment = Box::new(alloc, Segment::empty(alloc, CIRCLE))?;
    let pairs = pairs_of(alloc, row)?;
    Ok(with_pairs(row, segment, pairs))
}

/// Whether the values of these pairs under `abc` are the numbers from 0 on.
pub fn are_from_zero(pairs: &[Pair]) -> bool {
    pairs.iter().enumerate().all(|(place, pair)| {
        let value = (place as u64).to_be_bytes();
        pair.key.as_slice() == b"abc".as_slice() && pair.value.as_slice() == value.as_slice()
    })
}
