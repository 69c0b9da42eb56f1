//! A scan that checks whether pairs belong to a payload.
ghost use Rattle.std.specs.Prelude.{◌≡◌, ◌++◌, List, [], ◌∷◌};
ghost use Rattle.chord_map.specs.declared.pair.Pair.{Pair};
ghost use Rattle.chord_map.specs.Map.{pair_cmp};
ghost use Rattle.chord_segment.specs.Segment.{Segment as SegmentOf};
ghost use Rattle.chord_handover.specs.Passed.{HasPassed, Goes};

use chord_ident::Id;
use chord_map::Pair;
use chord_map::limits::SET_VALUES;
use chord_segment::Segment;
use std::cmp::Ordering;

/// The last pair that the scan has passed, and how many have its key.
#[derive(Clone, Copy, Debug)]
pub(crate) struct PairScan<'a> {
    last: Option<&'a Pair>,
    count: usize,
}

impl<'a> PairScan<'a> {
    /// A scan that has passed nothing.
    pub(crate) fn new() -> PairScan<'a>
        ensures { (segment : SegmentOf) → HasPassed segment [] result }
    {
        PairScan {
            last: None,
            count: 0,
        }
    }

    /// The scan after these pairs; `None` if they can't
    /// be the next pairs of a payload of this segment.
    pub(crate) fn walk(self, segment: &Segment, pairs: &'a [Pair]) -> Option<PairScan<'a>>
        ensures { (passed : List Pair) → HasPassed segment.now.segment passed self.entry → Goes segment.now.segment (passed ++ pairs.now) result }
    {
        let mut run = self;
        for pair in pairs {
            match run.step(segment, pair) {
                Some(next) => run = next,
                None => return None,
            }
        }
        Some(run)
    }

    /// The scan after one more pair.
    fn step(self, segment: &Segment, pair: &'a Pair) -> Option<PairScan<'a>>
        ensures { (passed : List Pair) → HasPassed segment.now.segment passed self.entry → Goes segment.now.segment (passed ++ pair.now ∷ []) result }
    {
        if !segment.span().contains(Id::of_bytes(pair.key.as_slice())) {
            return None;
        }
        let Some(last) = self.last else {
            return Some(PairScan {
                last: Some(pair),
                count: 1,
            });
        };
        match compare(last, pair) {
            Ordering::Less => {}
            _ => return None,
        }
        if last.key != pair.key {
            return Some(PairScan {
                last: Some(pair),
                count: 1,
            });
        }
        if self.count >= SET_VALUES {
            return None;
        }
        Some(PairScan {
            last: Some(pair),
            count: self.count + 1,
        })
    }
}

/// Compares the pairs by key and then by value.
fn compare(first: &Pair, second: &Pair) -> Ordering
    ensures { result ≡ pair_cmp first.now second.now }
{
    match first.key.as_slice().cmp(&second.key.as_slice()) {
        Ordering::Equal => first.value.as_slice().cmp(&second.value.as_slice()),
        unequal => unequal,
    }
}
