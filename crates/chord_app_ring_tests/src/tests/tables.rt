//! A ring as a table, and shares of the circle.

use super::sights::{QUARTER, ring, span};
use crate::checks::check;
use crate::samples::empty_ring;
use chord_app_operator::{Stretch, hundredths, ring_table};
use chord_sight::SegmentSight;
use std::test::Fail;

/// The table of the ring of these tests.
const TABLE: &str = concat!(
    "up 12 s, 5 of 16 slots used, 37 gone, 4 successors, 5 connections, 3 of 64 callers open\n",
    "node  identifier                        phase       share      pairs  segments  outbox\n",
    "   0  40000000000000000000000000000000  staying    75.00%       1234         1  64 to 1, 64 to 2\n",
    "   1  80000000000000000000000000000000  leaving    24.99%          0         2  -\n",
    "   2  ffffffffffffffffffffffffffffffff  crashed     0.00%          0         0  -\n",
    "   3  00000000000000000000000000000000  gone        0.00%          0         0  -\n",
    "   4  c0000000000000000000000000000000  rescuing    0.00%          0         0  -\n",
);

#[test]
fn the_table_of_a_ring(rt: HostRuntime) -> Result<(), Fail> {
    let sight = ring(rt.alloc())?;
    let text = ring_table(rt.alloc(), &sight);
    drop(sight);
    let text = text?;
    let is_table = text.as_str() == TABLE;
    drop(text);
    check!(&rt; is_table);
    Ok(())
}

/// The table of a ring without nodes, whose operator forced a crash.
const FORCED: &str = concat!(
    "up 12 s, 0 of 16 slots used, 41 gone, 4 successors, 5 connections, 3 of 64 callers open\n",
    "a crash was forced that the ring did not allow: start a new ring\n",
    "node  identifier                        phase       share      pairs  segments  outbox\n",
);

#[test]
fn a_forced_crash_is_told(rt: HostRuntime) -> Result<(), Fail> {
    let mut sight = empty_ring(rt.alloc());
    sight.premise = false;
    let text = ring_table(rt.alloc(), &sight);
    drop(sight);
    let text = text?;
    let is_table = text.as_str() == FORCED;
    drop(text);
    check!(&rt; is_table);
    Ok(())
}

/// Spans, and the hundredths of a percent that they have together.
#[test]
fn shares_of_the_circle(rt: HostRuntime) -> Result<(), Fail> {
    let whole = SegmentSight {
        span: span(5, 5),
        kept: 0,
    };
    let quarter = SegmentSight {
        span: span(3 * QUARTER + 7, 7),
        kept: 1,
    };
    let one = SegmentSight {
        span: span(u128::MAX, 0),
        kept: 2,
    };
    let without_one = SegmentSight {
        span: span(0, u128::MAX),
        kept: 3,
    };
    let none: [SegmentSight; 0] = [];
    check!(&rt; hundredths(&none) == 0);
    check!(&rt; hundredths(&[whole]) == 10_000);
    check!(&rt; hundredths(&[quarter]) == 2_500);
    check!(&rt; hundredths(&[one]) == 0);
    check!(&rt; hundredths(&[without_one]) == 9_999);
    check!(&rt; hundredths(&[without_one, one]) == 10_000);
    check!(&rt; hundredths(&[whole, quarter, whole]) == 22_500);
    let stretch = Stretch::NONE.with(span(1, 3)).with(span(3, 4));
    check!(&rt; stretch == Stretch { turns: 0, rest: 3 } && stretch.hundredths() == 0);
    Ok(())
}
