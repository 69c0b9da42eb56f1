//! The end of a ring: one look at all its seats.
ghost use Rattle.std.specs.Prelude.{◌≡◌};

use super::asking::said;
use super::{C, founded, parts_with, settings, succeeds};
use crate::checks::check;
use chord_ident::Id;
use chord_live::{Caller, OpenCaller};
use chord_live_ring::{Ring, RingParts};
use chord_map::Request;
use chord_store::CappedStore;
use chord_table::{CallerSeat, Naming};
use std::alloc::{AllocError, Global};
use std::marker::Brand;
use std::process::Abort;
use std::sync::Wait;
use std::time::Clock;

/// Which callers are given back, and in which order.
#[derive(Clone, Copy, Debug, PartialEq, Eq)]
enum Back {
    Both,
    Swapped,
    FirstAlone,
}

/// What is given back of a ring's callers, and whether the ring is whole then.
const ENDS: &[(Back, bool)] = &[
    (Back::Both, true),
    (Back::FirstAlone, false),
    (Back::Swapped, true),
];

#[test]
fn a_ring_ends_whole_if_all_callers_come_back(rt: HostRuntime) {
    for (back, is_whole) in ENDS {
        let parts = parts_with(&rt, rt.alloc(), settings(3, 2, 1, 1_000));
        let closed = closes::<Brand, _>(&rt, rt.alloc(), parts, *back);
        assert!(rt; closed == *is_whole, "{back:?}");
    }
}

/// What is given back of two callers.
fn given_back<J: Naming>(
    alloc: Global,
    first: Caller<'_, J, CappedStore>,
    second: Caller<'_, J, CappedStore>,
    back: Back,
) -> Result<Vec<CallerSeat<J>>, AllocError> {
    let mut returned = Vec::with_capacity(alloc, 2)?;
    let (first, second) = (first.into_seat(), second.into_seat());
    match back {
        Back::Both => {
            returned.push(first)?;
            returned.push(second)?;
        }
        Back::Swapped => {
            returned.push(second)?;
            returned.push(first)?;
        }
        Back::FirstAlone => {
            returned.push(first)?;
            drop(second);
        }
    }
    Ok(returned)
}

/// The first of two callers adds a pair, and the second finds it.
fn asked<'a, J: Naming, R: Abort + Wait + Clock>(
    rt: &R,
    alloc: Global,
    ring: &'a Ring<J, CappedStore>,
) -> (Caller<'a, J, CappedStore>, Caller<'a, J, CappedStore>) {
    let mut first = ring.open_caller(rt, 1).expect(rt, "a caller");
    let mut second = ring.open_caller(rt, 1).expect(rt, "a second caller");
    let request = Request::insert(alloc, b"abc", b"x").expect(rt, "a request");
    let added = said(first.call(rt, 0, request));
    let request = Request::insert(alloc, b"abc", b"x").expect(rt, "a request");
    let present = said(second.call(rt, 0, request));
    check!(rt; added.as_str() == "added", "the first adds a pair");
    check!(rt; present.as_str() == "present", "the second finds it");
    (first, second)
}

/// A ring with a free slot, and what is given back of its callers.
fn ring_and_callers<J: Naming, R: Abort + Wait + Clock>(
    rt: &R,
    alloc: Global,
    parts: RingParts,
    back: Back,
) -> (Ring<J, CappedStore>, Vec<CallerSeat<J>>)
    requires { parts.name ≡ J.name }
{
    let ring = founded::<J, CappedStore, R>(rt, parts, CappedStore::new(alloc, 1));
    let joined = succeeds(ring.join(rt, Id::new(C), 0, CappedStore::new(alloc, 1)));
    check!(rt; joined, "a second node joins");
    let crashed = ring.crash(rt, 1);
    check!(rt; crashed == Ok(()), "it crashes");
    let (first, second) = asked(rt, alloc, &ring);
    let callers = given_back(alloc, first, second, back).expect(rt, "memory for two");
    (ring, callers)
}

/// Whether a ring is whole that takes these callers back.
fn closes<J: Naming, R: Abort + Wait + Clock>(
    rt: &R,
    alloc: Global,
    parts: RingParts,
    back: Back,
) -> bool
    requires { parts.name ≡ J.name }
{
    let (ring, callers) = ring_and_callers::<J, R>(rt, alloc, parts, back);
    let closed = ring.close_with(callers);
    let (nodes, is_whole) = (closed.nodes, closed.is_whole);
    drop(closed);
    check!(rt; nodes == 2, "the crashed node is one of them");
    is_whole
}
