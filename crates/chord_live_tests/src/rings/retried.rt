//! A call that is answered in a later try.
ghost use Rattle.std.specs.Prelude.{◌≡◌};

use super::asking::said;
use super::looking::sight_of;
use super::{C, founded, parts_with, settings, succeeds};
use crate::checks::check;
use chord_ident::Id;
use chord_live::OpenCaller;
use chord_live_ring::{NoProbe, Ring, RingParts};
use chord_map::Request;
use chord_store::CappedStore;
use chord_table::Naming;
use std::alloc::Global;
use std::marker::Brand;
use std::process::Abort;
use std::sync::Wait;
use std::thread;
use std::thread::Threads;
use std::time::{Clock, Duration};

/// How many requests node 0 has passed on before node 1 works. A request is sent fewer times within
/// one try: 0.2 ms after the first time, then after twice as long each time, up to 20 ms.
const PASSED: u64 = 40;

#[test]
fn a_call_is_tried_again(rt: HostRuntime) {
    let parts = parts_with(&rt, rt.alloc(), settings(2, 1, 1_000, 20));
    tries_again::<Brand, _>(&rt, rt.alloc(), parts);
}

/// Node 1 takes over what holds the key only once the first try of a call is over.
fn tries_again<J: Naming + Send + Sync, R: Abort + Threads + Wait + Clock + Sync>(
    rt: &R,
    alloc: Global,
    parts: RingParts,
)
    requires { parts.name ≡ J.name }
{
    let ring = founded::<J, CappedStore, R>(rt, parts, CappedStore::new(alloc, 1));
    let joined = succeeds(ring.join(rt, Id::new(C), 0, CappedStore::new(alloc, 1)));
    check!(rt; joined, "a second node joins");
    for turn in 0..16u64 {
        let _ = ring.tick(rt, turn % 2).is_ok();
    }
    let asked = &ring;
    let (_, told) = thread::join(
        rt,
        move || works_late(rt, alloc, asked),
        move || {
            let mut caller = asked.open_caller(rt, 1).expect(rt, "a caller");
            let request = Request::insert(alloc, b"abc", b"x").expect(rt, "a request");
            let told = said(caller.call(rt, 0, request));
            drop(caller);
            asked.stop();
            told
        },
    );
    ring.close();
    check!(rt; told.as_str() == "added", "a call is sent in more than one try");
}

/// Works for node 1 once node 0 has passed on that many requests, at most 10,000 waits of a
/// millisecond later.
fn works_late<J: Naming, R: Wait + Clock>(rt: &R, alloc: Global, ring: &Ring<J, CappedStore>) {
    for _ in 0..10_000u64 {
        if PASSED <= passed_on(rt, alloc, ring) {
            break;
        }
        thread::sleep(rt, Duration::from_millis(1));
    }
    let _ = ring.work(rt, 1, &NoProbe).is_ok();
}

/// How many requests node 0 has passed on.
fn passed_on<J: Naming, R: Wait>(rt: &R, alloc: Global, ring: &Ring<J, CappedStore>) -> u64 {
    let Some(sight) = sight_of(rt, alloc, ring, 0) else {
        return 0;
    };
    let passed = sight.counts.asks.forwarded;
    drop(sight);
    passed
}
