//! A worker that is held in its node's lock, while another node answers.
ghost use Rattle.std.specs.Prelude.{◌≡◌};

use super::asking::said;
use super::{C, founded, parts_with, settings, succeeds};
use crate::checks::check;
use chord_ident::Id;
use chord_live::OpenCaller;
use chord_live_ring::{NoProbe, Probe, Ring, RingParts};
use chord_map::Request;
use chord_store::CappedStore;
use chord_table::Naming;
use chord_testkit::Text;
use std::alloc::Global;
use std::marker::Brand;
use std::process::Abort;
use std::sync::Wait;
use std::sync::atomic::{AtomicBool, Ordering};
use std::thread;
use std::thread::Threads;
use std::time::{Clock, Duration};

/// Holds worker 0 in its lock until it is opened, at most for 10,000 waits of a millisecond.
#[derive(Drop)]
struct Held<'a, R: Clock> {
    rt: &'a R,
    stands: AtomicBool,
    opened: AtomicBool,
    /// Whether it let the worker go without being opened.
    spent: AtomicBool,
}

impl<'a, R: Clock> Probe for Held<'a, R> {
    fn pass(&self, number: u64) {
        if number != 0 {
            return;
        }
        self.stands.store(true, Ordering::SeqCst);
        for _ in 0..10_000u64 {
            if self.opened.load(Ordering::SeqCst) {
                return;
            }
            thread::sleep(self.rt, Duration::from_millis(1));
        }
        self.spent.store(true, Ordering::SeqCst);
    }
}

#[test]
fn two_locks_at_once(rt: HostRuntime) {
    let parts = parts_with(&rt, rt.alloc(), settings(2, 3, 20, 1_000));
    two_nodes::<Brand, _>(&rt, rt.alloc(), parts);
}

/// Starts node 0 at A, and node 1, which joins by it.
fn two_nodes<J: Naming + Send + Sync, R: Abort + Threads + Wait + Clock + Sync>(
    rt: &R,
    alloc: Global,
    parts: RingParts,
)
    requires { parts.name ≡ J.name }
{
    let ring = founded::<J, CappedStore, R>(rt, parts, CappedStore::new(alloc, 4));
    let joined = succeeds(ring.join(rt, Id::new(C), 0, CappedStore::new(alloc, 4)));
    check!(rt; joined, "a second node joins by the first");
    worked(rt, alloc, &ring);
    ring.close();
}

/// Each node has a worker while the ring is settled and both are asked.
fn worked<J: Naming + Send + Sync, R: Abort + Threads + Wait + Clock + Sync>(
    rt: &R,
    alloc: Global,
    ring: &Ring<J, CappedStore>,
) {
    let probe = Held {
        rt,
        stands: AtomicBool::new(false),
        opened: AtomicBool::new(true),
        spent: AtomicBool::new(false),
    };
    let probe = &probe;
    let (first, (second, _)) = thread::join(
        rt,
        move || ring.work(rt, 0, probe).is_ok(),
        move || {
            thread::join(
                rt,
                move || ring.work(rt, 1, &NoProbe).is_ok(),
                move || {
                    two_locks(rt, alloc, ring, probe);
                    ring.stop();
                },
            )
        },
    );
    check!(rt; first && second, "the workers end when the ring is stopped");
}

/// The answer to a new caller's insert, which is sent to node `via`.
fn insert_at<J: Naming, R: Abort + Wait + Clock>(
    rt: &R,
    alloc: Global,
    ring: &Ring<J, CappedStore>,
    via: u64,
    key: &[u8],
) -> Text {
    let mut caller = ring.open_caller(rt, 1).expect(rt, "one more caller");
    let request = Request::insert(alloc, key, b"x").expect(rt, "a request");
    let said = said(caller.ask(rt, via, request));
    drop(caller);
    said
}

/// What a caller finds while worker 0 is held in its lock.
#[derive(Clone, Copy)]
struct WhileHeld {
    is_held_before: bool,
    answer: Text,
    is_held_after: bool,
}

/// Asks node 1, which holds `abc`, once worker 0 is held, and then opens worker 0.
fn ask_while_held<J: Naming, R: Abort + Wait + Clock>(
    rt: &R,
    alloc: Global,
    ring: &Ring<J, CappedStore>,
    probe: &Held<'_, R>,
) -> WhileHeld {
    for _ in 0..10_000u64 {
        if !probe.stands.load(Ordering::SeqCst) {
            thread::sleep(rt, Duration::from_millis(1));
        }
    }
    let is_held_before = probe.stands.load(Ordering::SeqCst);
    let answer = if is_held_before {
        insert_at(rt, alloc, ring, 1, b"abc")
    } else {
        Text::of("not asked")
    };
    let is_held_after = !probe.spent.load(Ordering::SeqCst);
    probe.opened.store(true, Ordering::SeqCst);
    WhileHeld {
        is_held_before,
        answer,
        is_held_after,
    }
}

/// `b` is held by node 0, `abc` by node 1. Each is asked for while worker 0 is held.
fn two_locks<J: Naming + Send + Sync, R: Abort + Threads + Wait + Clock + Sync>(
    rt: &R,
    alloc: Global,
    ring: &Ring<J, CappedStore>,
    probe: &Held<'_, R>,
) {
    for turn in 0..16u64 {
        check!(rt; ring.tick(rt, turn % 2).is_ok(), "a node is ticked");
        thread::sleep(rt, Duration::from_millis(3));
    }
    probe.stands.store(false, Ordering::SeqCst);
    probe.opened.store(false, Ordering::SeqCst);
    let (zero, one) = thread::join(
        rt,
        move || insert_at(rt, alloc, ring, 0, b"b"),
        move || ask_while_held(rt, alloc, ring, probe),
    );
    check!(rt; one.is_held_before, "worker 0 is held in its lock by the call for `b`");
    check!(rt; one.answer.as_str() == "added", "node 1 answers while node 0 is locked");
    check!(rt; one.is_held_after, "worker 0 was held until that was answered");
    check!(rt; zero.as_str() == "added", "node 0 answers once it is opened");
}
