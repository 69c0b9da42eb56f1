//! A ring whose nodes have boxed stores, as in the program.
ghost use Rattle.std.specs.Prelude.{◌≡◌, []};

use super::asking::said;
use super::{founded, parts_with, settings};
use crate::checks::check;
use chord_live::OpenCaller;
use chord_live_ring::RingParts;
use chord_map::Request;
use chord_store::{CappedStore, EntryStore};
use chord_table::Naming;
use std::alloc::Global;
use std::marker::Brand;
use std::process::Abort;
use std::sync::Wait;
use std::test::Fail;
use std::time::Clock;

/// A boxed store, as in the program.
type Store = Box<dyn EntryStore + Send>;

#[test]
fn a_boxed_store_is_full(rt: HostRuntime) -> Result<(), Fail> {
    let alloc = rt.alloc();
    let store: Store = Box::new(alloc, CappedStore::new(alloc, 1))?;
    let parts = parts_with(&rt, alloc, settings(1, 1, 1, 2_000));
    fills_boxed::<Brand, _>(&rt, alloc, parts, store);
    Ok(())
}

fn fills_boxed<J: Naming, R: Abort + Wait + Clock>(
    rt: &R,
    alloc: Global,
    parts: RingParts,
    store: Store,
)
    requires name { parts.name ≡ J.name }
    requires vacant { content store ≡ [] }
{
    fills::<J, Store, R>(rt, alloc, parts, store)
}

/// A node with room for one pair is asked for room for two.
fn fills<J: Naming, S: EntryStore + Send, R: Abort + Wait + Clock>(
    rt: &R,
    alloc: Global,
    parts: RingParts,
    store: S,
)
    requires name { parts.name ≡ J.name }
    requires vacant { S.content store ≡ [] }
{
    let ring = founded::<J, S, R>(rt, parts, store);
    let mut caller = ring.open_caller(rt, 1).expect(rt, "a caller");
    let request = Request::insert(alloc, b"a", b"x").expect(rt, "a request");
    let added = said(caller.call(rt, 0, request));
    let request = Request::insert(alloc, b"a", b"y").expect(rt, "a request");
    let full = said(caller.call(rt, 0, request));
    drop(caller);
    ring.close();
    check!(rt; added.as_str() == "added", "a node with room adds a pair");
    check!(rt; full.as_str() == "Wait(Full)", "a full store answers Full");
}
