//! Spans between any two keys, in shards that were halved early, against a list.
ghost use Rattle.std.specs.Prelude.{◌<◌};

use super::{DROPS_WHAT_WAS_COPIED, FILLS_A_SET, MOVES_A_SPAN, follow_with};
use crate::checks::check;
use chord_ident::{Id, Span};
use chord_map::{Bytes, Pair};
use chord_store::{CappedStore, EntryStore, Inserted, ListStore, NotedStore, StoreFault};
use chord_tree_store::TreeStore;
use std::alloc::{AllocError, Global};
use std::process::Abort;
use std::sync::{Arc, OnceLock};
use std::test::Fail;

// The keys are the bytes below this number. Each has two values.
const KEYS: u8 = 12;

fn id_of(n: u8) -> Id {
    Id::of_bytes(&[n])
}

// The span after the first key up to the second: one that wraps for half of the pairs of keys,
// and the whole circle for a key and itself.
fn between(first: u8, second: u8) -> Span {
    Span::new(id_of(first), id_of(second))
}

// How many of the keys the span contains.
fn keys_inside(span: Span) -> usize {
    let mut count = 0usize;
    for n in 0..KEYS {
        if span.contains(id_of(n)) {
            count = count.saturating_add(1);
        }
    }
    count
}

// Adds the values x and y under the key.
fn add_key<S: EntryStore>(store: &mut S, key: &Bytes, values: &[Bytes; 2]) -> bool {
    let added: Result<Inserted, StoreFault> = Ok(Inserted::Added);
    let id = Id::of_bytes(key.as_slice());
    store.insert(id, key, &values[0]) == added && store.insert(id, key, &values[1]) == added
}

// Adds all keys.
fn fill<S: EntryStore>(alloc: Global, store: &mut S) -> Result<bool, AllocError> {
    let values = [
        Bytes::from_slice(alloc, b"x")?,
        Bytes::from_slice(alloc, b"y")?,
    ];
    let mut are_added = true;
    for n in 0..KEYS {
        let key = Bytes::from_slice(alloc, &[n])?;
        are_added = add_key(store, &key, &values) && are_added;
        drop(key);
    }
    drop(values);
    Ok(are_added)
}

// Whether the copies are the pairs of a list store in the span, two for each key there.
fn are_of_span<S: EntryStore>(alloc: Global, copies: &[Pair], list: &S, span: Span) -> bool {
    let Ok(expected) = list.copy_span(alloc, &span) else {
        return false;
    };
    let are_same = copies == expected.as_slice();
    drop(expected);
    are_same && copies.len() / 2 == keys_inside(span)
}

// Whether both stores have the same copies of the span.
fn copies_agree<S: EntryStore, T: EntryStore>(
    alloc: Global,
    shards: &S,
    list: &T,
    span: Span,
) -> bool {
    let Ok(copies) = shards.copy_span(alloc, &span) else {
        return false;
    };
    let agree = are_of_span(alloc, &copies, list, span);
    drop(copies);
    agree
}

// Whether the stores, with all keys in them, agree on each span.
fn spans_agree<S: EntryStore, T: EntryStore>(
    rt: &impl Abort,
    alloc: Global,
    shards: S,
    list: T,
) -> Result<(), AllocError> {
    let (mut shards, mut list) = (shards, list);
    check!(rt; fill(alloc, &mut shards)? & fill(alloc, &mut list)?);
    for n in 0..KEYS {
        for m in 0..KEYS {
            let agree = copies_agree(alloc, &shards, &list, between(n, m));
            assert!(rt; agree, "after {n} up to {m}");
        }
    }
    drop(shards);
    drop(list);
    Ok(())
}

// Whether the rest after a take out has the keys outside the span alone.
fn rests_agree<S: EntryStore>(
    alloc: Global,
    shards: S,
    span: Span,
    by_copies: bool,
) -> Result<bool, AllocError> {
    let mut shards = shards;
    let are_added = fill(alloc, &mut shards)?;
    if by_copies {
        let copies = shards.copy_span(alloc, &span)?;
        shards.drop_copied(&span, &copies);
        drop(copies);
    } else {
        shards.take_out(&span);
    }
    let left = shards.copy_span(alloc, &between(0, 0))?;
    let outside = (KEYS as usize).saturating_sub(keys_inside(span));
    let is_counted = left.len() as u64 == shards.count();
    let are_outside = left.iter().all(|pair: &Pair| -> bool {
        !span.contains(Id::of_bytes(pair.key.as_slice()))
    });
    let is_left = are_added & is_counted & are_outside & (left.len() / 2 == outside);
    drop(left);
    drop(shards);
    Ok(is_left)
}

// Whether the cut leaves at least `least` pairs before it, and at most `most` or a key less would
// not; or whether the span has too few pairs before its end, which is a key.
fn is_cut_right<S: EntryStore>(store: &S, span: Span, least: u64, most: u64) -> bool
    requires { 0 < least }
{
    let Some(at) = store.cut_after(&span, least, most) else {
        let before_end = keys_inside(span).saturating_sub(1) as u64;
        return before_end.saturating_mul(2) < least;
    };
    match span.cut(at) {
        Ok((first, _)) => {
            let pairs = (keys_inside(first) as u64).saturating_mul(2);
            least <= pairs && (pairs <= most || pairs < least.saturating_add(2))
        }
        Err(_) => false,
    }
}

// Whether spans of a store, with all keys in it, are cut by the number of their pairs: those behind
// the first of the keys, up to a key.
fn is_cut_by_pairs<S: EntryStore>(
    alloc: Global,
    store: S,
    spans: u8,
    least: &[u64],
) -> Result<bool, AllocError> {
    let mut store = store;
    let mut are_right = fill(alloc, &mut store)?;
    for n in 0..spans {
        for pairs in least {
            let least = (*pairs).max(1);
            are_right = are_right
                & is_cut_right(&store, between(n, 7), least, 0)
                & is_cut_right(&store, between(n, 7), least, least.saturating_mul(2));
        }
    }
    drop(store);
    Ok(are_right)
}

#[test]
fn shards_are_cut_by_their_pairs(rt: HostRuntime) -> Result<(), Fail> {
    let alloc = rt.alloc();
    let tree = TreeStore::with_shards(alloc, 3);
    check!(&rt; is_cut_by_pairs(alloc, tree, KEYS, &[1, 4, 15, 100])?);
    Ok(())
}

#[test]
fn each_kind_is_cut_by_its_pairs(rt: HostRuntime) -> Result<(), Fail> {
    let alloc = rt.alloc();
    let note = Arc::new(alloc, OnceLock::new())?;
    let boxed: Box<dyn EntryStore + Send> = Box::new(alloc, TreeStore::new(alloc))?;
    let list = ListStore::new(alloc);
    let capped = CappedStore::new(alloc, 100);
    let noted = NotedStore::new(alloc, note);
    check!(&rt; is_cut_by_pairs(alloc, list, 1, &[3, 100])?, "a list");
    check!(&rt; is_cut_by_pairs(alloc, capped, 1, &[3])?, "a capped store");
    check!(&rt; is_cut_by_pairs(alloc, noted, 1, &[3])?, "a noted store");
    check!(&rt; is_cut_by_pairs(alloc, boxed, 2, &[3])?, "a box");
    Ok(())
}

#[test]
fn shards_copy_each_span(rt: HostRuntime) -> Result<(), Fail> {
    let alloc = rt.alloc();
    for most in [1usize, 3, 4096] {
        let shards = TreeStore::with_shards(alloc, most);
        spans_agree(&rt, alloc, shards, ListStore::new(alloc))?;
    }
    Ok(())
}

#[test]
fn shards_drop_each_span(rt: HostRuntime) -> Result<(), Fail> {
    let alloc = rt.alloc();
    for n in 0..KEYS {
        for by_copies in [false, true] {
            let span = between(n, 5);
            let agree = rests_agree(alloc, TreeStore::with_shards(alloc, 2), span, by_copies)?;
            assert!(&rt; agree, "after {n}");
        }
    }
    Ok(())
}

#[test]
fn small_shards_do_what_others_do(rt: HostRuntime) -> Result<(), Fail> {
    let alloc = rt.alloc();
    follow_with(alloc, TreeStore::with_shards(alloc, 1), FILLS_A_SET)?;
    follow_with(alloc, TreeStore::with_shards(alloc, 1), MOVES_A_SPAN)?;
    follow_with(
        alloc,
        TreeStore::with_shards(alloc, 1),
        DROPS_WHAT_WAS_COPIED,
    )
}

#[test]
fn a_tree_store_goes_into_a_box(rt: HostRuntime) -> Result<(), Fail> {
    let alloc = rt.alloc();
    let store: Box<dyn EntryStore + Send> = Box::new(alloc, TreeStore::with_shards(alloc, 1))?;
    follow_with(alloc, store, MOVES_A_SPAN)
}
