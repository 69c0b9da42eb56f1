//! Tests that every kind of store passes.
ghost use Rattle.std.specs.Prelude.{◌≡◌, [], IfOk, OnErr};

use crate::checks::check;
use chord_ident::{Id, Span};
use chord_map::PairList;
use chord_store::{CappedStore, EntryStore, ListStore, NotedStore, StoreFault};
use chord_testkit::follow_on;
use chord_tree_store::TreeStore;
use std::alloc::{AllocError, Global};
use std::sync::{Arc, OnceLock};
use std::test::Fail;
use storing::Storing;

mod cuts;
mod growths;
mod shards;
mod storing;

// Puts the pairs into an empty store.
fn put_list<S: EntryStore>(store: &mut S, list: &PairList) -> Result<(), StoreFault>
    requires { S.content store.old ≡ [] }
    ensures { OnErr result (S.content store.new ≡ []) }
{
    let id = Id::new(7);
    let circle = Span::new(id, id);
    if list.len() > 1000 {
        return Err(StoreFault::Full);
    }
    store.put_all(&circle, list.as_slice())
}

// An empty store that reports to a cell that nobody reads.
fn noted(alloc: Global) -> Result<NotedStore, AllocError>
    ensures { IfOk result (λ store. store ≡ []) }
{
    Ok(NotedStore::new(alloc, Arc::new(alloc, OnceLock::new())?))
}

// Does the lines of a script with this store.
fn follow_with<S: EntryStore>(alloc: Global, store: S, lines: &str) -> Result<(), Fail> {
    let mut storing = Storing { alloc, store };
    let followed = follow_on(&mut storing, lines);
    drop(storing);
    followed
}

// A full set of 1,000 values takes no more, and takes one again after a remove.
const FILLS_A_SET: &str = "
fill a > Filled; count 1000
insert a 1000 > SetFull
insert a 0999 > Present
# a value of a full set is removed, and is not there then
remove a 0000 > Removed; count 999
remove a 0000 > NotThere
# a value under another key is in a set of its own, and is removed from there
insert b 0999 > Added; count 1000
remove b 0999 > Removed; count 999
insert a 1000 > Added; count 1000
# the set has the values from 0001 to 1000
numbered a > 1000
";

#[test]
fn each_kind_fills_a_set(rt: HostRuntime) -> Result<(), Fail> {
    let alloc = rt.alloc();
    follow_with(alloc, ListStore::new(alloc), FILLS_A_SET)?;
    follow_with(alloc, TreeStore::new(alloc), FILLS_A_SET)?;
    let store: Box<dyn EntryStore + Send> = Box::new(alloc, CappedStore::new(alloc, 1000))?;
    follow_with(alloc, store, FILLS_A_SET)
}

// The pairs of a span, which has `a` and `abc` but not `b`, are copied in order, and then removed.
const MOVES_A_SPAN: &str = "
insert b x > Added; count 1
insert abc x > Added; count 2
insert a y > Added; count 3
insert a x > Added; count 4
copy (A C] > pairs a=x a=y abc=x
take-out (A C] > TakenOut; count 1
# of the four pairs only the one outside the span is left
copy (A C] > pairs
values a > values
values b > values x
";

// The same by copies.
const DROPS_WHAT_WAS_COPIED: &str = "
insert b x > Added; count 1
insert abc x > Added; count 2
insert a y > Added; count 3
insert a x > Added; count 4
drop-copied (A C] > 3; count 1
# of the four pairs only the one outside the span is left
copy (A C] > pairs
values a > values
values b > values x
";

#[test]
fn each_kind_moves_a_span(rt: HostRuntime) -> Result<(), Fail> {
    let alloc = rt.alloc();
    follow_with(alloc, ListStore::new(alloc), MOVES_A_SPAN)?;
    follow_with(alloc, TreeStore::new(alloc), MOVES_A_SPAN)?;
    follow_with(alloc, CappedStore::new(alloc, 4), MOVES_A_SPAN)?;
    let store: Box<dyn EntryStore + Send> = Box::new(alloc, noted(alloc)?)?;
    follow_with(alloc, store, MOVES_A_SPAN)
}

#[test]
fn each_kind_drops_what_was_copied(rt: HostRuntime) -> Result<(), Fail> {
    let alloc = rt.alloc();
    follow_with(alloc, ListStore::new(alloc), DROPS_WHAT_WAS_COPIED)?;
    follow_with(alloc, TreeStore::new(alloc), DROPS_WHAT_WAS_COPIED)?;
    follow_with(alloc, CappedStore::new(alloc, 4), DROPS_WHAT_WAS_COPIED)?;
    let store: Box<dyn EntryStore + Send> = Box::new(alloc, noted(alloc)?)?;
    follow_with(alloc, store, DROPS_WHAT_WAS_COPIED)
}

const PUTS_ALL: &str = "put-two > Put; count 2";

#[test]
fn puts_all_pairs_or_none(rt: HostRuntime) -> Result<(), Fail> {
    let alloc = rt.alloc();
    follow_with(alloc, ListStore::new(alloc), PUTS_ALL)?;
    follow_with(alloc, TreeStore::new(alloc), PUTS_ALL)?;
    follow_with(alloc, CappedStore::new(alloc, 1), "put-two > Full")?;
    follow_with(alloc, CappedStore::new(alloc, 2), PUTS_ALL)
}

const TAKES_WHAT_IT_HAS: &str = "
insert a x > Added; count 1
insert a y > Full
insert a x > Present
remove a x > Removed; count 0
insert a y > Added; count 1
";

#[test]
fn a_full_store_takes_what_it_has(rt: HostRuntime) -> Result<(), Fail> {
    follow_with(
        rt.alloc(),
        CappedStore::new(rt.alloc(), 1),
        TAKES_WHAT_IT_HAS,
    )
}

#[test]
fn faults_say_what_is_wrong(rt: HostRuntime) -> Result<(), Fail> {
    let text = format!(in rt.alloc(); "{}; {}", StoreFault::Full, StoreFault::Memory)?;
    check!(&rt; text.as_str() == "the store is full; out of memory");
    Ok(())
}

const ADDS_THREE: &str = "
insert a x > Added; count 1
insert a y > Added; count 2
insert a z > Added; count 3
";

// The count in the cell of a store in a box that these lines were done with, before it is dropped
// and then.
fn noted_around(alloc: Global, note: &Arc<OnceLock<u64>>) -> Result<[Option<u64>; 2], Fail> {
    let list = NotedStore::new(alloc, note.clone()?);
    let store: Box<dyn EntryStore + Send> = Box::new(alloc, list)?;
    let mut storing = Storing { alloc, store };
    let followed = follow_on(&mut storing, ADDS_THREE);
    let before = note.get().copied();
    drop(storing);
    followed?;
    Ok([before, note.get().copied()])
}

#[test]
fn a_dropped_store_notes_its_count(rt: HostRuntime) -> Result<(), Fail> {
    let note = Arc::new(rt.alloc(), OnceLock::new())?;
    let counts = noted_around(rt.alloc(), &note);
    drop(note);
    check!(&rt; counts? == [None, Some(3)]);
    Ok(())
}

// The count in the cell after a store that these lines were done with was dropped.
fn noted_after(alloc: Global, note: &Arc<OnceLock<u64>>, lines: &str) -> Result<Option<u64>, Fail> {
    follow_with(alloc, NotedStore::new(alloc, note.clone()?), lines)?;
    Ok(note.get().copied())
}

// The same for an empty store, and then for one with a pair.
fn noted_twice(alloc: Global, note: &Arc<OnceLock<u64>>) -> Result<[Option<u64>; 2], Fail> {
    let first = noted_after(alloc, note, "")?;
    Ok([
        first,
        noted_after(alloc, note, "insert a x > Added; count 1")?,
    ])
}

#[test]
fn the_first_dropped_store_notes_its_count(rt: HostRuntime) -> Result<(), Fail> {
    let note = Arc::new(rt.alloc(), OnceLock::new())?;
    let counts = noted_twice(rt.alloc(), &note);
    drop(note);
    check!(&rt; counts? == [Some(0); 2]);
    Ok(())
}
