//! Each growth is refused in turn: the call answers Memory, and the store stays unchanged.
//! `follow_on` does again what was refused memory. With ample memory nothing is refused.

use super::{follow_with, noted};
use chord_store::{CappedStore, EntryStore, ListStore};
use chord_tree_store::TreeStore;
use std::test::Fail;

/// What any store does if a growth is refused.
const GROWS: &str = "
# all pairs are put in at once, or none
put-all > Put; count 36
all > Yes
take-out (A A] > TakenOut; count 0
# the pairs with even numbers are put in one by one, and then those with odd ones
put 0 > Added; count 1
put 2 > Added; count 2
put 4 > Added; count 3
put 6 > Added; count 4
put 8 > Added; count 5
put 10 > Added; count 6
put 12 > Added; count 7
put 14 > Added; count 8
put 16 > Added; count 9
put 18 > Added; count 10
put 20 > Added; count 11
put 22 > Added; count 12
put 24 > Added; count 13
put 26 > Added; count 14
put 28 > Added; count 15
put 30 > Added; count 16
put 32 > Added; count 17
put 34 > Added; count 18
put 1 > Added; count 19
put 3 > Added; count 20
put 5 > Added; count 21
put 7 > Added; count 22
put 9 > Added; count 23
put 11 > Added; count 24
put 13 > Added; count 25
put 15 > Added; count 26
put 17 > Added; count 27
put 19 > Added; count 28
put 21 > Added; count 29
put 23 > Added; count 30
put 25 > Added; count 31
put 27 > Added; count 32
put 29 > Added; count 33
put 31 > Added; count 34
put 33 > Added; count 35
put 35 > Added; count 36
all > Yes
fifth > Yes
";

#[test]
fn each_kind_refuses_growths(rt: HostRuntime) -> Result<(), Fail> {
    let alloc = rt.alloc();
    follow_with(alloc, ListStore::new(alloc), GROWS)?;
    follow_with(alloc, TreeStore::new(alloc), GROWS)?;
    follow_with(alloc, TreeStore::with_shards(alloc, 2), GROWS)?;
    follow_with(alloc, CappedStore::new(alloc, 36), GROWS)
}

#[test]
fn a_box_refuses_growths(rt: HostRuntime) -> Result<(), Fail> {
    let alloc = rt.alloc();
    let made = match noted(alloc) {
        Ok(made) => made,
        Err(_) => noted(alloc)?,
    };
    let store: Box<dyn EntryStore + Send> = match Box::new(alloc, made) {
        Ok(store) => store,
        Err(refused) => Box::new(alloc, refused.value)?,
    };
    follow_with(alloc, store, GROWS)
}
