//! Links read under locks.

use crate::ring::Ring;
use chord_links::Links;
use chord_route::LinkReader;
use chord_store::EntryStore;
use chord_table::Naming;
use std::sync::Wait;

/// Reads the links of nodes, with one node's lock at a time. A crashed node has none.
#[derive(Drop)]
pub struct RingReader<'a, J: Naming, S: EntryStore, R: Wait> {
    pub ring: &'a Ring<J, S>,
    pub rt: &'a R,
}

impl<'a, J: Naming, S: EntryStore, R: Wait> LinkReader for RingReader<'a, J, S, R> {
    ghost answers = { λ reader number found. Unit {0} };

    ghost slot_count = { λ reader. J.name.slots };

    fn links(&self, number: u64) -> Option<Links> {
        self.ring.links_of(self.rt, number)
    }

    fn slots(&self) -> u64 {
        self.ring.slot_count()
    }
}
