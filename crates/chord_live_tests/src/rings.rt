//! Rings, with threads and without. Each test ends by itself, and its results do not depend on the
//! schedule.
ghost use Rattle.std.specs.Prelude.{◌≡◌, []};

use crate::checks::check;
use chord_ident::Id;
use chord_links::Peer;
use chord_live_ring::{Ring, RingParts, Settings};
use chord_store::EntryStore;
use chord_table::Naming;
use std::alloc::Global;
use std::process::Abort;
use std::sync::Wait;

mod asking;
mod asks;
mod boxed;
mod dealing;
mod endings;
mod following;
mod growths;
mod locks;
mod looking;
mod nodes;
mod numbering;
mod pieces;
mod refusals;
mod retried;
mod running;
mod sights;
mod standing;
mod worlds;

pub const A: u128 = 0x40000000000000000000000000000000;

pub const C: u128 = 0xc0000000000000000000000000000000;

/// Node 0, at A.
pub const ZERO: Peer = Peer {
    number: 0,
    id: Id { number: A },
};

/// Node 1, at C.
pub const ONE: Peer = Peer {
    number: 1,
    id: Id { number: C },
};

/// Checks that it succeeded.
pub fn succeeds<T: Drop, F: Drop>(done: Result<T, F>) -> bool {
    let is_ok = done.is_ok();
    drop(done);
    is_ok
}

pub fn settings(slots: usize, callers: usize, tries: u64, wait_ms: u64) -> Settings {
    Settings {
        slots,
        callers,
        successors: 3,
        tries,
        wait_ms,
    }
}

/// The parts of a ring with these settings, which are within their limits.
pub fn parts_with(rt: &impl Abort, alloc: Global, settings: Settings) -> RingParts {
    RingParts::new(alloc, settings).expect(rt, "these settings are within their limits")
}

/// A ring whose node A has this store.
pub fn founded<J: Naming, S: EntryStore, R: Abort + Wait>(
    rt: &R,
    parts: RingParts,
    store: S,
) -> Ring<J, S>
    requires name { parts.name ≡ J.name }
    requires vacant { S.content store ≡ [] }
{
    let ring = parts.assemble::<J, S>().expect(rt, "memory for a ring");
    let is_created = succeeds(ring.create(rt, Id::new(A), store));
    check!(rt; is_created, "a ring without a node creates one");
    ring
}
