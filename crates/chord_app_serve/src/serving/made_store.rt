//! Stores of nodes that join while a server runs.
ghost use Rattle.std.specs.Prelude.{◌≡◌, []};
ghost use Rattle.chord_app_serve.specs.Made.{fits_spare, limit_of};

use chord_app_operator::{JoinRequest, StoreKind};
use chord_store::{CappedStore, EntryStore};
use std::alloc::Global;

/// A store that a server makes when a node joins.
pub trait MadeStore: EntryStore {
    /// A store of this kind that holds nothing.
    fn make(alloc: Global, kind: chord_app_plan::StoreKind) -> Self
        ensures vacant { Self.content result ≡ [] }
        ensures limit { Self.limit result ≡ limit_of kind };
}

fn limit_of(kind: chord_app_plan::StoreKind) -> u64
    ensures { result ≡ limit_of kind }
{
    match kind {
        chord_app_plan::StoreKind::Capped(limit) => limit,
        _ => u64::MAX,
    }
}

/// A list, whatever the kind.
impl MadeStore for CappedStore {
    fn make(alloc: Global, kind: chord_app_plan::StoreKind) -> CappedStore {
        CappedStore::new(alloc, limit_of(kind))
    }
}

/// Whether a store of this kind is one that the node asks for.
pub fn fits_spare(request: JoinRequest, kind: chord_app_plan::StoreKind) -> bool
    ensures { result ≡ fits_spare request.store request.limit kind }
{
    match (request.store, kind) {
        (StoreKind::Tree, chord_app_plan::StoreKind::Tree) => true,
        (StoreKind::List, chord_app_plan::StoreKind::List | chord_app_plan::StoreKind::Noted) =>
            true,
        (StoreKind::Capped, chord_app_plan::StoreKind::Capped(limit)) => match request.limit {
            Some(wanted) => wanted == limit,
            None => true,
        },
        _ => false,
    }
}
