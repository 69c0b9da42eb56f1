//! Lists of stores.
ghost use Rattle.std.specs.Prelude.{◌≡◌, ◌==◌, ◌++◌, ◌∷◌, [], length, IfOk, OnErr, OnOk};
ghost use Rattle.std.specs.List.{All, filter};

use chord_store::EntryStore;
use std::alloc::{AllocError, Global};

/// Adds an empty store to a list of empty stores, which stays as it is if out of memory.
pub fn add_store<S: EntryStore>(stores: &mut Vec<S>, store: S) -> Result<(), AllocError>
    requires all { All (λ s. S.content s ≡ []) stores.old.items }
    requires one { S.content store ≡ [] }
    ensures empty { All (λ s. S.content s ≡ []) stores.new.items }
    ensures added { OnOk result (stores.new.items ≡ stores.old.items ++ store ∷ []) }
    ensures same { OnErr result (stores.new.items ≡ stores.old.items) }
{
    stores.push(store)?;
    Ok(())
}

/// The stores that have no pair, in order.
pub fn empty_ones<S: EntryStore>(alloc: Global, stores: Vec<S>) -> Result<Vec<S>, AllocError>
    ensures empty { IfOk result (λ kept. All (λ s. S.content s ≡ []) kept.items) }
    ensures all { IfOk result (λ kept. kept.items ≡ filter (λ s. length (S.content s) == 0) stores.items) }
{
    let mut kept = Vec::new(alloc);
    for store in stores {
        if store.count() == 0 {
            add_store(&mut kept, store)?;
        }
    }
    Ok(kept)
}
