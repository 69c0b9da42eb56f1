//! A plan of two nodes, and their stores.

use chord_app_plan::Plan;
use chord_app_plan_testkit::{changed, plan_of};
use chord_store::CappedStore;
use std::alloc::{AllocError, Global};

/// A plan of two nodes, with `callers` callers.
pub fn plan_with(alloc: Global, callers: u64) -> Option<Plan> {
    let line = format!(in alloc; "callers = {callers}").ok()?;
    let text = changed(alloc, "callers = 1", line.as_str()).ok()?;
    plan_of(alloc, text.as_str())
}

/// A store for each of two nodes, with room for `limit` pairs.
pub fn two_stores(alloc: Global, limit: u64) -> Result<Vec<CappedStore>, AllocError> {
    let mut stores = Vec::new(alloc);
    for _ in 0..2u64 {
        stores.push(CappedStore::new(alloc, limit))?;
    }
    Ok(stores)
}
