//! The answers of a store.

use thiserror::Error;

/// What an insert did.
#[derive(Clone, Copy, Debug, PartialEq, Eq)]
pub enum Inserted {
    Added,
    Present,
    SetFull,
}

/// Why a store did not add a pair.
#[derive(Clone, Copy, Debug, PartialEq, Eq, Error)]
pub enum StoreFault {
    #[error("the store is full")]
    Full,
    #[error("out of memory")]
    Memory,
}
