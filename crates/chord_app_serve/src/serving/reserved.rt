//! Callers that wait for their connections to begin.

use crate::serving::idle::IdleCaller;
use chord_store::EntryStore;
use chord_table::Naming;
use std::alloc::Global;
use std::sync::{Mutex, Wait};

/// Callers, each reserved for the connection of a number. None is where callers serve one
/// connection after another.
#[derive(Drop)]
pub struct Reserved<'r, J: Naming, S: EntryStore> {
    callers: Mutex<Vec<(u64, IdleCaller<'r, J, S>)>>,
}

impl<'r, J: Naming, S: EntryStore> Reserved<'r, J, S> {
    /// No caller is reserved.
    pub fn new(alloc: Global) -> Reserved<'r, J, S> {
        Reserved {
            callers: Mutex::new(Vec::new(alloc)),
        }
    }

    /// Whether a caller is reserved for this connection.
    pub fn has(&self, rt: &impl Wait, number: u64) -> bool {
        self.callers.lock(rt).iter().any(|one| one.0 == number)
    }

    /// Reserves a caller for this connection. It is given back if there is no memory for that.
    pub fn keep(
        &self,
        rt: &impl Wait,
        number: u64,
        idle: IdleCaller<'r, J, S>,
    ) -> Result<(), IdleCaller<'r, J, S>> {
        let mut callers = self.callers.lock(rt);
        if callers.reserve(1).is_err() {
            return Err(idle);
        }
        callers.push_reserved((number, idle));
        Ok(())
    }

    /// Takes the caller that is reserved for this connection.
    pub fn take(&self, rt: &impl Wait, number: u64) -> Option<IdleCaller<'r, J, S>> {
        let mut callers = self.callers.lock(rt);
        let place = callers.iter().position(|one| one.0 == number)?;
        let (_, idle) = callers.remove(place);
        Some(idle)
    }
}
