//! Callers between connections.

use crate::serving::idle::IdleCaller;
use chord_app_sockets::Ended;
use chord_live::RingClient;
use chord_live_ring::Ring;
use chord_store::EntryStore;
use chord_table::{CallerSeat, Naming};
use std::alloc::{AllocError, Global};
use std::sync::atomic::{AtomicU64, Ordering};
use std::sync::{Mutex, Wait};

/// Gives each connection a caller, and takes it back afterwards, for later connections if it keeps
/// callers. What a caller leaves pending is given up, so each serves again at once.
#[derive(Drop)]
pub struct CallerPool<'r, J: Naming, S: EntryStore> {
    ring: &'r Ring<J, S>,
    keeps_callers: bool,
    /// How many callers serve a connection now.
    serving: AtomicU64,
    /// The callers that serve no connection now. All callers of the ring have room.
    resting: Mutex<Vec<IdleCaller<'r, J, S>>>,
}

impl<'r, J: Naming, S: EntryStore> CallerPool<'r, J, S> {
    /// A pool of no callers.
    pub fn new(
        alloc: Global,
        ring: &'r Ring<J, S>,
        keeps_callers: bool,
    ) -> Result<CallerPool<'r, J, S>, AllocError> {
        let resting = Vec::with_capacity(alloc, ring.settings().callers)?;
        Ok(CallerPool {
            ring,
            keeps_callers,
            serving: AtomicU64::new(0),
            resting: Mutex::new(resting),
        })
    }

    /// Takes a resting caller, if it may serve again.
    fn rested(&self, rt: &impl Wait) -> Option<IdleCaller<'r, J, S>> {
        if self.keeps_callers {
            self.resting.lock(rt).pop()
        } else {
            None
        }
    }

    /// How many callers serve a connection now.
    pub fn serving(&self) -> u64 {
        self.serving.load(Ordering::SeqCst)
    }

    /// Takes a caller for a connection; else opens one. If there is none, says how the connection
    /// ends.
    pub fn take(&self, rt: &impl Wait) -> Result<IdleCaller<'r, J, S>, Ended> {
        let idle = match self.rested(rt) {
            Some(idle) => idle,
            None => IdleCaller::open(rt, self.ring)?,
        };
        self.serving.fetch_add(1, Ordering::SeqCst);
        Ok(idle)
    }

    /// Takes a caller back from a connection, for later ones.
    pub fn give_back(&self, rt: &impl Wait, caller: RingClient<'r, J, S>) {
        self.pause();
        self.add(rt, caller);
    }

    /// Counts a caller out whose session lost its connection.
    pub fn pause(&self) {
        self.serving.fetch_sub(1, Ordering::SeqCst);
    }

    /// Counts a caller in whose session has a connection again.
    pub fn go_on(&self) {
        self.serving.fetch_add(1, Ordering::SeqCst);
    }

    /// Adds a caller for later connections, or for the end.
    pub fn add(&self, rt: &impl Wait, caller: RingClient<'r, J, S>) {
        let idle = IdleCaller::freed(caller);
        drop(self.resting.lock(rt).push(idle));
    }

    /// All callers that were taken back, once they serve no connection any more.
    pub fn into_callers(self, alloc: Global) -> Result<Vec<CallerSeat<J>>, AllocError> {
        let resting = self.resting.into_inner();
        let mut callers = Vec::with_capacity(alloc, resting.len())?;
        for idle in resting {
            callers.push(idle.into_caller().into_seat())?;
        }
        Ok(callers)
    }
}
