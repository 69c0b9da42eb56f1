//! Rests between rounds of upkeep.

use crate::ring::Ring;
use chord_store::EntryStore;
use chord_table::Naming;
use std::sync::{CondvarTimeouts, Wait};
use std::time::{Clock, Duration};

/// After how many milliseconds a rest looks whether the ring was stopped.
const LOOK: u64 = 50;

impl<J: Naming, S: EntryStore> Ring<J, S> {
    /// Wakes who rests: a node came, begins to leave, retired, crashed or is rescued.
    pub(crate) fn stir(&self, rt: &impl Wait) {
        *self.stirred.lock(rt) = true;
        self.stirring.notify_all();
    }

    /// Waits until the ring is stirred, for so long at most. Says whether it was.
    fn is_stirred<R: Wait + Clock>(&self, rt: &R, milliseconds: u64) -> bool {
        let stirred = self.stirred.lock(rt);
        let limit = Duration::from_millis(milliseconds);
        let (mut stirred, _) = self
            .stirring
            .wait_timeout_while(rt, stirred, limit, |stirred| !*stirred);
        std::mem::replace(&mut *stirred, false)
    }

    /// Waits until the given time is over, the ring is stopped, or a node comes, begins to leave,
    /// retires, crashes or is rescued. Says whether a node did so since the last rest. One thread
    /// rests at a time.
    pub fn rest<R: Wait + Clock>(&self, rt: &R, milliseconds: u64) -> bool {
        let mut left = milliseconds;
        for _ in 0..u64::MAX {
            if self.is_stopped() || left == 0 {
                return false;
            }
            if self.is_stirred(rt, left.min(LOOK)) {
                return true;
            }
            left = left.saturating_sub(LOOK);
        }
        false
    }
}
