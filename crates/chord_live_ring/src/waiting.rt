//! Waiting for envelopes.
ghost use Rattle.std.specs.Prelude.{◌<◌};

use crate::ring::Ring;
use chord_store::EntryStore;
use chord_table::{Envelope, Naming};
use crossbeam_channel::Receiver;
use std::alloc::Global;
use std::sync::atomic::Ordering;
use std::sync::{Mutex, MutexGuard, Wait};
use std::time::{Clock, Duration, Instant};

/// How many microseconds a thread polls before it sleeps.
const POLL_US: u64 = 40;

/// A poll that took longer than this many microseconds: the machine is overloaded.
const OVERLOADED_US: u64 = 1_000;

/// Then this many waits skip polling.
const POLLS_SKIPPED: u64 = 5_000;

/// The most rounds of one poll.
const MAX_POLLS: u64 = 200;

/// How often a thread tries a lock, with pauses in between, before it sleeps.
const LOCK_TRIES: u64 = 64;

/// How many pauses of the processor there are between two tries: in all some 150 nanoseconds on
/// processors whose pause takes 12 cycles, and two microseconds on those where it takes 140.
const LOCK_PAUSES: u64 = 32;

/// How a wait for an envelope begins.
#[derive(Clone, Copy, Debug, PartialEq, Eq)]
pub(crate) enum Wakes {
    /// It polls briefly: an envelope is likely to come soon.
    AtOnce,
    /// It sleeps: none came for a while.
    FromSleep,
}

impl Wakes {
    /// How the next wait begins, after one in which an envelope came or not.
    pub fn after(came: bool) -> Wakes {
        if came {
            Wakes::AtOnce
        } else {
            Wakes::FromSleep
        }
    }
}

/// Waits between two tries of a lock. It keeps the processor: a thread that yields it while others
/// are ready may come back only milliseconds later.
fn pause() {
    for _ in 0..LOCK_PAUSES {
        std::hint::spin_loop();
    }
}

/// Takes a lock that others hold only briefly.
pub(crate) fn lock_soon<'l, T>(rt: &impl Wait, lock: &'l Mutex<T>) -> MutexGuard<'l, T> {
    for _ in 0..LOCK_TRIES {
        if let Some(guard) = lock.try_lock() {
            return guard;
        }
        pause();
    }
    lock.lock(rt)
}

impl<J: Naming, S: EntryStore> Ring<J, S> {
    /// How long a try waits for its answer.
    pub fn wait_of_try(&self) -> Duration {
        Duration::from_millis(self.settings.wait_ms)
    }

    /// How long a wait of at most `limit` that began at `start` may still last: no longer once the
    /// ring is stopped.
    pub fn time_left<R: Wait + Clock>(
        &self,
        rt: &R,
        start: &Option<Instant>,
        limit: Duration,
    ) -> Duration {
        if self.is_stopped() {
            return Duration::from_millis(0);
        }
        match start {
            Some(start) => match start.elapsed(rt) {
                Ok(passed) => limit.saturating_sub(passed),
                Err(_) => Duration::from_millis(0),
            },
            None => limit,
        }
    }

    /// Waits for an envelope: polls briefly if it is likely to come soon, then sleeps. With no time
    /// to wait it only looks.
    pub(crate) fn receive<R: Wait + Clock>(
        &self,
        rt: &R,
        from: &Receiver<Envelope<J>, Global>,
        wakes: Wakes,
        limit: Duration,
    ) -> Option<Envelope<J>> {
        if wakes == Wakes::AtOnce && !limit.is_zero() {
            if let Some(envelope) = self.poll(rt, from) {
                return Some(envelope);
            }
        }
        from.recv_timeout(rt, limit).ok()
    }

    /// Waits for an envelope for a caller.
    pub fn hear<R: Wait + Clock>(&self, rt: &R, caller: u64, limit: Duration) -> Option<Envelope<J>>
        requires { caller < J.name.callers }
    {
        let envelopes = &self.inboxes[caller as usize].envelopes;
        self.receive(rt, envelopes, Wakes::AtOnce, limit)
    }

    /// Polls briefly, yielding in between. If that takes too long, the next waits skip polling.
    fn poll<R: Wait + Clock>(
        &self,
        rt: &R,
        from: &Receiver<Envelope<J>, Global>,
    ) -> Option<Envelope<J>> {
        if let Ok(envelope) = from.try_recv(rt) {
            return Some(envelope);
        }
        let polls_to_skip = self.polls_to_skip.load(Ordering::SeqCst);
        if polls_to_skip > 0 {
            self.polls_to_skip
                .store(polls_to_skip - 1, Ordering::SeqCst);
            return None;
        }
        let start = Instant::now(rt).ok()?;
        for _ in 0..MAX_POLLS {
            std::thread::yield_now();
            if let Ok(envelope) = from.try_recv(rt) {
                return Some(envelope);
            }
            let passed = start.elapsed(rt).ok()?;
            if passed > Duration::from_micros(POLL_US) {
                if passed > Duration::from_micros(OVERLOADED_US) {
                    self.polls_to_skip.store(POLLS_SKIPPED, Ordering::SeqCst);
                }
                return None;
            }
        }
        None
    }
}
