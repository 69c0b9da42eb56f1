//! How long requests took, counted by bounds.
ghost use Rattle.std.specs.Prelude.{◌≡◌};
ghost use Rattle.chord_app_serve.specs.Times.{place_of};

use chord_app_operator::{RequestTimes, TimeCount};
use std::alloc::{AllocError, Global};
use std::sync::atomic::{AtomicU64, Ordering};
use std::time::Duration;

/// The bounds, in microseconds.
const BOUNDS: [u64; 17] = [
    50, 100, 200, 500, 1_000, 2_000, 5_000, 10_000, 20_000, 50_000, 100_000, 200_000, 500_000,
    1_000_000, 2_000_000, 5_000_000, 10_000_000,
];

/// The place of the first bound that is not below this time, if there is one.
pub fn place_of(micros: u64, bounds: &[u64]) -> Option<usize>
    ensures { result ≡ place_of micros bounds.now }
{
    bounds.iter().position(|bound| micros <= *bound)
}

/// How many requests took at most as long as each bound, and longer than the bound before.
#[derive(Drop)]
pub struct TimeTally {
    /// One for each bound.
    counts: Vec<AtomicU64>,
    /// Those that took longer than all bounds.
    longer: AtomicU64,
    /// In microseconds.
    sum: AtomicU64,
}

impl TimeTally {
    /// No requests.
    pub fn new(alloc: Global) -> Result<TimeTally, AllocError> {
        let mut counts = Vec::with_capacity(alloc, BOUNDS.len())?;
        for _ in 0..BOUNDS.len() {
            counts.push(AtomicU64::new(0))?;
        }
        Ok(TimeTally {
            counts,
            longer: AtomicU64::new(0),
            sum: AtomicU64::new(0),
        })
    }

    /// Counts a request that took this long.
    pub fn note(&self, time: Duration) {
        let micros = u64::try_from(time.as_micros()).unwrap_or(u64::MAX);
        let counted = place_of(micros, &BOUNDS).and_then(|place| self.counts.get(place));
        let count = counted.unwrap_or(&self.longer);
        count.fetch_add(1, Ordering::Relaxed);
        self.sum.fetch_add(micros, Ordering::Relaxed);
    }

    /// How long requests took.
    pub fn times(&self, alloc: Global) -> Result<RequestTimes, AllocError> {
        let mut within = Vec::with_capacity(alloc, BOUNDS.len())?;
        let mut all = 0u64;
        for (upto, count) in BOUNDS.iter().zip(self.counts.iter()) {
            all = all.saturating_add(count.load(Ordering::Relaxed));
            within.push(TimeCount {
                upto: *upto,
                count: all,
            })?;
        }
        Ok(RequestTimes {
            within,
            count: all.saturating_add(self.longer.load(Ordering::Relaxed)),
            sum: self.sum.load(Ordering::Relaxed),
        })
    }
}
