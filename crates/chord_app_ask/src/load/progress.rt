//! What all connections of a load tell while it runs.
ghost use Rattle.std.specs.Prelude.{◌≤◌};

use std::sync::atomic::{AtomicBool, AtomicU64, Ordering};

/// Counts over all connections. Moments are milliseconds since the load began.
#[derive(Drop)]
pub struct LoadProgress {
    answered: AtomicU64,
    /// The latest moment of a reply; its beginning counts as one.
    last_reply: AtomicU64,
    has_ended: AtomicBool,
}

impl LoadProgress {
    /// That of a load which begins now.
    pub fn new() -> LoadProgress {
        LoadProgress {
            answered: AtomicU64::new(0),
            last_reply: AtomicU64::new(0),
            has_ended: AtomicBool::new(false),
        }
    }

    /// Counts an answer.
    pub fn note_answer(&self) {
        self.answered.fetch_add(1, Ordering::SeqCst);
    }

    /// How many answers were counted.
    pub fn answered(&self) -> u64 {
        self.answered.load(Ordering::SeqCst)
    }

    /// Takes note of a reply at this moment. Gives for how long there was none on any connection:
    /// nothing if one at a later moment was noted.
    pub fn note_reply(&self, moment: u64) -> u64
        ensures { result ≤ moment }
    {
        let later = |last: u64| (last < moment).then_some(moment);
        match self
            .last_reply
            .fetch_update(Ordering::SeqCst, Ordering::SeqCst, later)
        {
            Ok(last) => moment.saturating_sub(last),
            Err(_) => 0,
        }
    }

    /// For how long no reply was noted before this moment.
    pub fn since_reply(&self, moment: u64) -> u64
        ensures { result ≤ moment }
    {
        moment.saturating_sub(self.last_reply.load(Ordering::SeqCst))
    }

    /// Tells that all connections ended.
    pub fn end(&self) {
        self.has_ended.store(true, Ordering::SeqCst);
    }

    /// Whether all connections ended.
    pub fn has_ended(&self) -> bool {
        self.has_ended.load(Ordering::SeqCst)
    }
}
