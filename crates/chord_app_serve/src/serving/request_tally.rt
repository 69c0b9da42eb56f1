//! Counts of the requests of a server's clients.

use crate::serving::request_times::TimeTally;
use chord_app_operator::{AnswerCounts, ProtocolAnswers, RequestTimes};
use chord_app_sockets::Protocol;
use chord_serve::Asked;
use std::alloc::{AllocError, Global};
use std::sync::atomic::{AtomicU64, Ordering};
use std::time::{Clock, Instant};

/// The answers in a protocol.
#[derive(Drop)]
struct AnswerTally {
    reply: AtomicU64,
    full: AtomicU64,
    no_answer: AtomicU64,
    memory: AtomicU64,
    refused: AtomicU64,
}

impl AnswerTally {
    fn new() -> AnswerTally {
        AnswerTally {
            reply: AtomicU64::new(0),
            full: AtomicU64::new(0),
            no_answer: AtomicU64::new(0),
            memory: AtomicU64::new(0),
            refused: AtomicU64::new(0),
        }
    }

    /// The count of such answers.
    fn count_of(&self, answer: &Asked) -> &AtomicU64 {
        match answer {
            Asked::Reply(_) => &self.reply,
            Asked::Full => &self.full,
            Asked::NoAnswer => &self.no_answer,
            Asked::Memory => &self.memory,
        }
    }

    fn counts(&self) -> AnswerCounts {
        AnswerCounts {
            reply: self.reply.load(Ordering::Relaxed),
            full: self.full.load(Ordering::Relaxed),
            no_answer: self.no_answer.load(Ordering::Relaxed),
            memory: self.memory.load(Ordering::Relaxed),
            refused: self.refused.load(Ordering::Relaxed),
        }
    }
}

/// How the requests of all clients were answered, and how long that took. No lock is shared.
#[derive(Drop)]
pub struct RequestTally {
    frames: AnswerTally,
    redis: AnswerTally,
    times: TimeTally,
    /// How many requests wait for an answer now.
    pending: AtomicU64,
}

impl RequestTally {
    /// No requests.
    pub fn new(alloc: Global) -> Result<RequestTally, AllocError> {
        Ok(RequestTally {
            frames: AnswerTally::new(),
            redis: AnswerTally::new(),
            times: TimeTally::new(alloc)?,
            pending: AtomicU64::new(0),
        })
    }

    /// The counts of the clients of a protocol.
    pub fn of(&self, protocol: Protocol) -> ClientTally<'_> {
        let answers = match protocol {
            Protocol::Frames => &self.frames,
            Protocol::Redis => &self.redis,
        };
        ClientTally {
            answers,
            times: &self.times,
            pending: &self.pending,
        }
    }

    /// How many requests wait for an answer now. A caller has one at most.
    pub fn pending(&self) -> u64 {
        self.pending.load(Ordering::Relaxed)
    }

    /// How many requests were answered, by what was answered.
    pub fn answers(&self) -> ProtocolAnswers {
        ProtocolAnswers {
            frames: self.frames.counts(),
            redis: self.redis.counts(),
        }
    }

    /// How long requests took.
    pub fn times(&self, alloc: Global) -> Result<RequestTimes, AllocError> {
        self.times.times(alloc)
    }
}

/// Where the requests of a client are counted.
#[derive(Clone, Copy)]
pub struct ClientTally<'a> {
    answers: &'a AnswerTally,
    times: &'a TimeTally,
    pending: &'a AtomicU64,
}

impl ClientTally<'_> {
    /// Counts a request in, and tells when it began, if the clock can be read.
    pub fn begin<R: Clock>(&self, rt: &R) -> Option<Instant> {
        self.pending.fetch_add(1, Ordering::Relaxed);
        Instant::now(rt).ok()
    }

    /// Counts a request out that began then, with its answer.
    pub fn end<R: Clock>(&self, rt: &R, began: Option<Instant>, answer: &Asked) {
        self.pending.fetch_sub(1, Ordering::Relaxed);
        self.answers
            .count_of(answer)
            .fetch_add(1, Ordering::Relaxed);
        if let (Some(began), Ok(now)) = (began, Instant::now(rt)) {
            self.times.note(now.duration_since(began));
        }
    }

    /// Counts a request that was refused without being asked.
    pub fn refuse(&self) {
        self.answers.refused.fetch_add(1, Ordering::Relaxed);
    }
}
