//! An asker that lets requests of some keys wait.
ghost use Rattle.std.specs.Prelude.{◌≡◌, ◌≢◌};
ghost use Rattle.chord_serve.specs.Question.{IsHeard, request_asked, request_at};
ghost use Rattle.chord_serve.specs.declared.asker.Asked.TheVariants.{Memory};

use chord_map::Request;
use chord_serve::{Asked, Asker};
use chord_serve_testkit::{added, note};
use std::alloc::Global;

/// Adds each value, at once but for keys that begin with `late`: these are tried in vain this
/// often.
#[derive(Drop)]
pub struct LateAsker {
    requests: Vec<Request>,
    /// The number of the last request.
    number: u64,
    /// How many more tries of it are in vain.
    left: u32,
    misses: u32,
}

impl LateAsker {
    pub fn new(alloc: Global, misses: u32) -> LateAsker {
        LateAsker {
            requests: Vec::new(alloc),
            number: 0,
            left: 0,
            misses,
        }
    }
}

impl Asker for LateAsker {
    ghost answers = { λ a question answer b.
        IsHeard question answer a.requests.items b.requests.items × (answer ≢ Memory
        → request_at b.number b.requests.items ≡ request_asked question a.requests.items) };

    ghost asked = { λ a. a.requests.items };

    fn ask(&mut self, request: &Request, _floor: u64) -> Asked {
        if !note(&mut self.requests, request) {
            return Asked::Memory;
        }
        self.number = self.requests.len() as u64;
        if request.key().starts_with(b"late") {
            self.left = self.misses;
            return Asked::NoAnswer;
        }
        self.left = 0;
        added(request)
    }

    fn retry(&mut self, number: u64, _floor: u64) -> Asked {
        self.number = number;
        Asked::NoAnswer
    }

    fn may_try_again(&self) -> bool {
        self.left > 0
    }

    fn try_again(&mut self) -> Asked {
        self.left = self.left.saturating_sub(1);
        if self.left > 0 || self.number == 0 {
            return Asked::NoAnswer;
        }
        match self.requests.get((self.number - 1) as usize) {
            None => Asked::NoAnswer,
            Some(request) => added(request),
        }
    }

    ghost notes = { λ a b question answer heard. heard.0.notes };

    ghost kind = { λ a b question answer heard. heard.0.kind };
}
