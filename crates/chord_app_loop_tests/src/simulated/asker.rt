//! An asker whose keys say at which try they are answered.
ghost use Rattle.std.specs.Prelude.{◌≡◌, ◌≢◌};
ghost use Rattle.chord_serve.specs.Question.{IsHeard, request_asked, request_at};
ghost use Rattle.chord_serve.specs.declared.asker.Asked.TheVariants.{Memory};

use crate::simulated::model::tries_of;
use chord_map::{PlainMap, Request};
use chord_serve::{Asked, Asker};
use chord_serve_testkit::{asked_of, note};
use std::alloc::Global;

/// Answers from one plain map, once a request was tried as often as its key wants.
#[derive(Drop)]
pub struct SlowAsker {
    map: PlainMap,
    requests: Vec<Request>,
    /// The number of the last request, and how often it is still tried in vain.
    number: u64,
    left: u32,
}

impl SlowAsker {
    pub fn new(alloc: Global) -> SlowAsker {
        SlowAsker {
            map: PlainMap::new(alloc),
            requests: Vec::new(alloc),
            number: 0,
            left: 0,
        }
    }

    /// How many requests were asked.
    pub fn count(self) -> usize {
        let count = self.requests.len();
        drop(self);
        count
    }
}

/// How often a request is tried in vain before it is answered.
fn misses_of(request: &Request) -> u32 {
    match request.key() {
        [first, ..] => tries_of(*first).saturating_sub(1),
        [] => 0,
    }
}

impl Asker for SlowAsker {
    ghost answers = { λ a question answer b.
        IsHeard question answer a.requests.items b.requests.items × (answer ≢ Memory
        → request_at b.number b.requests.items ≡ request_asked question a.requests.items) };

    ghost asked = { λ a. a.requests.items };

    fn ask(&mut self, request: &Request, _floor: u64) -> Asked {
        if !note(&mut self.requests, request) {
            return Asked::Memory;
        }
        self.number = self.requests.len() as u64;
        self.left = misses_of(request);
        if self.left > 0 {
            return Asked::NoAnswer;
        }
        asked_of(&mut self.map, request)
    }

    fn retry(&mut self, number: u64, _floor: u64) -> Asked {
        self.number = number;
        self.left = 0;
        if number == 0 {
            return Asked::NoAnswer;
        }
        match self.requests.get((number - 1) as usize) {
            None => Asked::NoAnswer,
            Some(request) => {
                self.left = misses_of(request);
                if self.left > 0 {
                    return Asked::NoAnswer;
                }
                asked_of(&mut self.map, request)
            }
        }
    }

    fn may_try_again(&self) -> bool {
        self.left > 0
    }

    fn try_again(&mut self) -> Asked {
        self.left = self.left.saturating_sub(1);
        if self.left > 0 || self.number == 0 {
            return Asked::NoAnswer;
        }
        match self.requests.get((self.number - 1) as usize) {
            None => Asked::NoAnswer,
            Some(request) => asked_of(&mut self.map, request),
        }
    }

    ghost notes = { λ a b question answer heard. heard.0.notes };

    ghost kind = { λ a b question answer heard. heard.0.kind };
}
