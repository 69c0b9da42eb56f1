//! The asker of these tests, and what drives links over it.
ghost use Rattle.std.specs.Prelude.{◌≡◌, ◌≢◌};
ghost use Rattle.chord_serve.specs.Question.{IsHeard, request_asked, request_at};
ghost use Rattle.chord_serve.specs.declared.asker.Asked.TheVariants.{Memory};

use chord_map::{PlainMap, Request};
use chord_resp_serve::{Informs, Moment, ServerInfo};
use chord_serve::{Asked, Asker, Link, NoMarks, Protocol, Stream};
use chord_serve_testkit::{asked_of, note};
use std::alloc::{AllocError, Global};

/// What a new request is answered in place of its reply.
#[derive(Clone, Copy, PartialEq, Eq)]
pub enum Trouble {
    Full,
    NoAnswer,
    Memory,
}

/// Which new request gets this in place of its reply, each if the number is 0; and at which try
/// requests get their replies, if they have to wait.
#[derive(Clone, Copy)]
pub struct Script {
    pub number: usize,
    pub trouble: Trouble,
    pub tries: u32,
}

impl Script {
    pub fn of(number: usize, trouble: Trouble) -> Script {
        Script {
            number,
            trouble,
            tries: 0,
        }
    }
}

/// No test asks as many requests.
pub const NO_TROUBLE: Script = Script {
    number: usize::MAX,
    trouble: Trouble::Full,
    tries: 0,
};

/// Each request is answered at its third try.
pub const SLOW: Script = Script {
    tries: 3,
    ..NO_TROUBLE
};

/// Answers from one plain map, but as its script says, and lists the requests asked.
#[derive(Drop)]
pub struct Scripted {
    map: PlainMap,
    pub requests: Vec<Request>,
    script: Script,
    /// Whether each question gave up all requests before it.
    pub gives_up: bool,
    /// How often a request was asked again, and up to which number the last question gave up.
    pub retried: u64,
    pub floor: u64,
    /// The number of the last request, how often it was tried, and the tries of all.
    number: u64,
    tried: u32,
    pub all_tries: u32,
}

impl Scripted {
    pub fn new(alloc: Global, script: Script) -> Scripted {
        Scripted {
            map: PlainMap::new(alloc),
            requests: Vec::new(alloc),
            script,
            gives_up: true,
            retried: 0,
            floor: 0,
            number: 0,
            tried: 0,
            all_tries: 0,
        }
    }

    /// Puts this number of values of 4,096 bytes under a.
    pub fn fill(&mut self, alloc: Global, count: u64) -> Result<(), AllocError> {
        for first in 0..count {
            let mut value = [0u8; 4096];
            value[0] = (first % 0x100) as u8;
            let request = Request::insert(alloc, b"a", &value)?;
            if request.check().is_ok() {
                drop(self.map.apply(&request)?);
            }
            drop(request);
        }
        Ok(())
    }
}

impl Asker for Scripted {
    ghost answers = { λ a question answer b.
        IsHeard question answer a.requests.items b.requests.items × (answer ≢ Memory
        → request_at b.number b.requests.items ≡ request_asked question a.requests.items) };

    ghost asked = { λ a. a.requests.items };

    fn ask(&mut self, request: &Request, floor: u64) -> Asked {
        self.gives_up &= floor == self.requests.len() as u64;
        self.floor = floor;
        if !note(&mut self.requests, request) {
            return Asked::Memory;
        }
        self.number = self.requests.len() as u64;
        self.tried = 1;
        self.all_tries = self.all_tries.saturating_add(1);
        if self.script.number == 0 || self.requests.len() == self.script.number {
            return match self.script.trouble {
                Trouble::Full => Asked::Full,
                Trouble::NoAnswer => Asked::NoAnswer,
                Trouble::Memory => Asked::Memory,
            };
        }
        if self.script.tries > 1 {
            return Asked::NoAnswer;
        }
        asked_of(&mut self.map, request)
    }

    fn retry(&mut self, number: u64, floor: u64) -> Asked {
        self.gives_up = false;
        self.floor = floor;
        self.retried = self.retried.saturating_add(1);
        self.number = number;
        self.tried = 1;
        self.all_tries = self.all_tries.saturating_add(1);
        if number == 0 || self.script.tries > 1 {
            return Asked::NoAnswer;
        }
        match self.requests.get((number - 1) as usize) {
            None => Asked::NoAnswer,
            Some(request) => asked_of(&mut self.map, request),
        }
    }

    fn may_try_again(&self) -> bool {
        self.script.tries > 1
    }

    fn try_again(&mut self) -> Asked {
        self.tried = self.tried.saturating_add(1);
        self.all_tries = self.all_tries.saturating_add(1);
        if self.tried < self.script.tries || self.number == 0 {
            return Asked::NoAnswer;
        }
        match self.requests.get((self.number - 1) as usize) {
            None => Asked::NoAnswer,
            Some(request) => asked_of(&mut self.map, request),
        }
    }

    ghost notes = { λ a b question answer heard. heard.0.notes };

    ghost kind = { λ a b question answer heard. heard.0.kind };
}

/// Tells one line, and always the same moment.
pub struct OneLine;

impl Informs for OneLine {
    ghost tells = { λ _ _. Unit {0} };

    fn info(&self, alloc: Global) -> Result<Vec<u8>, AllocError> {
        Vec::from_slice(alloc, b"a:b\r\n")
    }

    fn time(&self) -> Moment {
        Moment {
            seconds: 1_796_123_976,
            micros: 343_990,
        }
    }
}

/// The server of a connection.
pub fn server() -> ServerInfo<'static, OneLine> {
    ServerInfo {
        number: 7,
        source: &OneLine,
    }
}

/// Drives a link to its end. A request that waits is stopped behind this many tries; a command in
/// Redis's protocol is one request here, with the tries of all that it asks.
pub fn drive<P: Protocol, S: Stream>(link: &mut Link<P, S>, buffer: &mut [u8], patience: u32) {
    for _ in 0..10_000 {
        if link.is_done() {
            return;
        }
        link.advance(&NoMarks);
        if link.waits() {
            if link.tries() < patience {
                link.try_again(&NoMarks);
            } else {
                link.stop_waiting(&NoMarks);
            }
        }
        let _ = link.write_to(0).is_ok();
        let _ = link.read_from(buffer).is_ok();
    }
}
