//! An asker over one plain map, and the parts of others.
ghost use Rattle.std.specs.Prelude.{◌≡◌, ◌++◌, ◌∷◌, [], Some, true};
ghost use Rattle.chord_serve.specs.Question.{IsAnswer, IsHeard, IsReplyTo};

use chord_map::{PlainMap, Reply, Request};
use chord_serve::{Asked, Asker};
use chord_wire::is_writable;
use std::alloc::Global;

/// Lists one more request, if there is memory.
pub fn note(requests: &mut Vec<Request>, request: &Request) -> bool
    ensures { result ≡ true → requests.new.items ≡ requests.old.items ++ request.now ∷ [] }
{
    match request.try_copy() {
        Ok(copy) => {
            let pushed = requests.push(copy);
            let is_noted = pushed.is_ok();
            drop(pushed);
            is_noted
        }
        Err(_) => false,
    }
}

/// What the map replies to a request, if its client can be told that.
pub fn asked_of(map: &mut PlainMap, request: &Request) -> Asked
    ensures answer { IsAnswer result }
    ensures kind { IsReplyTo result (Some request.now) }
{
    if request.check().is_err() {
        return Asked::NoAnswer;
    }
    match map.apply(request) {
        Err(_) => Asked::Memory,
        Ok(reply) => {
            if reply.fits(request) && is_writable(&reply) {
                return Asked::Reply(reply);
            }
            drop(reply);
            Asked::NoAnswer
        }
    }
}

/// Added, for an insert.
pub fn added(request: &Request) -> Asked
    ensures answer { IsAnswer result }
    ensures kind { IsReplyTo result (Some request.now) }
{
    if Reply::Added.fits(request) {
        Asked::Reply(Reply::Added)
    } else {
        Asked::NoAnswer
    }
}

/// Answers from one plain map, and lists the requests asked.
pub struct MapAsker {
    map: PlainMap,
    pub requests: Vec<Request>,
}

// Written out, so that no crate of tests proves the drop of a plain map once more.
impl Drop for MapAsker {
    fn drop(self) {
        let MapAsker { map, requests } = self;
        drop(map);
        drop(requests);
    }
}

impl MapAsker {
    pub fn new(alloc: Global) -> MapAsker {
        MapAsker {
            map: PlainMap::new(alloc),
            requests: Vec::new(alloc),
        }
    }
}

impl Asker for MapAsker {
    ghost answers = { λ a question answer b. IsHeard question answer a.requests.items b.requests.items };

    ghost asked = { λ a. a.requests.items };

    fn ask(&mut self, request: &Request, _floor: u64) -> Asked {
        if note(&mut self.requests, request) {
            asked_of(&mut self.map, request)
        } else {
            Asked::Memory
        }
    }

    fn retry(&mut self, _number: u64, _floor: u64) -> Asked {
        Asked::NoAnswer
    }

    ghost notes = { λ a b question answer heard. heard.notes };

    ghost kind = { λ a b question answer heard. heard.kind };
}
