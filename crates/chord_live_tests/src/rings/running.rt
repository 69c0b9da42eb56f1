//! What scripts do with a running ring.
//!
//! - `create A 1`, `join C 0 4`: the first node, at A, with room for 1 pair; one at C, which joins
//!   by node 0, with room for 4. If it is refused, its store that comes back is used: how many pairs
//!   it has, and the outcomes of two inserts.
//! - `leave 1`, `retire 1`, `crash 1`, `crash-if-safe 1`, `rescue 1`, `work 1`, `stop`.
//! - `tick 0`: a round of upkeep. `ticks 0 8`: eight, and what all of them found. `rounds 8 3`:
//!   eight of each node below 3, in turn, if it is there, with a pause behind each turn.
//! - `until held 1`, `until given 0`, `until retired 1`, `until emptied 0`, `until has 0 2 1`: rounds
//!   until node 1 holds a segment; until the outbox of node 0 is empty, without rounds; until node 1
//!   retires; rounds of node 0 until it may retire but for other nodes, and why it may not; rounds of
//!   node 0 until it has two pairs and gives one handover. They end after 10,000 waits of a
//!   millisecond.
//! - `sight 0`, `page 0 A`, `holding 0 A`, `finger 0 1`, `lists 0`, `skipped B`, and other looks of
//!   `looking`. An identifier is as in `chord_testkit`, a key as `.abc`, or `.abc+1` behind it.
//! - `journal`: what is taken out of the journal. `go-over 300`: as `pieces` has it.
//! - `caller 2`, `client 2`: opens a caller, or a client, with a window of two requests; `c0` and
//!   `k0` are the first ones. `c0 call 0 insert a x` and the like: as `asking` has it.
//! - `c0 meet c1`: caller 0 meets a note of caller 1. `world c0 c1`, `world k0`: both, or the
//!   client, are of one world, as is proved.

use super::asking::{asked, calls, said, surely};
use super::looking::{look, sight_of};
use super::pieces::go_over;
use super::worlds::{is_in_a_world, share_a_world};
use chord_app_text::{GrammarFault, LineFault, Words};
use chord_ident::Id;
use chord_links::Peer;
use chord_live::{Caller, OpenCaller, RingClient};
use chord_live_ring::{NoProbe, Ring, RingRetireFault, Round};
use chord_live_types::TickFault;
use chord_map::Bytes;
use chord_store::{CappedStore, EntryStore};
use chord_table::Naming;
use chord_testkit::{IdText, MEMORY, Subject, Text, ident, name_of};
use chord_tree_store::TreeStore;
use std::alloc::{AllocError, Global};
use std::fmt::Debug;
use std::str::from_utf8;
use std::sync::Wait;
use std::time::{Clock, Duration};
use std::{mem, thread};

/// A kind of store that scripts make.
pub trait Roomy: EntryStore {
    /// An empty one with room for this number of pairs, if it has a limit.
    fn with_room(alloc: Global, room: u64) -> Self;
}

impl Roomy for CappedStore {
    fn with_room(alloc: Global, room: u64) -> CappedStore {
        CappedStore::new(alloc, room)
    }
}

impl Roomy for TreeStore {
    fn with_room(alloc: Global, _room: u64) -> TreeStore {
        TreeStore::new(alloc)
    }
}

#[derive(Drop)]
pub struct Running<'r, J: Naming, S: EntryStore, R> {
    rt: &'r R,
    alloc: Global,
    ring: &'r Ring<J, S>,
    callers: Vec<Caller<'r, J, S>>,
    clients: Vec<RingClient<'r, J, S>>,
    /// What was taken out of the journal last.
    spare: Vec<u8>,
}

/// The name of an outcome. Memory that was refused is told as that.
pub fn outcome<T: Debug + Copy, F: Debug + Copy>(outcome: Result<T, F>) -> Text {
    let text = name_of(&outcome);
    match text.as_str() {
        "Err(Memory)" | "Err(Submit(Memory))" => Text::of(MEMORY),
        _ => text,
    }
}

/// An identifier, or that of a key, or of one behind it.
pub fn place(words: &mut Words) -> Result<Id, LineFault> {
    let mut ahead = *words;
    let Some(key) = ahead.word()?.strip_prefix(".") else {
        return ident(words);
    };
    *words = ahead;
    match key.strip_suffix("+1") {
        Some(key) => Ok(Id::new(Id::of_bytes(key.as_bytes()).number.wrapping_add(1))),
        None => Ok(Id::of_bytes(key.as_bytes())),
    }
}

impl<'r, J: Naming, S: Roomy, R: Wait + Clock> Subject for Running<'r, J, S, R> {
    fn act(&mut self, words: &mut Words) -> Result<Text, LineFault> {
        let rt = self.rt;
        let ring = self.ring;
        let line = *words;
        let deed = words.word()?;
        match deed {
            "create" | "join" => self.enter(deed, words),
            "caller" | "client" => self.open(deed, words.number()?),
            "world" => self.world(words),
            "stop" => {
                ring.stop();
                Ok(Text::of("Done"))
            }
            "tick" => Ok(outcome(ring.tick(rt, words.number()?))),
            "ticks" => Ok(ticks(rt, ring, words.number()?, words.number()?)),
            "rounds" => Ok(rounds(rt, ring, words.number()?, words.number()?)),
            "until" => self.until(words),
            "leave" => Ok(outcome(ring.leave(rt, words.number()?))),
            "retire" => Ok(outcome(ring.retire(rt, words.number()?))),
            "crash" => Ok(outcome(ring.crash(rt, words.number()?))),
            "crash-if-safe" => Ok(outcome(ring.crash_if_safe(rt, words.number()?))),
            "rescue" => Ok(outcome(ring.rescue(rt, words.number()?))),
            "work" => Ok(outcome(ring.work(rt, words.number()?, &NoProbe))),
            "go-over" => Ok(go_over(rt, self.alloc, ring, words.number()?)),
            "journal" => Ok(journal(rt, ring, &mut self.spare, Vec::new(self.alloc))),
            _ if deed.starts_with("c") && deed.len() == 2 => self.by_caller(deed, words),
            _ if deed.starts_with("k") && deed.len() == 2 => self.by_client(deed, words),
            _ => {
                *words = line;
                look(rt, self.alloc, ring, words)
            }
        }
    }

    fn show(&self) -> Text {
        Text::of("")
    }
}

impl<'r, J: Naming, S: Roomy, R: Wait + Clock> Running<'r, J, S, R> {
    pub fn new(rt: &'r R, alloc: Global, ring: &'r Ring<J, S>) -> Running<'r, J, S, R> {
        Running {
            rt,
            alloc,
            ring,
            callers: Vec::new(alloc),
            clients: Vec::new(alloc),
            spare: Vec::new(alloc),
        }
    }

    fn enter(&self, deed: &str, words: &mut Words) -> Result<Text, LineFault> {
        let id = ident(words)?;
        let via = if deed == "join" { words.number()? } else { 0 };
        let store = S::with_room(self.alloc, words.number()?);
        if store.count() != 0 {
            drop(store);
            return Err(GrammarFault::NoLine.into());
        }
        if deed == "join" {
            let joined = self.ring.join(self.rt, id, via, store);
            entered(self.alloc, joined)
        } else {
            let created = self.ring.create(self.rt, id, store);
            entered(self.alloc, created)
        }
    }

    /// Opens one more caller, or client.
    fn open(&mut self, deed: &str, window: u64) -> Result<Text, LineFault> {
        if window < 1 || 16 < window {
            return Err(GrammarFault::NoLine.into());
        }
        self.callers.reserve(1)?;
        self.clients.reserve(1)?;
        if deed == "caller" {
            match self.ring.open_caller(self.rt, window) {
                Ok(caller) => self.callers.push(caller)?,
                Err(fault) => return Ok(name_of(&fault)),
            }
        } else {
            match self.ring.open_client(self.rt, window) {
                Ok(client) => self.clients.push(client)?,
                Err(fault) => return Ok(name_of(&fault)),
            }
        }
        Ok(Text::of("Opened"))
    }

    fn by_caller(&mut self, name: &str, words: &mut Words) -> Result<Text, LineFault> {
        let line = *words;
        let deed = words.word()?;
        if deed == "meet" {
            return self.meet(name, words.word()?);
        }
        let Some(caller) = self.callers.get_mut(index_of(name)) else {
            return Err(GrammarFault::NoLine.into());
        };
        match deed {
            "calls" => Ok(calls(caller)),
            "collect" => Ok(said(caller.collect(self.rt, words.number()?))),
            "surely-collect" => {
                let via = words.number()?;
                let came = said(caller.collect(self.rt, words.number()?));
                Ok(surely(self.rt, caller, via, came))
            }
            _ => {
                *words = line;
                asked(self.rt, self.alloc, caller, words)
            }
        }
    }

    fn by_client(&mut self, name: &str, words: &mut Words) -> Result<Text, LineFault> {
        match self.clients.get_mut(index_of(name)) {
            Some(client) => asked(self.rt, self.alloc, client, words),
            None => Err(GrammarFault::NoLine.into()),
        }
    }

    /// A caller meets a note of another one.
    fn meet(&mut self, to: &str, from: &str) -> Result<Text, LineFault> {
        let note = match self.callers.get_mut(index_of(from)) {
            Some(from) => from.show(),
            None => return Err(GrammarFault::NoLine.into()),
        };
        let Ok(note) = note else {
            return Ok(Text::of(MEMORY));
        };
        let Some(to) = self.callers.get_mut(index_of(to)) else {
            drop(note);
            return Err(GrammarFault::NoLine.into());
        };
        match to.meet(note) {
            Ok(()) => Ok(calls(to)),
            Err(AllocError) => Ok(Text::of(MEMORY)),
        }
    }

    fn world(&mut self, words: &mut Words) -> Result<Text, LineFault> {
        if words.word()? == "k0" {
            let Some(client) = self.clients.get_mut(0) else {
                return Err(GrammarFault::NoLine.into());
            };
            is_in_a_world(self.ring, client);
            return Ok(Text::of("Proved"));
        }
        if words.word()? != "c1" || self.callers.len() < 2 {
            return Err(GrammarFault::NoLine.into());
        }
        let mut zero = self.callers.remove(0);
        let mut one = self.callers.remove(0);
        share_a_world(self.ring, &mut zero, &mut one);
        self.callers.insert(0, one)?;
        self.callers.insert(0, zero)?;
        Ok(Text::of("Proved"))
    }

    /// Waits for this, and does rounds of upkeep meanwhile.
    fn until(&self, words: &mut Words) -> Result<Text, LineFault> {
        let what = words.word()?;
        let number = words.number()?;
        let (pairs, given) = match what {
            "has" => (words.number()?, words.number()?),
            _ => (0, 0),
        };
        for _ in 0..10_000u64 {
            let retired = match what {
                "retired" | "emptied" => self.ring.retire(self.rt, number),
                _ => Err(RingRetireFault::NotEmpty),
            };
            let is_so = match what {
                "retired" => retired.is_ok(),
                "emptied" => retired != Err(RingRetireFault::NotEmpty),
                _ => self.is_seen(number, what, pairs, given),
            };
            if is_so {
                return Ok(if what == "emptied" {
                    outcome(retired)
                } else {
                    Text::of("Done")
                });
            }
            self.tick_for(what, number);
            thread::sleep(self.rt, Duration::from_millis(1));
        }
        Ok(Text::of("never"))
    }

    /// The rounds between two looks.
    fn tick_for(&self, what: &str, number: u64) {
        match what {
            "given" => {}
            "has" | "emptied" => {
                let _ = self.ring.tick(self.rt, number).is_ok();
            }
            _ => {
                let _ = self.ring.tick(self.rt, 0).is_ok();
                let _ = self.ring.tick(self.rt, 1).is_ok();
            }
        }
    }

    fn is_seen(&self, number: u64, what: &str, pairs: u64, given: u64) -> bool {
        let Some(sight) = sight_of(self.rt, self.alloc, self.ring, number) else {
            return false;
        };
        let is_so = match what {
            "held" => !sight.segments.is_empty(),
            "given" => sight.outbox.is_empty(),
            _ => sight.pairs == pairs && sight.outbox.len() as u64 == given,
        };
        drop(sight);
        is_so
    }
}

/// The place of a caller or client that is named, as 1 of `c1`.
fn index_of(name: &str) -> usize {
    match name.get(1..).unwrap_or("").parse::<usize>() {
        Ok(index) => index,
        Err(_) => usize::MAX,
    }
}

/// The node that entered, or why none did, and what its store shows.
fn entered<F: Debug + Copy, S: EntryStore>(
    alloc: Global,
    entered: Result<Peer, (F, S)>,
) -> Result<Text, LineFault> {
    let (fault, mut store) = match entered {
        Ok(peer) => {
            let number = peer.number;
            let id = IdText(peer.id);
            return Ok(Text::of(format_args!("{number}@{id}")));
        }
        Err(refused) => refused,
    };
    let fault = name_of(&fault);
    if fault.as_str() == MEMORY {
        drop(store);
        return Ok(fault);
    }
    let key = Bytes::from_slice(alloc, b"a")?;
    let value = Bytes::from_slice(alloc, b"x")?;
    let id = Id::of_bytes(key.as_slice());
    let count = store.count();
    let first = store.insert(id, &key, &key);
    let second = store.insert(id, &key, &value);
    drop(value);
    drop(key);
    drop(store);
    let fault = fault.as_str();
    Ok(Text::of(format_args!("{fault}, back with {count}, {first:?}, {second:?}")))
}

/// What all of these rounds of one node found.
fn ticks<J: Naming, S: EntryStore, R: Wait>(
    rt: &R,
    ring: &Ring<J, S>,
    number: u64,
    count: u64,
) -> Text {
    let mut all: Option<Result<Round, TickFault>> = None;
    for tick in 0..count {
        let found = ring.tick(rt, number);
        if all.is_some_and(|all| all != found) {
            return Text::of(format_args!("{found:?} at {tick}"));
        }
        all = Some(found);
    }
    name_of(&all)
}

fn rounds<J: Naming, S: EntryStore, R: Wait + Clock>(
    rt: &R,
    ring: &Ring<J, S>,
    count: u64,
    nodes: u64,
) -> Text {
    for turn in 0..count.saturating_mul(nodes) {
        if nodes > 0 {
            let _ = ring.tick(rt, turn % nodes).is_ok();
            thread::sleep(rt, Duration::from_millis(1));
        }
    }
    Text::of("Done")
}

/// What is taken out of the journal, with `|` where a line ends in it, and the mark then. The bytes
/// that were taken before are used again.
fn journal<J: Naming, S: EntryStore, R: Wait>(
    rt: &R,
    ring: &Ring<J, S>,
    spare: &mut Vec<u8>,
    none: Vec<u8>,
) -> Text {
    let Some(piece) = ring.take_journal(rt, mem::replace(spare, none)) else {
        return Text::of("None");
    };
    let mark = piece.mark;
    let mut lines = from_utf8(&piece.bytes).unwrap_or("?").split("\r\n");
    let mut text = Text::of(lines.next().unwrap_or(""));
    for line in lines {
        text = text.and_str("|", 1).and_str(line, 64);
    }
    *spare = piece.bytes;
    text.and(format_args!(" mark {mark}"), 32)
}
