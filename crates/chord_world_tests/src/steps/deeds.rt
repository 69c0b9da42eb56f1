//! The steps of the tests' scripts.

use chord_ident::Id;
use chord_map::Request;
use chord_store::EntryStore;
use chord_world::{Step, World};
use std::alloc::{AllocError, Global};

pub const A: u128 = 0x40000000000000000000000000000000;

pub const B: u128 = 0x80000000000000000000000000000000;

pub const C: u128 = 0xc0000000000000000000000000000000;

/// A step of a script. Nodes, callers and messages are named by their numbers.
#[derive(Clone, Copy)]
pub enum Deed {
    Create(u128),
    /// A node joins behind another.
    Join(u128, u64),
    /// A caller opens with this window.
    Open(u64),
    /// A caller asks node 0 to insert a value under a key.
    Insert(u64, &'static [u8], &'static [u8]),
    /// A caller asks node 0 to remove a value from under a key.
    Remove(u64, &'static [u8], &'static [u8]),
    /// A caller asks a node for a key.
    Retrieve(u64, u64, &'static [u8]),
    /// A caller asks node 0 again, under this number or the least pending one.
    Resend(u64, Option<u64>),
    Deliver(u64),
    Show(u64),
    /// A caller meets a note.
    Meet(u64, u64),
    /// A node cuts its first segment.
    Cut(u64, u128),
    /// A node gives its first segment to another.
    Give(u64, u64),
    /// Node 0 sends a part of its first handover to node 1.
    SendPart(u64),
    Leave(u64),
    Retire(u64),
    /// A node copies the list of its first entry.
    Stabilise(u64, u64),
    /// A node takes another as its first entry.
    Candidate(u64, u64),
    DropDead(u64),
    /// A node hears of another.
    Rectify(u64, u64),
    Crash(u64),
    /// A node's finger is set to another node.
    Finger(u64, u64, u64),
}

impl Deed {
    pub fn step(self, alloc: Global) -> Result<Step, AllocError> {
        let step = match self {
            Deed::Create(id) => Step::Create { id: Id::new(id) },
            Deed::Join(id, behind) => join(id, behind),
            Deed::Open(window) => Step::OpenCaller { window },
            Deed::Insert(caller, key, value) => {
                submit(caller, 0, Request::insert(alloc, key, value)?)
            }
            Deed::Remove(caller, key, value) => {
                submit(caller, 0, Request::remove(alloc, key, value)?)
            }
            Deed::Retrieve(caller, via, key) => submit(caller, via, Request::retrieve(alloc, key)?),
            Deed::Resend(caller, number) => resend(caller, number),
            Deed::Deliver(message) => Step::Deliver { message },
            Deed::Show(caller) => Step::Show { caller },
            Deed::Meet(caller, message) => Step::Meet { caller, message },
            Deed::Cut(node, at) => cut(node, at),
            Deed::Give(node, to) => give(node, to),
            Deed::SendPart(part) => send_part(part),
            Deed::Leave(node) => Step::Leave { node },
            Deed::Retire(node) => Step::Retire { node },
            Deed::Stabilise(node, head) => Step::Stabilise { node, head },
            Deed::Candidate(node, peer) => Step::Candidate { node, peer },
            Deed::DropDead(node) => Step::DropDead { node },
            Deed::Rectify(node, notifier) => Step::Rectify { node, notifier },
            Deed::Crash(node) => Step::Crash { node },
            Deed::Finger(node, finger, to) => Step::Finger { node, finger, to },
        };
        Ok(step)
    }
}

fn join(id: u128, behind: u64) -> Step {
    let id = Id::new(id);
    Step::Join { id, behind }
}

fn submit(caller: u64, via: u64, request: Request) -> Step {
    Step::Submit {
        caller,
        via,
        request,
    }
}

fn resend(caller: u64, number: Option<u64>) -> Step {
    Step::Resend {
        caller,
        via: 0,
        number,
    }
}

fn cut(node: u64, at: u128) -> Step {
    Step::Cut {
        node,
        place: 0,
        at: Id::new(at),
    }
}

fn give(node: u64, to: u64) -> Step {
    Step::Give { node, place: 0, to }
}

fn send_part(part: u64) -> Step {
    Step::SendPart {
        node: 0,
        to: 1,
        number: 1,
        part,
    }
}

/// A world in which nothing was done, whose nodes list three successors.
pub fn new_world<S: EntryStore>(alloc: Global) -> Result<Box<World<S>>, AllocError> {
    Ok(Box::new(alloc, World::new(alloc, 3))?)
}

/// The steps of a script.
pub fn steps_of(alloc: Global, script: &[Deed]) -> Result<Vec<Step>, AllocError> {
    let mut steps = Vec::new(alloc);
    for deed in script {
        steps.push(deed.step(alloc)?)?;
    }
    Ok(steps)
}
