//! The requests of a command.
ghost use Rattle.std.specs.Prelude.{◌≡◌, IfOk, map, ◌∷◌, []};
ghost use Rattle.chord_map.specs.declared.request.Request.TheVariants as request;
ghost use Rattle.chord_resp_serve.specs.Asking.{requests_of, inserts, removes, retrieves};

use chord_map::{Bytes, Request};
use chord_resp::Command;
use std::alloc::{AllocError, Global};
use std::marker::Model;
use std::slice;

/// The requests of a command, in order. A single one is stored inline. Contracts see the list.
#[derive(Debug, Drop)]
pub struct Requests {
    stored: Stored,
}

#[derive(Debug, Drop)]
enum Stored {
    Nothing,
    One(Request),
    Many(Vec<Request>),
}

impl Model for Requests {
    ghost use Rattle.std.specs.Prelude.{List};
    ghost use Rattle.chord_map.specs.declared.request.Request.{Request};
    ghost use Rattle.chord_resp_serve.specs.Stored.{requests_in};

    ghost Value = { List Request };

    ghost view = { λ requests. requests_in requests.stored };
}

impl Requests {
    /// No request.
    fn none() -> Requests
        ensures { result ≡ [] }
    {
        Requests {
            stored: Stored::Nothing,
        }
    }

    /// A single request.
    fn one(request: Request) -> Requests
        ensures { result ≡ request ∷ [] }
    {
        Requests {
            stored: Stored::One(request),
        }
    }

    fn many(requests: Vec<Request>) -> Requests
        ensures { result ≡ requests.items }
    {
        Requests {
            stored: Stored::Many(requests),
        }
    }

    pub fn as_slice(&self) -> &[Request]
        ensures { result.now ≡ self.now }
    {
        match &self.stored {
            Stored::Nothing => &[],
            Stored::One(request) => slice::from_ref(request),
            Stored::Many(requests) => requests.as_slice(),
        }
    }
}

// Keys and values share the bytes of the command.
fn insert(key: &Bytes, member: &Bytes) -> Result<Request, AllocError>
    ensures { IfOk result (λ all. all ≡ request.Insert key.now member.now) }
{
    let (key, value) = (key.try_copy()?, member.try_copy()?);
    Ok(Request::Insert { key, value })
}

fn remove(key: &Bytes, member: &Bytes) -> Result<Request, AllocError>
    ensures { IfOk result (λ all. all ≡ request.Remove key.now member.now) }
{
    let (key, value) = (key.try_copy()?, member.try_copy()?);
    Ok(Request::Remove { key, value })
}

fn retrieve(key: &Bytes) -> Result<Request, AllocError>
    ensures { IfOk result (λ all. all ≡ request.Retrieve key.now) }
{
    let key = key.try_copy()?;
    Ok(Request::Retrieve { key })
}

fn inserts(alloc: Global, key: &Bytes, members: &[Bytes]) -> Result<Requests, AllocError>
    ensures { IfOk result (λ all. all ≡ inserts key.now members.now) }
{
    if let [member] = members {
        return Ok(Requests::one(insert(key, member)?));
    }
    let mut all = Vec::with_capacity(alloc, members.len())?;
    for member in members {
        all.push(insert(key, member)?)?;
    }
    Ok(Requests::many(all))
}

fn removes(alloc: Global, key: &Bytes, members: &[Bytes]) -> Result<Requests, AllocError>
    ensures { IfOk result (λ all. all ≡ removes key.now members.now) }
{
    if let [member] = members {
        return Ok(Requests::one(remove(key, member)?));
    }
    let mut all = Vec::with_capacity(alloc, members.len())?;
    for member in members {
        all.push(remove(key, member)?)?;
    }
    Ok(Requests::many(all))
}

fn retrieves(alloc: Global, keys: &[Bytes]) -> Result<Requests, AllocError>
    ensures { IfOk result (λ all. all ≡ retrieves keys.now) }
{
    if let [key] = keys {
        return Ok(Requests::one(retrieve(key)?));
    }
    let mut all = Vec::with_capacity(alloc, keys.len())?;
    for key in keys {
        all.push(retrieve(key)?)?;
    }
    Ok(Requests::many(all))
}

/// What the command asks the ring, in order.
pub fn requests_of(alloc: Global, command: &Command) -> Result<Requests, AllocError>
    ensures { IfOk result (λ all. all ≡ requests_of command.now) }
{
    match command {
        Command::Add { key, members } => inserts(alloc, key, members.as_slice()),
        Command::Remove { key, members } => removes(alloc, key, members.as_slice()),
        Command::Exist { keys } => retrieves(alloc, keys.as_slice()),
        Command::Members { key }
        | Command::Count { key }
        | Command::IsMember { key, .. }
        | Command::AreMembers { key, .. }
        | Command::Kind { key } => Ok(Requests::one(retrieve(key)?)),
        _ => Ok(Requests::none()),
    }
}
