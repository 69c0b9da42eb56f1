//! The answers to commands.
ghost use Rattle.std.specs.Prelude.{◌≡◌, ℕ, List, IfOk, map, bytes_eq};
ghost use Rattle.std.specs.List.{list_any};
ghost use Rattle.chord_resp.specs.Answers.{Joins};
ghost use Rattle.chord_resp_serve.specs.Answering.{values_in, membership, kind_of, hello, answer_of, refusal_of};

use crate::about::About;
use crate::tally::{Stopped, Tally};
use chord_map::{Bytes, Reply};
use chord_resp::{
    Command, Progress, Refusal, put_bulk, put_bulks, put_count, put_integer, put_integers,
    put_null, put_simple,
};
use std::alloc::{AllocError, Global};

/// How many commands COMMAND COUNT tells of.
const COMMANDS: u64 = 32;

impl Tally {
    // The values of the last reply.
    fn values(&self) -> &[Bytes]
        ensures { result.now ≡ values_in self.now.last }
    {
        match &self.last {
            Some(Reply::Values(values)) => values.as_slice(),
            _ => &[],
        }
    }
}

fn has(values: &[Bytes], member: &[u8]) -> bool
    ensures { result ≡ list_any (λ (value : List ℕ). bytes_eq value member.now) values.now }
{
    let mut rest = values;
    while let [value, more @ ..] = rest {
        if value.as_slice() == member {
            return true;
        }
        rest = more;
    }
    false
}

fn membership(values: &[Bytes], member: &Bytes) -> u64
    ensures { result ≡ membership values.now member.now }
{
    if has(values, member.as_slice()) { 1 } else { 0 }
}

fn memberships(alloc: Global, values: &[Bytes], members: &[Bytes]) -> Result<Vec<u64>, AllocError>
    ensures { IfOk result (λ all. all.items ≡ map (membership values.now) members.now) }
{
    let mut all = Vec::with_capacity(alloc, members.len())?;
    for member in members {
        all.push(membership(values, member))?;
    }
    Ok(all)
}

fn kind_of(values: &[Bytes]) -> &'static [u8]
    ensures { result.now ≡ kind_of values.now }
{
    if values.is_empty() { b"none" } else { b"set" }
}

fn hello(alloc: Global, number: u64) -> Result<Vec<u8>, AllocError>
    ensures { IfOk result (λ text. text.items ≡ hello number) }
{
    let mut text = Vec::from_slice(
        alloc,
        b"*14\r\n$6\r\nserver\r\n$5\r\nchord\r\n$7\r\nversion\r\n$5\r\n7.0.0\r\n$5\r\nproto\r\n:2\r\n$2\r\nid\r\n",
    )?;
    put_integer(&mut text, number)?;
    text.extend_from_slice(
        b"$4\r\nmode\r\n$10\r\nstandalone\r\n$4\r\nrole\r\n$6\r\nmaster\r\n$7\r\nmodules\r\n*0\r\n",
    )?;
    Ok(text)
}

/// Adds the answer to a command whose requests are done.
pub fn put_answer(
    alloc: Global,
    out: &mut Vec<u8>,
    about: About<'_>,
    command: &Command,
    tally: &Tally,
) -> Result<(), AllocError>
    ensures { Joins result out.old.items out.new.items (answer_of about.entry command.now tally.now) }
{
    match command {
        Command::Add { .. } | Command::Remove { .. } | Command::Exist { .. } => {
            put_integer(out, tally.count)
        }
        Command::Members { .. } => put_bulks(out, tally.values()),
        Command::Count { .. } => put_integer(out, tally.values().len() as u64),
        Command::IsMember { member, .. } => put_integer(out, membership(tally.values(), member)),
        Command::AreMembers { members, .. } => {
            let all = memberships(alloc, tally.values(), members.as_slice())?;
            put_integers(out, &all)
        }
        Command::Kind { .. } => put_simple(out, kind_of(tally.values())),
        Command::Ping => put_simple(out, b"PONG"),
        Command::Echo { word } => put_bulk(out, word.as_slice()),
        Command::Accept | Command::Auth | Command::Quit | Command::Multi | Command::Discard =>
            put_simple(out, b"OK"),
        Command::Shutdown => Ok(()),
        Command::Reset => put_simple(out, b"RESET"),
        Command::Name => put_null(out),
        Command::Number => put_integer(out, about.number),
        Command::Hello => {
            let text = hello(alloc, about.number)?;
            out.extend_from_slice(&text)
        }
        Command::Nothing | Command::Exec => put_count(out, 0),
        Command::Commands => put_integer(out, COMMANDS),
        Command::Info => put_bulk(out, about.info),
        Command::Time => out.extend_from_slice(about.info),
    }
}

impl Stopped {
    /// The error of a command that asks `of` requests; none if memory ran out.
    pub fn refusal(self, of: u64) -> Option<Refusal>
        ensures { result ≡ refusal_of of self }
    {
        match self {
            Stopped::SetFull(done) => Some(Refusal::SetFull(Progress { done, of })),
            Stopped::StoreFull(done) => Some(Refusal::StoreFull(Progress { done, of })),
            Stopped::NoAnswer(done) => Some(Refusal::NoAnswer(Progress { done, of })),
            Stopped::Memory => None,
        }
    }
}
