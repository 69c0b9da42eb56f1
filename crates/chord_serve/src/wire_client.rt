//! A client with several requests in flight.
ghost use Rattle.std.specs.Prelude.{◌≡◌, ◌≢◌, ◌↔◌, IsTrue, ◌+◌, ◌*◌, ◌^◌, ◌<◌, ℕ, length, nat_le, fold, true, false, Ok, Err, IfOk, OnErr, IfSome, IsSome, vec_len, vec_capacity};
ghost use Rattle.std.specs.Io.KnownBytes.{IsAtEnd};
ghost use Rattle.chord_map.specs.Checked.{IsRequest};
ghost use Rattle.chord_wire.specs.Spelling.{IsWireRequest};
ghost use Rattle.chord_wire.specs.Streams.{request_frame};
ghost use Rattle.chord_serve.specs.BytesRead.{ReadsInTurns};
ghost use Rattle.chord_serve.specs.HasWindow.{HasWindow};
ghost use Rattle.chord_serve.specs.InFlight.{new_client, floor_under, floor_of, number_in, callers_spent, is_for, is_full, next_of, place_of, with_sent, SendIs, AgainIs, JudgedIs, ReceiveIs};

use crate::calls::{CallFault, await_answer};
use crate::write_bytes::write_bytes;
use chord_map::Request;
use chord_wire::{Answer, Answers, FaultCode, WireRequest, write_request, write_request_2};
use std::alloc::{AllocError, Global};
use std::io::{Read, Write};
use std::marker::Model;
use thiserror::Error;

pub mod sessions;

/// Why a request was not sent, or only in part.
#[derive(Clone, Copy, Debug, PartialEq, Eq, Error)]
pub enum SendFault {
    #[error("as many requests as the window holds are in flight")]
    WindowFull,
    #[error("all numbers are spent")]
    NumbersSpent,
    #[error("the request could not be written")]
    Write,
    #[error("out of memory")]
    Memory,
}

/// Why a request was not sent again, or only in part.
#[derive(Clone, Copy, Debug, PartialEq, Eq, Error)]
pub enum AgainFault {
    #[error("no request of this number got a fault and was not sent again since")]
    NotRefused,
    #[error("the request could not be written")]
    Write,
    #[error("out of memory")]
    Memory,
}

/// Why no answer was received.
#[derive(Clone, Copy, Debug, PartialEq, Eq, Error)]
pub enum ReceiveFault {
    #[error("no answer is awaited")]
    Idle,
    #[error("no answer came: {0}")]
    Call(CallFault),
    #[error("the answer has another number than the first request that awaits one")]
    WrongNumber,
    #[error("the answer is no reply to such a request")]
    WrongKind,
    #[error("the server has no caller for the connection, and did nothing")]
    CallersSpent,
}

/// Has up to its window of requests in flight. After a fault of reading or writing the connection
/// is of no more use; a session that an open began can be resumed over another one.
#[derive(Debug, Drop)]
pub struct WireClient {
    version: u8,
    window: u64,
    last: u64,
    awaited: Vec<WireRequest>,
    refused: Vec<WireRequest>,
    answers: Answers,
}

impl Model for WireClient {
    ghost use Rattle.chord_serve.specs.ClientState.{ClientState};
    ghost use Rattle.chord_serve.specs.HasWindow.{IsClient};

    ghost Value = { ClientState };

    ghost view = { λ c. record { version = c.version; window = c.window; last = c.last; awaited = c.awaited.items; refused = c.refused.items; bytes = c.answers } };

    ghost invariant = { λ c. IsClient (record { version = c.version; window = c.window; last = c.last; awaited = c.awaited.items; refused = c.refused.items; bytes = c.answers }) };
}

// The greatest number, at most `most`, that is below the number of each of these requests.
fn floor_under(most: u64, wires: &[WireRequest]) -> u64
    ensures { result ≡ floor_under most wires.now }
{
    wires.iter().fold(most, |floor, wire| floor.min(wire.number.saturating_sub(1)))
}

// The index of the request of this number.
fn place_of(number: u64, wires: &[WireRequest]) -> Option<usize>
    ensures place { result ≡ place_of number wires.now }
    ensures bound { IfSome result (λ place. place < length wires.now) }
{
    wires.iter().position(|wire| wire.number == number)
}

// The frame of a request of either version.
fn frame_of(alloc: Global, wire: &WireRequest) -> Result<Vec<u8>, AllocError>
    requires { IsWireRequest wire.now }
    ensures { IfOk result (λ out. out.items ≡ request_frame wire.now) }
{
    if wire.version == 1 {
        write_request(alloc, wire.number, &wire.request)
    } else {
        write_request_2(alloc, wire.number, wire.floor, &wire.request)
    }
}

// The number of an answer.
fn number_in(answer: &Answer) -> u64
    ensures { result ≡ number_in answer.now }
{
    match answer {
        Answer::Reply { number, .. } | Answer::Fault { number, .. } => *number,
    }
}

// Whether the server had no caller for the connection.
fn tells_callers_spent(answer: &Answer) -> bool
    ensures { IsTrue result ↔ (answer.now ≡ callers_spent) }
{
    match answer {
        Answer::Fault { number, code } => *number == 0 && *code == FaultCode::CallersSpent,
        Answer::Reply { .. } => false,
    }
}

// Whether the answer fits this request.
fn is_for(answer: &Answer, request: &Request) -> bool
    ensures { result ≡ is_for answer.now request.now }
{
    match answer {
        Answer::Reply { reply, .. } => reply.fits(request),
        Answer::Fault { .. } => true,
    }
}

// Judges an answer to the first request that waits: a fault moves it to the refused requests.
fn judge(
    awaited: &mut Vec<WireRequest>,
    refused: &mut Vec<WireRequest>,
    answer: Answer,
) -> Result<(u64, Answer), ReceiveFault>
    requires some { 0 < vec_len awaited.old }
    requires room { vec_len refused.old < vec_capacity refused.old }
    ensures { JudgedIs result answer awaited.old.items refused.old.items awaited.new.items refused.new.items }
{
    if tells_callers_spent(&answer) {
        return Err(ReceiveFault::CallersSpent);
    }
    let first = &awaited[0];
    if number_in(&answer) != first.number {
        return Err(ReceiveFault::WrongNumber);
    }
    if !is_for(&answer, &first.request) {
        return Err(ReceiveFault::WrongKind);
    }
    let wire = awaited.remove(0);
    let number = wire.number;
    if let Answer::Fault { .. } = &answer {
        refused.push_reserved(wire);
    }
    Ok((number, answer))
}

impl WireClient {
    /// A client of a new connection. The window is 1 in
    /// version 1 and 1 to 16 in version 2; else `None`.
    pub fn new(alloc: Global, version: u8, window: u64) -> Option<WireClient>
        ensures some { IfSome result (λ client. client ≡ new_client version window) }
        ensures which { IsSome result ↔ HasWindow version window }
    {
        let most = match version {
            1 => 1,
            2 => 16,
            _ => 0,
        };
        if window == 0 || most < window {
            return None;
        }
        Some(WireClient {
            version,
            window,
            last: 0,
            awaited: Vec::new(alloc),
            refused: Vec::new(alloc),
            answers: Answers::new(alloc),
        })
    }

    /// The number of the last request that was sent, also where its frame was written in part; 0
    /// before the first.
    pub fn last(&self) -> u64
        ensures { result ≡ self.now.last }
    {
        self.last
    }

    /// The number of requests that wait for answers.
    pub fn in_flight(&self) -> usize
        ensures { result ≡ length self.now.awaited }
    {
        self.awaited.len()
    }

    /// The greatest number with no open request at or below it.
    pub fn floor(&self) -> u64
        ensures { result ≡ floor_of self.now }
    {
        floor_under(floor_under(self.last, &self.awaited), &self.refused)
    }

    /// Whether a new request has to wait for a reply.
    pub fn is_full(&self) -> bool
        ensures { result ≡ is_full self.now }
    {
        self.window <= self.last.saturating_sub(self.floor())
    }

    // The next request.
    fn next(&self, request: Request) -> WireRequest
        requires limits { IsRequest request }
        requires room { is_full self.now ≡ false }
        requires number { self.now.last + 1 < 2 ^ 64 }
        ensures next { result ≡ next_of self.now request }
        ensures frame { IsWireRequest result }
    {
        WireRequest {
            version: self.version,
            number: self.last + 1,
            floor: self.floor(),
            request,
        }
    }

    /// Sends a request under the next number, and gives the number.
    pub fn send<W: Write>(&mut self, writer: &mut W, request: Request) -> Result<u64, SendFault>
        requires { IsRequest request }
        ensures { SendIs result request self.old (W.contents writer.old) (W.contents writer.new) self.new }
    {
        if self.is_full() {
            return Err(SendFault::WindowFull);
        }
        if self.last == u64::MAX {
            return Err(SendFault::NumbersSpent);
        }
        let Ok(frame) = self.enter(request) else {
            return Err(SendFault::Memory);
        };
        match write_bytes(writer, &frame) {
            Ok(()) => Ok(self.last),
            Err(_) => Err(SendFault::Write),
        }
    }

    // Counts the next request as sent, and gives its frame.
    fn enter(&mut self, request: Request) -> Result<Vec<u8>, AllocError>
        requires limits { IsRequest request }
        requires room { is_full self.old ≡ false }
        requires number { self.old.last + 1 < 2 ^ 64 }
        ensures frame { IfOk result (λ frame. frame.items ≡ request_frame (next_of self.old request)) }
        ensures sent { IfOk result (λ frame. self.new ≡ with_sent self.old request) }
        ensures kept { OnErr result (self.new ≡ self.old) }
    {
        let wire = self.next(request);
        let frame = frame_of(*self.awaited.allocator(), &wire)?;
        self.awaited.reserve(1)?;
        self.last = wire.number;
        self.awaited.push_reserved(wire);
        Ok(frame)
    }

    /// Writes the frame of a request that got a fault again, unchanged.
    pub fn again<W: Write>(&mut self, writer: &mut W, number: u64) -> Result<(), AgainFault>
        ensures { AgainIs result number self.old (W.contents writer.old) (W.contents writer.new) self.new }
    {
        let Some(place) = place_of(number, &self.refused) else {
            return Err(AgainFault::NotRefused);
        };
        let Ok(frame) = frame_of(*self.refused.allocator(), &self.refused[place]) else {
            return Err(AgainFault::Memory);
        };
        if self.awaited.reserve(1).is_err() {
            return Err(AgainFault::Memory);
        }
        let wire = self.refused.remove(place);
        self.awaited.push_reserved(wire);
        match write_bytes(writer, &frame) {
            Ok(()) => Ok(()),
            Err(_) => Err(AgainFault::Write),
        }
    }

    /// The answer to the first request that waits, and its number. It makes at most `turns` reads;
    /// the contract says how many bytes these may take, and tests count the reads.
    pub fn receive<R: Read>(
        &mut self,
        reader: &mut R,
        turns: u64,
    ) -> Result<(u64, Answer), ReceiveFault>
        ensures received { ReceiveIs result self.old (R.remaining reader.old) (R.remaining reader.new) self.new }
        ensures end { result ≡ Err (ReceiveFault.Call CallFault.Ended) → IsAtEnd (R.remaining reader.new) }
        ensures turns { ReadsInTurns (result ≡ Err (ReceiveFault.Call CallFault.TurnsSpent)) 4096 turns (R.remaining reader.old) (R.remaining reader.new) }
    {
        if self.awaited.is_empty() {
            return Err(ReceiveFault::Idle);
        }
        if self.refused.reserve(1).is_err() {
            return Err(ReceiveFault::Call(CallFault::Memory));
        }
        match await_answer(reader, &mut self.answers, turns) {
            Ok(answer) => judge(&mut self.awaited, &mut self.refused, answer),
            Err(fault) => Err(ReceiveFault::Call(fault)),
        }
    }
}
