//! The requests of a session and their reply frames.
ghost use Rattle.chord_wire.specs.Spelling.{IsWireRequest};
ghost use Rattle.std.specs.Prelude.{◌≡◌, ◌≢◌, IsSome, ◌≤◌, ◌^◌, slice_get, Some, ◌<◌, ◌-◌, ◌+◌, length, OnOk, OnErr};
ghost use Rattle.chord_session.specs.Session.{first_state, last_number, is_out, raised, with_accepted, place_of, move_at, move_of, with_open_request, answered_at, frame_kept, frame_bytes, bytes_held};
ghost use Rattle.std.specs.Option.{option_map};

use crate::asked_request::AskedRequest;
use chord_map::{Bytes, Request};
use chord_wire::{FaultCode, WireRequest};
use std::alloc::{AllocError, Global};
use std::marker::Model;

/// What to do with a request.
#[derive(Clone, Copy, Debug, PartialEq, Eq)]
pub enum Move {
    /// Write this fault.
    Refuse(FaultCode),
    /// Write its reply frame again.
    Again,
    /// Ask it.
    Ask,
    /// Ask it again by its number: it was asked and got no reply.
    Retry,
}

/// The requests above the greatest floor accepted, by number from floor + 1 on.
#[derive(Debug, Drop)]
pub struct Session {
    floor: u64,
    kept: Vec<AskedRequest>,
}

impl Model for Session {
    ghost use Rattle.std.specs.Prelude.{◌+◌, ◌<◌, ◌^◌, vec_len};
    ghost use Rattle.chord_session.specs.SessionState.{SessionState};

    ghost Value = { SessionState };

    ghost view = { λ s. record { floor = s.floor; kept = s.kept.items } };

    ghost invariant = { λ s. s.floor + vec_len s.kept < 2 ^ 64 };
}

// How many bytes the reply frame has, if there is one.
fn frame_bytes(one: &AskedRequest) -> u64
    ensures { result ≡ frame_bytes one.now }
{
    match &one.frame {
        Some(frame) => frame.as_slice().len() as u64,
        None => 0,
    }
}

impl Session {
    pub fn new(alloc: Global) -> Session
        ensures { result ≡ first_state }
    {
        Session {
            floor: 0,
            kept: Vec::new(alloc),
        }
    }

    /// The greatest floor accepted.
    pub fn floor(&self) -> u64
        ensures { result ≡ self.now.floor }
    {
        self.floor
    }

    /// The last number asked.
    pub fn last(&self) -> u64
        ensures { result ≡ last_number self.now }
    {
        self.floor + self.kept.len() as u64
    }

    /// How many bytes the kept reply frames have; `u64::MAX` stands for more.
    pub fn bytes(&self) -> u64
        ensures { result ≡ bytes_held self.now }
    {
        self.kept
            .iter()
            .fold(0, |sum, one| sum.saturating_add(frame_bytes(one)))
    }

    /// What to do with the request. Unless its number is out of line, the session's floor rises to
    /// the request's: the client wants nothing of the requests up to it any more, also of those
    /// without a reply.
    pub fn accept(&mut self, wire: &WireRequest) -> Move
        requires { IsWireRequest wire.now }
        ensures call { result ≡ move_of self.old wire.now }
        ensures state { self.new ≡ with_accepted self.old wire.now }
        ensures code { result ≢ Move.Refuse FaultCode.Memory }
        ensures above { result ≢ Move.Refuse FaultCode.BadNumber → self.new.floor < wire.now.number }
        ensures next { result ≡ Move.Ask → wire.now.number ≡ last_number self.new + 1 }
        ensures asked { result ≡ Move.Retry → wire.now.number ≤ last_number self.new }
        ensures answered { result ≡ Move.Again → IsSome (frame_kept self.new wire.now.number) }
    {
        if self.is_out(wire) {
            return Move::Refuse(FaultCode::BadNumber);
        }
        self.raise(wire.floor);
        self.move_at(wire.number, &wire.request)
    }

    fn is_out(&self, wire: &WireRequest) -> bool
        ensures test { result ≡ is_out self.now wire.now }
        ensures in_range { last_number self.now < 2 ^ 64 }
    {
        let last = self.floor + self.kept.len() as u64;
        let number = wire.number;
        number == 0 || number <= self.floor || last < number - 1
    }

    fn raise(&mut self, floor: u64)
        requires { floor ≤ last_number self.old }
        ensures { self.new ≡ raised self.old floor }
    {
        if self.floor < floor {
            self.kept.drain(..(floor - self.floor) as usize);
            self.floor = floor;
        }
    }

    /// Adds a request that is not answered yet.
    pub fn add(&mut self, request: Request) -> Result<(), AllocError>
        requires { last_number self.old < 2 ^ 64 - 1 }
        ensures ok { OnOk result (self.new ≡ with_open_request self.old request) }
    {
        self.kept.push(AskedRequest {
            request,
            frame: None,
        })?;
        Ok(())
    }

    /// The request added last.
    pub fn newest(&self) -> &Request
        requires { 0 < length self.now.kept }
        ensures { option_map (λ k. k.request) (slice_get self.now.kept (length self.now.kept - 1)) ≡ Some result.now }
    {
        &self.kept[self.kept.len() - 1].request
    }

    /// Stores the reply frame of a number.
    pub fn keep(&mut self, number: u64, frame: Bytes)
        requires above { self.old.floor < number }
        requires kept { number ≤ last_number self.old }
        ensures { self.new ≡ answered_at self.old number frame }
    {
        let place = self.place_of(number);
        self.kept[place].frame = Some(frame);
    }

    /// The reply frame of a number, if there is one.
    pub fn frame_of(&self, number: u64) -> Option<&Bytes>
        requires { self.now.floor < number }
        ensures { option_map (λ f. f.now) result ≡ frame_kept self.now number }
    {
        self.kept.get(self.place_of(number))?.frame.as_ref()
    }

    fn place_of(&self, number: u64) -> usize
        requires { self.now.floor < number }
        ensures { result ≡ place_of self.now number }
    {
        (number - self.floor - 1) as usize
    }

    fn move_at(&self, number: u64, request: &Request) -> Move
        requires { self.now.floor < number }
        ensures { result ≡ move_at (slice_get self.now.kept (place_of self.now number)) request.now }
    {
        match self.kept.get(self.place_of(number)) {
            None => Move::Ask,
            Some(kept) => {
                if kept.request != *request {
                    Move::Refuse(FaultCode::NumberReused)
                } else if kept.frame.is_some() {
                    Move::Again
                } else {
                    Move::Retry
                }
            }
        }
    }
}
