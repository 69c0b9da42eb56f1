//! The core of a client: a caller that stores only what is above its floor.
ghost use Rattle.std.specs.Prelude.{◌≡◌, ◌≤◌, None, Some, true, IfOk};
ghost use Rattle.chord_caller.specs.Caller.{Caller, floor_of, with_given_up, AskLetter, ToldLetter};
ghost use Rattle.chord_caller.specs.Answers.{new_caller, is_pending, PendingIs, RefusalIs, ResendIs};
ghost use Rattle.chord_caller.specs.Client.{IsCoreOf, SubmitsAlike, TakesAlike, HandsOut, Simulates};

use crate::ask::Ask;
use crate::fault::{ResendFault, SubmitFault};
use crate::outcome::TakeOutcome;
use crate::request_state::{RequestState, is_number_over, settle_state, waiting_request};
use crate::told::Told;
use chord_map::Request;
use std::alloc::{AllocError, Global};
use std::collections::VecDeque;
use std::marker::Model;

/// The requests that wait, and which numbers above the floor are over: at most 16 together. What it
/// answers is what each caller answers that it is the core of, and there is such a caller.
#[derive(Debug, Drop)]
pub struct ClientCore {
    number: u64,
    window: u64,
    floor: u64,
    states: VecDeque<RequestState>,
}

impl Model for ClientCore {
    ghost use Rattle.std.specs.VecDeque.{deque_capacity};
    ghost use Rattle.chord_caller.specs.Client.{Client, client_of, IsClient};

    ghost Value = { Client };

    ghost view = { λ core. client_of core.number core.window core.floor core.states.items };

    ghost invariant = { λ core. IsClient (deque_capacity core.states) (client_of core.number core.window core.floor core.states.items) };
}

impl ClientCore {
    /// A client that has submitted nothing. Its memory
    /// is reserved for its window and does not grow.
    pub fn new(alloc: Global, number: u64, window: u64) -> Result<ClientCore, AllocError>
        requires some { 1 ≤ window }
        requires small { window ≤ 16 }
        ensures { IfOk result (λ core. IsCoreOf core (new_caller number window)) }
    {
        Ok(ClientCore {
            number,
            window,
            floor: 0,
            states: VecDeque::with_capacity(alloc, window as usize)?,
        })
    }

    /// The client's own number.
    pub fn number(&self) -> u64
        ensures { (caller : Caller) → IsCoreOf self.now caller → result ≡ caller.number }
    {
        self.number
    }

    /// The greatest number with the requests of all numbers up to it settled: the reply was taken,
    /// or the request was given up.
    pub fn floor(&self) -> u64
        ensures { (caller : Caller) → IsCoreOf self.now caller → result ≡ floor_of caller }
    {
        self.floor
    }

    /// Whether the request of this number waits for its reply.
    pub fn is_pending(&self, number: u64) -> bool
        ensures { (caller : Caller) → IsCoreOf self.now caller → result ≡ is_pending number caller }
    {
        waiting_request(&self.states, self.floor, number).is_some()
    }

    /// The least pending number.
    pub fn pending(&self) -> Option<u64>
        ensures { (caller : Caller) → IsCoreOf self.now caller → PendingIs caller result }
    {
        if self.states.is_empty() {
            None
        } else {
            Some(self.floor + 1)
        }
    }

    /// Why the request would be refused now, apart from memory.
    pub fn refusal(&self, request: &Request) -> Option<SubmitFault>
        ensures { (caller : Caller) → IsCoreOf self.now caller → RefusalIs request.now caller result }
    {
        if let Err(fault) = request.check() {
            return Some(SubmitFault::Bad(fault));
        }
        let above = self.states.len() as u64;
        if self.window <= above {
            return Some(SubmitFault::WindowFull);
        }
        if self.floor + above == u64::MAX {
            return Some(SubmitFault::NumbersSpent);
        }
        None
    }

    /// Submits a request under the next number. A refused request is dropped.
    pub fn submit(&mut self, request: Request) -> Result<Ask, SubmitFault>
        ensures waits { (caller : Caller) → IsCoreOf self.new caller → IfOk result (λ ask. is_pending ask.number caller ≡ true) }
        ensures answer { SubmitsAlike request self.old result self.new }
        ensures step { IfOk result (λ ask. Simulates self.old None self.new (Some (AskLetter ask))) }
    {
        if let Some(fault) = self.refusal(&request) {
            return Err(fault);
        }
        let copy = request.try_copy()?;
        self.states
            .push_back_reserved(RequestState::Waiting(request));
        Ok(Ask {
            caller: self.number,
            number: self.floor + self.states.len() as u64,
            floor: self.floor,
            request: copy,
            hops: 255,
        })
    }

    /// Takes a reply and hands it out. One that is not
    /// the first reply to a pending request is dropped.
    pub fn take(&mut self, told: Told) -> TakeOutcome
        ensures reply { HandsOut told result }
        ensures answer { TakesAlike told self.old result self.new }
        ensures step { Simulates self.old (Some (ToldLetter told)) self.new None }
    {
        if told.caller != self.number {
            return TakeOutcome::Foreign;
        }
        if is_number_over(&self.states, self.floor, told.number) {
            return TakeOutcome::Known;
        }
        let Some(request) = waiting_request(&self.states, self.floor, told.number) else {
            return TakeOutcome::Foreign;
        };
        if !told.reply.fits(request) {
            return TakeOutcome::Foreign;
        }
        self.floor = settle_state(&mut self.states, self.floor, told.number);
        TakeOutcome::Fresh(told.reply)
    }

    /// Gives a pending request up: it is settled without a reply, and a reply to it that comes later
    /// is not taken. What was sent of it may have acted, or may still act, once.
    pub fn give_up(&mut self, number: u64)
        requires { (caller : Caller) → IsCoreOf self.old caller → is_pending number caller ≡ true }
        ensures answer { (caller : Caller) → IsCoreOf self.old caller → IsCoreOf self.new (with_given_up number caller) }
        ensures step { Simulates self.old None self.new None }
    {
        self.floor = settle_state(&mut self.states, self.floor, number);
    }

    /// Sends a pending request again, under its number and with the present floor.
    pub fn resend(&self, number: u64) -> Result<Ask, ResendFault>
        ensures answer { (caller : Caller) → IsCoreOf self.now caller → ResendIs number caller result }
        ensures step { IfOk result (λ ask. Simulates self.now None self.now (Some (AskLetter ask))) }
    {
        let Some(request) = waiting_request(&self.states, self.floor, number) else {
            return Err(ResendFault::Idle);
        };
        let request = request.try_copy()?;
        Ok(Ask {
            caller: self.number,
            number,
            floor: self.floor,
            request,
            hops: 255,
        })
    }
}
