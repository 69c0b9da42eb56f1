//! The core of a caller.
ghost use Rattle.std.specs.Prelude.{◌≡◌, ◌≤◌, ◌++◌, None, Some, is_some, true, IfOk, OnOk, OnErr};
ghost use Rattle.std.specs.Option.{option_copied};
ghost use Rattle.chord_map.specs.History.{done_at};
ghost use Rattle.chord_caller.specs.Caller.{floor_of, known_calls, unknown_calls, submission_at, with_given_up, AskLetter, ToldLetter, NoteLetter, CallerStep};
ghost use Rattle.chord_caller.specs.Answers.{new_caller, is_pending, PendingIs, RefusalIs, SubmitIs, ResendIs, TakeIs};

use crate::ask::Ask;
use crate::fault::{ResendFault, SubmitFault, TakeFault};
use crate::heard::Heard;
use crate::note::{Note, copy_unknown};
use crate::submitted::{
    RequestProgress, Submitted, done_in, give_up_at, raise_floor, settle, submission,
};
use crate::told::Told;
use chord_map::{Done, Request, copy_dones};
use std::alloc::{AllocError, Global};
use std::marker::Model;

/// What a caller submitted, what it took, what notes told
/// it, and what it gave up. At most 16 requests wait at a time.
#[derive(Debug, Drop)]
pub struct CallerCore {
    number: u64,
    window: u64,
    floor: u64,
    submitted: Vec<Submitted>,
    mine: Vec<Done>,
    told: Vec<Done>,
}

impl Model for CallerCore {
    ghost use Rattle.chord_caller.specs.Caller.{Caller};
    ghost use Rattle.chord_caller.specs.Submitted.{caller_of, IsCaller};

    ghost Value = { Caller };

    ghost view = { λ core. caller_of core.number core.window core.submitted.items core.mine.items core.told.items };

    ghost invariant = { λ core. IsCaller core.number core.window core.floor core.submitted.items core.mine.items };
}

impl CallerCore {
    /// A caller that has submitted nothing.
    pub fn new(alloc: Global, number: u64, window: u64) -> CallerCore
        requires some { 1 ≤ window }
        requires small { window ≤ 16 }
        ensures { result ≡ new_caller number window }
    {
        CallerCore {
            number,
            window,
            floor: 0,
            submitted: Vec::new(alloc),
            mine: Vec::new(alloc),
            told: Vec::new(alloc),
        }
    }

    /// The caller's own number.
    pub fn number(&self) -> u64
        ensures { result ≡ self.now.number }
    {
        self.number
    }

    /// The calls whose replies it took, in the order taken.
    pub fn mine(&self) -> &[Done]
        ensures { result.now ≡ self.now.mine }
    {
        self.mine.as_slice()
    }

    /// The calls that notes told it of.
    pub fn told(&self) -> &[Done]
        ensures { result.now ≡ self.now.told }
    {
        self.told.as_slice()
    }

    /// The greatest number with the requests of all numbers up to it settled: the reply was taken,
    /// or the request was given up.
    pub fn floor(&self) -> u64
        ensures { result ≡ floor_of self.now }
    {
        self.floor
    }

    /// Whether the request of this number waits for its reply.
    pub fn is_pending(&self, number: u64) -> bool
        ensures { result ≡ is_pending number self.now }
    {
        match submission(&self.submitted, number) {
            Some(submitted) => matches!(&submitted.progress, RequestProgress::Pending(_)),
            None => false,
        }
    }

    /// Whether a request of this number was submitted.
    pub fn was_submitted(&self, number: u64) -> bool
        ensures { result ≡ is_some (submission_at number self.now.submitted) }
    {
        submission(&self.submitted, number).is_some()
    }

    /// The call of this number, if its reply was taken.
    pub fn taken(&self, number: u64) -> Option<&Done>
        ensures { option_copied result ≡ done_at self.now.number number self.now.mine }
    {
        match submission(&self.submitted, number) {
            Some(submitted) => match &submitted.progress {
                RequestProgress::Taken(place) => done_in(&self.mine, *place),
                RequestProgress::Pending(_) => None,
                RequestProgress::GivenUp(_) => None,
            },
            None => None,
        }
    }

    /// The least pending number.
    pub fn pending(&self) -> Option<u64>
        ensures { PendingIs self.now result }
    {
        if self.floor < self.submitted.len() as u64 {
            Some(self.floor + 1)
        } else {
            None
        }
    }

    /// Why the request would be refused now, apart from memory.
    pub fn refusal(&self, request: &Request) -> Option<SubmitFault>
        ensures { RefusalIs request.now self.now result }
    {
        if let Err(fault) = request.check() {
            return Some(SubmitFault::Bad(fault));
        }
        let last = self.submitted.len() as u64;
        if self.window <= last - self.floor {
            return Some(SubmitFault::WindowFull);
        }
        if last == u64::MAX {
            return Some(SubmitFault::NumbersSpent);
        }
        None
    }

    /// Submits a request under the next number. A refused request is dropped.
    pub fn submit(&mut self, request: Request) -> Result<Ask, SubmitFault>
        ensures answer { SubmitIs request self.old result self.new }
        ensures waits { IfOk result (λ ask. is_pending ask.number self.new ≡ true) }
        ensures step { IfOk result (λ ask. CallerStep self.old None self.new (Some (AskLetter ask))) }
    {
        if let Some(fault) = self.refusal(&request) {
            return Err(fault);
        }
        let copy = request.try_copy()?;
        self.submitted.reserve(1)?;
        let submitted = Submitted {
            progress: RequestProgress::Pending(request),
            mine_seen: self.mine.len() as u64,
            told_seen: self.told.len() as u64,
        };
        self.submitted.push_reserved(submitted);
        Ok(Ask {
            caller: self.number,
            number: self.submitted.len() as u64,
            floor: self.floor,
            request: copy,
            hops: 255,
        })
    }

    /// Takes a reply. A refused reply is dropped.
    pub fn take(&mut self, told: Told) -> Result<Heard, TakeFault>
        ensures answer { TakeIs told self.old result self.new }
        ensures step { IfOk result (λ heard. CallerStep self.old (Some (ToldLetter told)) self.new None) }
    {
        if told.caller != self.number {
            return Err(TakeFault::Foreign);
        }
        let Some(submitted) = submission(&self.submitted, told.number) else {
            return Err(TakeFault::Foreign);
        };
        let RequestProgress::Pending(request) = &submitted.progress else {
            return Ok(Heard::Known);
        };
        if !told.reply.fits(request) {
            return Err(TakeFault::Foreign);
        }
        self.mine.reserve(1)?;
        settle(&mut self.submitted, &mut self.mine, told);
        self.floor = raise_floor(&self.submitted, self.floor);
        Ok(Heard::Fresh)
    }

    /// Sends a pending request again, under its number and with the present floor.
    pub fn resend(&self, number: u64) -> Result<Ask, ResendFault>
        ensures answer { ResendIs number self.now result }
        ensures step { IfOk result (λ ask. CallerStep self.now None self.now (Some (AskLetter ask))) }
    {
        let Some(submitted) = submission(&self.submitted, number) else {
            return Err(ResendFault::Idle);
        };
        let RequestProgress::Pending(request) = &submitted.progress else {
            return Err(ResendFault::Idle);
        };
        let request = request.try_copy()?;
        Ok(Ask {
            caller: self.number,
            number,
            floor: self.floor,
            request,
            hops: 255,
        })
    }

    /// Gives a pending request up: it is settled without a reply, and a reply to it that comes later
    /// is not taken. What was sent of it may have acted, or may still act, once.
    pub fn give_up(&mut self, number: u64)
        requires { is_pending number self.old ≡ true }
        ensures answer { self.new ≡ with_given_up number self.old }
        ensures step { CallerStep self.old None self.new None }
    {
        give_up_at(&mut self.submitted, number);
        let submitted = &self.submitted;
        self.floor = raise_floor(submitted, self.floor);
    }

    /// A note of what the caller knows.
    pub fn show(&self) -> Result<Note, AllocError>
        ensures note { IfOk result (λ note. note ≡ record { caller = self.now.number; done = known_calls self.now }) }
        ensures step { IfOk result (λ note. CallerStep self.now None self.now (Some (NoteLetter note))) }
    {
        let mut done = copy_dones(*self.mine.allocator(), &self.mine)?;
        let mut told = copy_dones(*self.told.allocator(), &self.told)?;
        done.append(&mut told)?;
        Ok(Note {
            caller: self.number,
            done,
        })
    }

    /// Learns the calls of a note that it did not know.
    pub fn meet(&mut self, note: &Note) -> Result<(), AllocError>
        ensures ok { OnOk result (self.new ≡ record self.old { told = self.old.told ++ unknown_calls self.old note.now.done }) }
        ensures err { OnErr result (self.new ≡ self.old) }
        ensures step { OnOk result (CallerStep self.old (Some (NoteLetter note.now)) self.new None) }
    {
        let mut news = copy_unknown(*self.told.allocator(), &note.done, &self.mine, &self.told)?;
        self.told.append(&mut news)?;
        Ok(())
    }
}
