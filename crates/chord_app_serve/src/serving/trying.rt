//! A caller of a ring, as the asker of a session that never waits.
ghost use Rattle.std.specs.Prelude.{◌≡◌, [], true, Err};
ghost use Rattle.chord_app_serve.specs.Asked.{asked_since};
ghost use Rattle.chord_app_serve.specs.Tried.{TriesBy, first_trying};
ghost use Rattle.chord_caller.specs.Caller.{next_number};
ghost use Rattle.chord_live_steps.specs.Asking.{CallIs};
ghost use Rattle.chord_live_steps.specs.Ending.{AwaitIs};
ghost use Rattle.chord_live_types.specs.declared.caller.AskFault.TheVariants as ask;
ghost use Rattle.chord_live_types.specs.declared.caller.RetryFault.TheVariants as retry;
ghost use Rattle.chord_live_types.specs.declared.caller.WaitFault.TheVariants as wait;

use crate::serving::asker::{answer_of_call, answer_of_retry, settle};
use crate::serving::idle::IdleCaller;
use crate::serving::request_tally::ClientTally;
use chord_live::RingClient;
use chord_live_types::{AskFault, RetryFault, WaitFault};
use chord_map::{Reply, Request};
use chord_serve::{Asked, Asker};
use chord_store::EntryStore;
use chord_table::Naming;
use std::marker::Model;
use std::sync::Wait;
use std::sync::atomic::{AtomicBool, Ordering};
use std::time::{Clock, Instant};

/// Asks at one node, by a caller that keeps no replies, and tries each request once at a time. The
/// caller's number of a request is the session's plus `before`.
#[derive(Drop)]
pub struct TryingAsker<'a, J: Naming, S: EntryStore, R> {
    rt: &'a R,
    caller: RingClient<'a, J, S>,
    via: u64,
    /// How many requests the caller had submitted when the session began.
    before: u64,
    /// How many it has submitted.
    count: u64,
    /// The caller's number of the last request.
    last: u64,
    /// Whether that waits for its reply.
    waits: bool,
    /// When it began.
    began: Option<Instant>,
    /// Whether it was counted in and not out.
    is_counted: AtomicBool,
    tally: ClientTally<'a>,
}

impl<'a, J: Naming, S: EntryStore, R> Model for TryingAsker<'a, J, S, R> {
    ghost use Rattle.std.specs.Prelude.{◌≡◌, ◌≤◌, length};
    ghost use Rattle.chord_app_serve.specs.Tried.{TrySight};

    ghost Value = { TrySight };

    ghost view = { λ a. record { before = a.before; via = a.via; last = a.last; waits = a.waits; caller = a.caller } };

    ghost invariant = { λ a. (a.before ≤ a.count) × (a.count ≡ length a.caller.caller.submitted) };
}

/// Whether a new request waits for its reply.
fn call_waits(ended: &Result<Reply, AskFault>) -> bool
    ensures { result ≡ true → ended.now ≡ Err (ask.Wait wait.NoAnswer) }
{
    matches!(ended, Err(AskFault::Wait(WaitFault::NoAnswer)))
}

/// Whether a request that was sent again waits for its reply.
fn retry_waits(ended: &Result<Reply, RetryFault>) -> bool
    ensures { result ≡ true → ended.now ≡ Err (retry.Wait wait.NoAnswer) }
{
    matches!(ended, Err(RetryFault::Wait(WaitFault::NoAnswer)))
}

impl<'a, J: Naming, S: EntryStore, R: Wait + Clock> TryingAsker<'a, J, S, R> {
    /// Asks at the node `via`, and counts the requests. The session begins with no request.
    pub fn new(
        rt: &'a R,
        idle: IdleCaller<'a, J, S>,
        via: u64,
        tally: ClientTally<'a>,
    ) -> TryingAsker<'a, J, S, R>
        ensures first { result ≡ first_trying idle.entry.caller via }
        ensures fresh { asked_since result.before result.caller ≡ [] }
    {
        let caller = idle.into_caller();
        let before = caller.floor();
        TryingAsker {
            rt,
            caller,
            via,
            before,
            count: before,
            last: 0,
            waits: false,
            began: None,
            is_counted: AtomicBool::new(false),
            tally,
        }
    }

    /// The caller, for its next session.
    pub fn into_caller(self) -> RingClient<'a, J, S>
        ensures { result ≡ self.entry.caller }
    {
        self.count_out(&Asked::NoAnswer);
        self.caller
    }

    /// Counts the last request out with its answer, if it is counted in still.
    fn count_out(&self, answer: &Asked) {
        if self.is_counted.swap(false, Ordering::Relaxed) {
            self.tally.end(self.rt, self.began, answer);
        }
    }

    /// Counts a request in. The last one got no answer, if it is counted in still.
    fn count_in(&self) -> Option<Instant> {
        self.count_out(&Asked::NoAnswer);
        self.is_counted.store(true, Ordering::Relaxed);
        self.tally.begin(self.rt)
    }

    /// Counts the last request out with its answer, unless it waits.
    fn end(&self, answer: &Asked) {
        if !self.waits {
            self.count_out(answer);
        }
    }

    /// Submits a request, and tries it once.
    fn call(&mut self, request: Request) -> Result<Reply, AskFault>
        ensures answer { CallIs AwaitIs request self.old.caller result self.new.caller }
        ensures last { result ≡ Err (ask.Wait wait.NoAnswer) → self.new.last ≡ next_number self.old.caller.caller }
        ensures same { self.new ≡ record self.old { caller = self.new.caller; last = self.new.last } }
    {
        let ended = self.caller.try_call(self.rt, self.via, request);
        if !matches!(ended, Err(AskFault::Begin(_))) {
            self.count += 1;
            self.last = self.count;
        }
        ended
    }
}

impl<'a, J: Naming, S: EntryStore, R: Wait + Clock> Asker for TryingAsker<'a, J, S, R> {
    ghost answers = { TriesBy };

    ghost asked = { λ a. asked_since a.before a.caller };

    /// Asks a request, by one try of the caller.
    fn ask(&mut self, request: &Request, floor: u64) -> Asked {
        settle(&mut self.caller, self.before, floor);
        self.waits = false;
        self.began = self.count_in();
        let Ok(copy) = request.try_copy() else {
            self.end(&Asked::Memory);
            return Asked::Memory;
        };
        let ended = self.call(copy);
        self.waits = call_waits(&ended);
        let answer = answer_of_call(ended);
        self.end(&answer);
        answer
    }

    /// Sends the request of this number once more; the caller's number is greater by `before`.
    fn retry(&mut self, number: u64, floor: u64) -> Asked {
        settle(&mut self.caller, self.before, floor);
        self.waits = false;
        self.began = self.count_in();
        let Some(submitted) = self.before.checked_add(number) else {
            self.end(&Asked::NoAnswer);
            return Asked::NoAnswer;
        };
        let ended = self.caller.try_call_again(self.rt, self.via, submitted);
        self.last = submitted;
        self.waits = retry_waits(&ended);
        let answer = answer_of_retry(ended);
        self.end(&answer);
        answer
    }

    fn refuse(&self) {
        self.tally.refuse();
    }

    fn leave_unanswered(&self) {
        self.count_out(&Asked::NoAnswer);
    }

    fn may_try_again(&self) -> bool {
        self.waits
    }

    fn try_again(&mut self) -> Asked {
        if !self.waits {
            return Asked::NoAnswer;
        }
        let ended = self.caller.try_call_again(self.rt, self.via, self.last);
        self.waits = retry_waits(&ended);
        let answer = answer_of_retry(ended);
        self.end(&answer);
        answer
    }

    ghost notes = { λ a b question answer heard. heard.0.0.notes };

    ghost kind = { λ a b question answer heard. heard.0.0.kind };
}
