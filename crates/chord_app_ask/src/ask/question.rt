//! A request and its progress.
ghost use Rattle.std.specs.Prelude.{◌≡◌, ◌≢◌, ◌⊎◌, ◌↔◌, ◌+◌, ◌&&◌, IsTrue, None, Some, Ok, true};
ghost use Rattle.std.specs.Prelude.{false, nat_lt, is_some, not, IfErr};
ghost use Rattle.std.specs.Option.{option_copied};
ghost use Rattle.chord_map.specs.Checked.{IsRequest};
ghost use Rattle.chord_app_ask.specs.Questions.{may_change, is_lost, may_pass, outcome_given_up};
ghost use Rattle.chord_app_ask.specs.Questions.{outcome_refused, outcome_of, outcome_after_loss};
ghost use Rattle.chord_app_ask.specs.Questions.{IsSentOnce, IsUnsent, IsCounted, MaySendNoMore};

use crate::ask::link::{Link, LinkState};
use crate::ask::outcome::AskOutcome;
use chord_app_text::Finish;
use chord_map::Request;
use chord_serve::SendFault;
use chord_wire::{Answer, FaultCode};

/// An insert or a remove that is still open was either never sent, or was sent in the session that
/// is open now. A connection without a session counts as one that ends with it.
#[derive(Drop)]
pub struct Question {
    request: Request,
    /// Its number in the open session, if it was sent there.
    number: Option<u64>,
    /// How many times it was sent.
    times: u32,
    outcome: Option<AskOutcome>,
    ghost limits: { IsRequest request },
    ghost once: { IsSentOnce request number times outcome },
}

/// Whether it is an insert or a remove.
fn may_change(request: &Request) -> bool
    ensures { result ≡ may_change request.now }
{
    match request {
        Request::Retrieve { .. } => false,
        Request::Insert { .. } | Request::Remove { .. } => true,
    }
}

/// Whether a request with no answer, sent this many times, is given up once its session ended.
fn is_lost(request: &Request, times: u32, tries: u32) -> bool
    ensures { result ≡ is_lost request.now times tries }
{
    times >= tries || (times != 0 && may_change(request))
}

impl Question {
    /// A request that was not sent yet.
    pub fn new(request: Request) -> Question
        requires { IsRequest request }
        ensures request { result.request ≡ request }
        ensures unsent { (result.number ≡ None) × (result.times ≡ 0) × (result.outcome ≡ None) }
    {
        Question {
            request,
            number: None,
            times: 0,
            outcome: None,
        }
    }

    pub fn outcome(&self) -> Option<&AskOutcome>
        ensures { option_copied result ≡ self.now.outcome }
    {
        self.outcome.as_ref()
    }

    pub fn is_open(&self) -> bool
        ensures { result ≡ not (is_some self.now.outcome) }
    {
        self.outcome.is_none()
    }

    /// Whether it was sent under this number.
    pub fn has(&self, number: u64) -> bool
        ensures { IsTrue result ↔ (self.now.number ≡ Some number) }
    {
        self.number == Some(number)
    }

    /// Sends it, if it is open and was not sent in this session.
    pub fn send(&mut self, link: &mut Link) -> Result<LinkState, Finish>
        ensures sent { self.old.number ≢ None → self.new ≡ self.old }
        ensures done { self.old.outcome ≢ None → self.new ≡ self.old }
        ensures same { (self.new.request ≡ self.old.request)
            × (self.new.outcome ≡ self.old.outcome) }
        ensures counted { ((self.new ≡ self.old) × (link.new.client ≡ link.old.client))
            ⊎ IsCounted self.old.request self.old.times link.old.client self.new.number
            self.new.times link.new.client }
        ensures open { result ≡ Ok LinkState.Open → IsUnsent self.old.number self.old.outcome
            → is_some self.new.number ≡ true }
        ensures broken { result ≡ Ok LinkState.Broken → self.new.number ≡ None
            → MaySendNoMore link.old.client }
        ensures no_other { result ≢ Ok LinkState.CallersSpent }
        ensures memory { IfErr result
            (λ end. (end ≡ Finish.OutOfMemory) × IsUnsent self.old.number self.old.outcome) }
    {
        if self.outcome.is_some() || self.number.is_some() {
            return Ok(LinkState::Open);
        }
        let request = self.request.try_copy()?;
        let mut writer = &link.stream;
        let (number, state) = match link.client.send(&mut writer, request) {
            Ok(number) => (number, LinkState::Open),
            Err(SendFault::Write) => (link.client.last(), LinkState::Broken),
            Err(SendFault::WindowFull) | Err(SendFault::NumbersSpent) => {
                return Ok(LinkState::Broken);
            }
            Err(SendFault::Memory) => return Err(Finish::OutOfMemory),
        };
        self.number = Some(number);
        self.times = self.times.saturating_add(1);
        Ok(state)
    }

    /// Takes its answer. Says whether to send it again, which is done until it was sent `tries`
    /// times.
    pub fn take(&mut self, answer: Answer, tries: u32) -> bool
        ensures again { result
            ≡ (may_pass answer && (is_some self.old.number && nat_lt self.old.times tries)) }
        ensures same { (self.new.request ≡ self.old.request) × (self.new.number ≡ self.old.number) }
        ensures passed { result ≡ true → (self.new.times ≡ self.old.times + 1)
            × (self.new.outcome ≡ self.old.outcome) }
        ensures ended { result ≡ false → (self.new.times ≡ self.old.times)
            × (self.new.outcome ≡ Some (outcome_of answer)) }
    {
        let outcome = match answer {
            Answer::Reply { reply, .. } => AskOutcome::Reply(reply),
            Answer::Fault {
                code: FaultCode::Full,
                ..
            } => AskOutcome::Full,
            Answer::Fault {
                code: FaultCode::NoAnswer,
                ..
            } => AskOutcome::NoAnswer,
            Answer::Fault { code, .. } => AskOutcome::Fault(code),
        };
        let may_pass = matches!(&outcome, AskOutcome::Full | AskOutcome::NoAnswer);
        if may_pass && self.number.is_some() && self.times < tries {
            self.times += 1;
            return true;
        }
        self.outcome = Some(outcome);
        false
    }

    /// Its session ended, maybe without an outcome. An insert or remove that was sent becomes
    /// Lost then, and so does a request with no tries left. Others go into a new session.
    pub fn lose(&mut self, tries: u32)
        ensures outcome { self.new.outcome
            ≡ outcome_after_loss self.old.request self.old.times tries self.old.outcome }
        ensures number { self.new.number ≡ None }
        ensures same { (self.new.request ≡ self.old.request) × (self.new.times ≡ self.old.times) }
    {
        if self.outcome.is_none() && is_lost(&self.request, self.times, tries) {
            self.outcome = Some(AskOutcome::Lost);
        }
        self.number = None;
    }

    /// The server had no caller for its connection, and did nothing.
    pub fn refuse(&mut self)
        ensures outcome { self.new.outcome ≡ outcome_refused self.old.outcome }
        ensures number { self.new.number ≡ None }
        ensures same { (self.new.request ≡ self.old.request) × (self.new.times ≡ self.old.times) }
    {
        if self.outcome.is_none() {
            self.outcome = Some(AskOutcome::CallersSpent);
        }
        self.number = None;
    }

    /// Gives it up, if it has no outcome.
    pub fn give_up(&mut self)
        ensures outcome { self.new.outcome ≡ outcome_given_up self.old.outcome }
        ensures same { (self.new.request ≡ self.old.request) × (self.new.number ≡ self.old.number)
            × (self.new.times ≡ self.old.times) }
    {
        if self.is_open() {
            self.outcome = Some(AskOutcome::Lost);
        }
    }
}
