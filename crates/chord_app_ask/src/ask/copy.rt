//! A copy of pairs, as its lines come.
ghost use Rattle.std.specs.Prelude.{◌≡◌, IfOk, IfNone, string_bytes};
ghost use Rattle.chord_app_ask.specs.Copies.{with_request, with_comment, undone_of, restored_line};
ghost use Rattle.chord_app_ask.specs.Copies.{IsDone, AreDone, IsRestored};

use crate::ask::outcome::AskOutcome;
use crate::ask::question::Question;
use chord_app_text::{Fault, Finish, Undone};
use chord_map::Reply;
use std::alloc::{AllocError, Global};
use std::io::Write;

/// How much of a copy was read.
#[derive(Clone, Copy, Debug, PartialEq, Eq)]
pub struct CopyRead {
    pub requests: u64,
    /// Whether the last line tells how many there are.
    pub is_whole: bool,
}

impl CopyRead {
    /// Nothing was read.
    pub const NONE: CopyRead = CopyRead {
        requests: 0,
        is_whole: false,
    };

    /// With one more request.
    pub fn with_request(self) -> CopyRead
        ensures { result ≡ with_request self }
    {
        CopyRead {
            requests: self.requests.saturating_add(1),
            is_whole: false,
        }
    }

    /// With a line that is no request.
    pub fn with_comment(self, alloc: Global, line: &[u8]) -> Result<CopyRead, AllocError>
        ensures { IfOk result (λ read. read ≡ with_comment line.now self) }
    {
        let requests = self.requests;
        let wanted = format!(in alloc; "# pairs {requests}")?;
        let is_whole = line == wanted.as_bytes();
        drop(wanted);
        Ok(CopyRead { requests, is_whole })
    }

    /// Ends a copy: writes how many requests were done, if that is what its last line tells.
    pub fn end<W: Write>(self, alloc: Global, writer: &mut W) -> Result<Finish, Finish>
        ensures { IsRestored self (W.contents writer.old) (W.contents writer.new) result }
    {
        if !self.is_whole {
            return Err(Finish::Fault(Fault::Cut));
        }
        let line = restored_line(alloc, self.requests)?;
        let is_written = writer.write_all(line.as_bytes()).is_ok() && writer.flush().is_ok();
        drop(line);
        if is_written {
            Ok(Finish::Done)
        } else {
            Err(Finish::Fault(Fault::Write))
        }
    }
}

fn restored_line(alloc: Global, requests: u64) -> Result<String, AllocError>
    ensures { IfOk result (λ line. string_bytes line ≡ restored_line requests) }
{
    format!(in alloc; "restored {requests}\n")
}

/// Why a request with this outcome is not done, if it is not.
pub fn undone_of(outcome: &AskOutcome) -> Option<Undone>
    ensures { result ≡ undone_of outcome.now }
{
    match outcome {
        AskOutcome::Reply(Reply::SetFull) => Some(Undone::SetFull),
        AskOutcome::Reply(_) => None,
        AskOutcome::Full => Some(Undone::Full),
        AskOutcome::NoAnswer => Some(Undone::NoAnswer),
        AskOutcome::Fault(code) => Some(Undone::Code(code.to_number())),
        AskOutcome::CallersSpent => Some(Undone::CallersSpent),
        AskOutcome::Lost => Some(Undone::Lost),
    }
}

// Why a request is not done, if it is not. One without an outcome is lost.
fn undone(question: &Question) -> Option<Undone>
    ensures { IfNone result (IsDone question.now) }
{
    match question.outcome() {
        Some(outcome) => undone_of(outcome),
        None => Some(Undone::Lost),
    }
}

/// The first of these requests that is not done. The first has this line.
pub fn first_undone(questions: &[Question], first: u64) -> Option<Fault>
    ensures { IfNone result (AreDone questions.now) }
{
    let mut line = first;
    for question in questions {
        if let Some(why) = undone(question) {
            return Some(Fault::Undone { line, why });
        }
        line = line.saturating_add(1);
    }
    None
}
