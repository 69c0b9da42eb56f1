//! The requests of a command, of which each may wait for its answer.
ghost use Rattle.std.specs.Prelude.{◌≡◌, ◌≤◌, ◌<◌, ◌+◌, ◌-◌, ◌^◌, ◌∷◌, length, true};
ghost use Rattle.chord_map.specs.declared.request.Request.{Request as RequestOf};
ghost use Rattle.chord_serve.specs.Question.{Ask};
ghost use Rattle.chord_resp_serve.specs.Asking.{asked_one};
ghost use Rattle.chord_resp_serve.specs.Waiting.{AsksSome};
ghost use Rattle.chord_resp_serve.specs.declared.standing.Standing.{Standing as StandingOf};

use crate::standing::Standing;
use crate::tally::{Stopped, Tally};
use chord_map::Request;
use chord_serve::{Asked, Asker};

/// How far the requests of a command are asked.
pub enum Course {
    /// To their end, or up to one that ended the command.
    Ended(Result<(), Stopped>),
    /// Up to one that waits for its answer.
    Waits,
}

/// Hears the answer to a request, and asks those behind it in order, up to the first that is not
/// done. Each gives up those before it that have no reply: their errors were told. One that has no
/// answer yet waits for it, if it may.
pub fn hear_on<A: Asker>(
    asker: &mut A,
    standing: &mut Standing,
    answer: Asked,
    rest: &[Request],
    tally: &mut Tally,
    may_wait: bool,
) -> Course
    requires few { tally.old.count ≤ tally.old.done }
    requires fits { tally.old.done + length rest.now < 2 ^ 64 - 1 }
    ensures asked { (before : StandingOf) (first : _) (request : RequestOf)
        → A.answers first (Ask request before.asked) answer asker.old
        → standing.old ≡ asked_one before
        → AsksSome A.answers result before first tally.old (request ∷ rest.now) tally.new
        standing.new asker.new }
    ensures few { tally.new.count ≤ tally.new.done }
    ensures next { result ≡ Course.Waits → tally.new.done ≤ tally.old.done + length rest.now }
    ensures patient { result ≡ Course.Waits → may_wait ≡ true }
{
    if may_wait && matches!(answer, Asked::NoAnswer) && asker.may_try_again() {
        return Course::Waits;
    }
    if matches!(answer, Asked::NoAnswer) {
        asker.leave_unanswered();
    }
    if let Err(stopped) = tally.hear(answer) {
        return Course::Ended(Err(stopped));
    }
    match rest {
        [] => Course::Ended(Ok(())),
        [request, rest @ ..] => {
            let answer = asker.ask(request, standing.asked);
            standing.asked = standing.asked.saturating_add(1);
            hear_on(asker, standing, answer, rest, tally, may_wait)
        }
    }
}
