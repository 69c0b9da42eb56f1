//! The asker, which answers the requests of a session.
ghost use Rattle.std.specs.Prelude.{◌≡◌, ◌≢◌, List};
ghost use Rattle.chord_map.specs.declared.request.Request.{Request};
ghost use Rattle.chord_serve.specs.Question.{Question, Ask, Retry, IsAnswer, IsReplyTo, asked_with, request_asked};
ghost use Rattle.chord_serve.specs.declared.asker.Asked.{Asked};
ghost use Rattle.chord_serve.specs.declared.asker.Asked.TheVariants.{Memory, NoAnswer};

use chord_map::{Reply, Request};

/// The answer to a question.
#[derive(Debug, Drop)]
pub enum Asked {
    Reply(Reply),
    Full,
    NoAnswer,
    Memory,
}

pub trait Asker {
    /// In this state the question may get this answer, which leaves the next state.
    ghost answers: { Self → Question → Asked → Self → Type 0 };

    /// The requests asked so far, in order. Their numbers are 1, 2 and so on.
    ghost asked: { Self → List Request };

    /// Asks a new request. Of those up to the floor nothing more is wanted: the ones without a reply
    /// are given up first.
    fn ask(&mut self, request: &Request, floor: u64) -> Asked
        ensures answer { answers self.old (Ask request.now floor) result self.new }
        ensures fits { IsAnswer result };

    /// Asks again for the request with this number, which got no reply. The floor is that of `ask`.
    fn retry(&mut self, number: u64, floor: u64) -> Asked
        ensures answer { answers self.old (Retry number floor) result self.new }
        ensures fits { IsAnswer result };

    /// Hears that a request is refused, so that it is not asked.
    fn refuse(&self) {}

    /// Hears that its last request, which got no answer, is told as such.
    fn leave_unanswered(&self) {}

    /// Whether the last request, which got no answer, may still get one by a further try.
    fn may_try_again(&self) -> bool {
        false
    }

    /// Tries the last request once more, which got no answer: it is the same question still.
    fn try_again(&mut self) -> Asked
        ensures again { (before : _) (question : Question) → answers before question NoAnswer self.old
            → answers before question result self.new }
        ensures fits { IsAnswer result }
    {
        Asked::NoAnswer
    }

    /// A new request joins those asked, behind the others.
    ghost notes: { (a b : Self) (question : Question) (answer : Asked) → answers a question answer b → answer ≢ Memory → asked b ≡ asked_with question (asked a) };

    /// A reply is of its request's kind.
    ghost kind: { (a b : Self) (question : Question) (answer : Asked) → answers a question answer b → IsReplyTo answer (request_asked question (asked a)) };
}
