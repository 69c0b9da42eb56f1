//! A stream of a server's frames in a session.
ghost use Rattle.std.specs.Prelude.{◌≡◌, ◌++◌, ◌⊎◌, List, ℕ, Ok, Err, Some, IfOk, IfSome};
ghost use Rattle.chord_wire.specs.Fault.{out_of_memory};
ghost use Rattle.chord_wire.specs.Spelling.{IsBytes};
ghost use Rattle.chord_wire.specs.Reading.{TakesNext, FindsNext};
ghost use Rattle.chord_wire.specs.SessionSpelling.{IsSessionAnswer, session_answer_frame};
ghost use Rattle.chord_wire.specs.SessionReading.{next_session_answer};
ghost use Rattle.chord_wire.specs.declared.session_answer.SessionAnswer.{SessionAnswer};

use crate::codes::{LEAST_SESSION_ANSWER, MOST_ANSWER};
use crate::fault::WireFault;
use crate::reader::{Framed, Reader};
use crate::reading::frame::body_at;
use crate::reading::session_answer_body::session_answer_in;
use crate::session_answer::SessionAnswer;
use std::alloc::Global;

/// A stream of a server's frames in a session, in pieces of any length.
pub type SessionAnswers = Reader<SessionAnswer>;

// The next frame's content, and the length of the frame.
#[tactic(auto, unfolding(crate::specs::SessionReading::next_session_answer))]
fn next_session_answer(
    alloc: Global,
    bytes: &[u8],
) -> Result<Option<(SessionAnswer, usize)>, WireFault>
    ensures bytes { IsBytes bytes.now }
    ensures exact { FindsNext next_session_answer bytes.now result }
{
    let Some((body, rest)) = body_at(LEAST_SESSION_ANSWER, MOST_ANSWER, bytes)? else {
        return Ok(None);
    };
    let answer = session_answer_in(alloc, body)?;
    Ok(Some((answer, bytes.len() - rest.len())))
}

impl Framed for SessionAnswer {
    ghost next = { next_session_answer };

    fn next_in(alloc: Global, bytes: &[u8]) -> Result<Option<(SessionAnswer, usize)>, WireFault> {
        next_session_answer(alloc, bytes)
    }
}

impl Reader<SessionAnswer> {
    /// What the next frame has in it, if all of the frame was fed.
    pub fn next(&mut self) -> Result<Option<SessionAnswer>, WireFault>
        // A frame has its one spelling, and is consumed.
        ensures found { IfOk result (λ next. IfSome next (λ x. IsSessionAnswer x × (self.old ≡ session_answer_frame x ++ self.new))) }
        // What the bytes spell is found, unless memory runs out.
        ensures only { (x : SessionAnswer) (rest : List ℕ) → IsSessionAnswer x → self.old ≡ session_answer_frame x ++ rest
            → (result ≡ Ok (Some x)) ⊎ (result ≡ Err out_of_memory) }
        // Which fault it is, and when more bytes must come.
        ensures exact { TakesNext next_session_answer self.old result self.new }
    {
        self.take()
    }
}
