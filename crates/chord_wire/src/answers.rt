//! A stream of answers.
ghost use Rattle.std.specs.Prelude.{◌≡◌, ◌⊎◌, List, ℕ, IfOk, IfSome, ◌++◌};
ghost use Rattle.chord_wire.specs.Fault.{out_of_memory};
ghost use Rattle.chord_wire.specs.Reading.{TakesNext, FindsNext};
ghost use Rattle.chord_wire.specs.Spelling.{IsBytes, frame};
ghost use Rattle.chord_wire.specs.Replies.{IsAnswer, answer_body};
ghost use Rattle.chord_wire.specs.declared.answer.Answer.{Answer};
ghost use Rattle.chord_wire.specs.ReadingReplies.{next_answer};

use crate::answer::Answer;
use crate::codes::{LEAST_ANSWER, MOST_ANSWER};
use crate::fault::WireFault;
use crate::reader::{Framed, Reader};
use crate::reading::answer_body::answer_in;
use crate::reading::frame::body_at;
use std::alloc::Global;

/// A stream of answers, in pieces of any length.
pub type Answers = Reader<Answer>;

// The next answer, and the length of its frame.
#[tactic(auto, unfolding(crate::specs::ReadingReplies::next_answer))]
fn next_answer(alloc: Global, bytes: &[u8]) -> Result<Option<(Answer, usize)>, WireFault>
    ensures bytes { IsBytes bytes.now }
    ensures exact { FindsNext next_answer bytes.now result }
{
    let Some((body, rest)) = body_at(LEAST_ANSWER, MOST_ANSWER, bytes)? else {
        return Ok(None);
    };
    let answer = answer_in(alloc, body)?;
    Ok(Some((answer, bytes.len() - rest.len())))
}

impl Framed for Answer {
    ghost next = { next_answer };

    fn next_in(alloc: Global, bytes: &[u8]) -> Result<Option<(Answer, usize)>, WireFault> {
        next_answer(alloc, bytes)
    }
}

impl Reader<Answer> {
    /// The next answer, if all of its frame was fed.
    pub fn next(&mut self) -> Result<Option<Answer>, WireFault>
        // An answer comes from its one spelling, and its frame is consumed.
        ensures found { IfOk result (λ next. IfSome next (λ a. IsAnswer a × (self.old ≡ frame (answer_body a) ++ self.new))) }
        // An answer that the bytes spell is found, unless memory runs out.
        ensures only { (a : Answer) (rest : List ℕ) → IsAnswer a → self.old ≡ frame (answer_body a) ++ rest
            → (result ≡ Ok (Some a)) ⊎ (result ≡ Err out_of_memory) }
        // Which fault it is, and when more bytes must come.
        ensures exact { TakesNext next_answer self.old result self.new }
    {
        self.take()
    }
}
