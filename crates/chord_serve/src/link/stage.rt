//! Where a link stands.
ghost use Rattle.std.specs.Prelude.{◌≡◌};
ghost use Rattle.chord_serve.specs.Stages.{stage_after, tries_after};

use crate::served::Served;

/// What a protocol did with the next request.
#[derive(Clone, Copy, Debug, PartialEq, Eq)]
pub enum Step {
    /// It is answered.
    Answered,
    /// No request is whole.
    Nothing,
    /// It was begun, and is to be tried again.
    Later,
}

/// What a link does next.
#[derive(Clone, Copy, Debug, PartialEq, Eq)]
pub enum Stage {
    /// It reads: each whole request is answered.
    Reads,
    /// It answers.
    Answers,
    /// It tries the next request again, which was begun.
    Waits,
    /// It answers no more, and ended so.
    Over(Served),
}

impl Stage {
    /// Where a link stands behind a step, or behind the request that ended it.
    pub fn after(step: Result<Step, Served>) -> Stage
        ensures { result ≡ stage_after step }
    {
        match step {
            Ok(Step::Answered) => Stage::Answers,
            Ok(Step::Nothing) => Stage::Reads,
            Ok(Step::Later) => Stage::Waits,
            Err(end) => Stage::Over(end),
        }
    }
}

/// How many tries the next request had behind a step.
pub(crate) fn tries_after(step: Result<Step, Served>, tries: u32) -> u32
    ensures { result ≡ tries_after step tries }
{
    match step {
        Ok(Step::Later) => tries.saturating_add(1),
        _ => 0,
    }
}
