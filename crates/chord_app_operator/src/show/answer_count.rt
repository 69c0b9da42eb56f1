//! The numbers of the answers in a protocol.
ghost use Rattle.std.specs.Prelude.{◌≡◌};
ghost use Rattle.chord_app_operator.specs.Metrics.{answer_count};

use crate::sight::AnswerCounts;

/// A number of the answers in a protocol.
#[derive(Clone, Copy, Debug, PartialEq, Eq)]
pub enum AnswerCount {
    Reply,
    Full,
    NoAnswer,
    Memory,
    Refused,
}

impl AnswerCount {
    /// The number.
    pub fn of(self, answers: &AnswerCounts) -> u64
        ensures { result ≡ answer_count self answers.now }
    {
        match self {
            AnswerCount::Reply => answers.reply,
            AnswerCount::Full => answers.full,
            AnswerCount::NoAnswer => answers.no_answer,
            AnswerCount::Memory => answers.memory,
            AnswerCount::Refused => answers.refused,
        }
    }
}
