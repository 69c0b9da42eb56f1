//! What a connection speaks.
ghost use Rattle.std.specs.Prelude.{◌≡◌, ◌<◌, ℕ, List, Bool, ◌++◌, Ok, true, IfErr, OnOk, OnErr};
ghost use Rattle.chord_serve.specs.Stepping.{AnswersNext, IsBefore};
ghost use Rattle.chord_serve.specs.declared.link.stage.Step.TheVariants.{Answered, Later};
ghost use Rattle.chord_serve.specs.Ends.{IsStop};
ghost use Rattle.chord_serve.specs.declared.served.Served.{Served as ServedOf};

use crate::due::Due;
use crate::link::stage::Step;
use crate::served::Served;
use std::alloc::{AllocError, Global};

/// One side of a connection, without its stream: it takes bytes in, and adds the answer to one
/// request after another to what is due.
pub trait Protocol {
    /// A piece of the input came, which leaves the next state.
    ghost hears: { Self → List ℕ → Self → Type 0 };

    /// One request was answered with these bytes, which leaves the next state.
    ghost says: { Self → List ℕ → Self → Type 0 };

    /// A request ended the connection so, after these bytes.
    ghost stops: { ServedOf → Self → List ℕ → Self → Type 0 };

    /// No whole request is left to answer.
    ghost rests: { Self → Type 0 };

    /// No request is begun.
    ghost idle: { Self → Type 0 };

    /// The next request of the first state was begun, and has no answer yet, which leaves the
    /// second.
    ghost begun: { Self → Self → Type 0 };

    /// Whether the input may end here.
    ghost between: { Self → Bool };

    /// How many bytes or requests came that are not answered.
    ghost unread: { Self → ℕ };

    /// How many bytes it keeps of a request that has not come whole.
    ghost partial: { Self → ℕ };

    /// Whether the input may end here: no request has come in part.
    fn is_between(&self) -> bool
        ensures { result ≡ between self.now };

    /// How many bytes it keeps of a request that has not come whole.
    fn partial(&self) -> u64
        ensures { result ≡ partial self.now };

    /// Takes a piece of the input in.
    fn feed(&mut self, piece: &[u8]) -> Result<(), AllocError>
        ensures ok { OnOk result (hears self.old piece.now self.new) }
        ensures idle { OnOk result (idle self.old → idle self.new) }
        ensures err { OnErr result (self.new ≡ self.old) };

    /// Answers the next request, or tries once more the one that was begun. One that has no answer
    /// yet is answered as such if it may not wait.
    fn answer_next(&mut self, alloc: Global, due: &mut Due, may_wait: bool) -> Result<Step, Served>
        ensures next { (before : _) → IsBefore idle begun before self.old
            → AnswersNext hears says stops rests idle begun result before
            due.old due.new self.new }
        ensures grows { (bytes : List ℕ) × (due.new ≡ due.old ++ bytes) }
        ensures stop { IfErr result IsStop }
        ensures patient { result ≡ Ok Later → may_wait ≡ true }
        ensures shorter { idle self.old → result ≡ Ok Answered
            → unread self.new < unread self.old };
}
