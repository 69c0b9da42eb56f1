//! What a link does, one call at a time.
ghost use Rattle.std.specs.Prelude.{◌≡◌, ◌⊎◌, ◌<◌, ℕ, List, [], length, take, drop, Ok, Result, true, IfOk, IfErr, OnErr};
ghost use Rattle.std.specs.Io.KnownBytes.{Appends, Consumes, IsAtEnd, Keeps};
ghost use Rattle.chord_serve.specs.Stages.{stage_after, tries_after};
ghost use Rattle.chord_serve.specs.Stepping.{AnswersNext, IsBefore};
ghost use Rattle.chord_serve.specs.Taking.{TakesIn};
ghost use Rattle.chord_serve.specs.declared.link.stage.Step.{Step as StepOf};
ghost use Rattle.chord_serve.specs.declared.link.stage.Step.TheVariants.{Later};
ghost use Rattle.chord_serve.specs.Ends.{IsStop};
ghost use Rattle.chord_serve.specs.declared.served.Served.{Served as ServedOf};

use crate::link::outbox::Outbox;
use crate::link::protocol::Protocol;
use crate::link::stage::{Stage, tries_after};
use crate::link::stream::Stream;
use crate::served::Served;
use http_server::Log;
use std::alloc::Global;
use std::io::{self, ErrorKind};

#[derive(Drop)]
pub(crate) struct Machine<P, S> {
    /// The stream and the protocol with which it began. Only proofs read them.
    pub(crate) first: Log<S, P>,
    pub(crate) alloc: Global,
    pub(crate) stream: S,
    pub(crate) protocol: P,
    /// The answers that are not written.
    pub(crate) due: Outbox,
    pub(crate) stage: Stage,
    /// How many tries the next request had.
    pub(crate) tries: u32,
    /// Whether a write failed.
    pub(crate) is_lost: bool,
}

/// Whether the stream only asks to be called again.
fn is_passing(error: &io::Error) -> bool {
    matches!(error.kind(), ErrorKind::WouldBlock | ErrorKind::Interrupted)
}

impl<P: Protocol, S: Stream> Machine<P, S> {
    /// Takes in what a read gave: no bytes are the end of the input.
    fn take_in(&mut self, piece: &[u8])
        ensures same { self.new ≡ record self.old {
          protocol = self.new.protocol;
          stage = self.new.stage;
        } }
        ensures taken { TakesIn P.hears P.idle P.between self.new.stage self.old.protocol
            piece.now self.new.protocol }
    {
        if !piece.is_empty() {
            self.stage = match self.protocol.feed(piece) {
                Ok(()) => Stage::Answers,
                Err(_) => Stage::Over(Served::Memory),
            };
        } else if self.protocol.is_between() {
            self.stage = Stage::Over(Served::Ended);
        } else {
            self.stage = Stage::Over(Served::Truncated);
        }
    }

    /// Reads once, through this buffer.
    pub(crate) fn read_from(&mut self, buffer: &mut [u8]) -> io::Result<usize>
        ensures same { self.new ≡ record self.old {
          protocol = self.new.protocol;
          stage = self.new.stage;
          stream = self.new.stream;
        } }
        ensures other { Keeps (S.held self.old.stream) (S.held self.new.stream) }
        ensures ok { IfOk result (λ n. (more : List ℕ) × (length more ≡ n)
            × Consumes (S.left self.old.stream) (S.left self.new.stream) more
            × TakesIn P.hears P.idle P.between self.new.stage self.old.protocol
            more self.new.protocol) }
        ensures end { result ≡ Ok 0 → 0 < length buffer.old
            → IsAtEnd (S.left self.new.stream) }
        ensures err { OnErr result (Keeps (S.left self.old.stream)
            (S.left self.new.stream) × (self.new.protocol ≡ self.old.protocol)
            × ((self.new.stage ≡ self.old.stage) ⊎ (self.new.stage ≡ Stage.Over Served.Read))) }
    {
        match self.stream.read(buffer) {
            Ok(count) => {
                self.take_in(&buffer[..count]);
                Ok(count)
            }
            Err(error) => {
                if !is_passing(&error) {
                    self.stage = Stage::Over(Served::Read);
                }
                Err(error)
            }
        }
    }

    /// Has the protocol answer the next request, or try once more the one that was begun.
    pub(crate) fn step(&mut self, may_wait: bool)
        ensures same { self.new ≡ record self.old {
          protocol = self.new.protocol;
          due = self.new.due;
          stage = self.new.stage;
          tries = self.new.tries;
        } }
        ensures step { (step : Result StepOf ServedOf) × (self.new.stage ≡ stage_after step)
            × (self.new.tries ≡ tries_after step self.old.tries) × IfErr step IsStop
            × (step ≡ Ok Later → may_wait ≡ true)
            × ((before : _) → IsBefore P.idle P.begun before self.old.protocol
            → AnswersNext P.hears P.says P.stops P.rests P.idle P.begun step before
            self.old.due self.new.due self.new.protocol) }
    {
        let step = self.due.answer(self.alloc, &mut self.protocol, may_wait);
        self.stage = Stage::after(step);
        self.tries = tries_after(step, self.tries);
    }

    /// Writes once.
    pub(crate) fn write(&mut self) -> io::Result<usize>
        ensures same { self.new ≡ record self.old {
          due = self.new.due;
          stream = self.new.stream;
          is_lost = self.new.is_lost;
        } }
        ensures none { result ≡ Ok 0 → self.new.is_lost ≡ true }
        ensures ok { IfOk result (λ n. Appends (S.held self.old.stream) (S.held self.new.stream)
            (take n self.old.due) × (self.new.due ≡ drop n self.old.due)) }
        ensures err { OnErr result (Keeps (S.held self.old.stream) (S.held self.new.stream)
            × (self.new.due ≡ self.old.due)) }
        ensures other { Keeps (S.left self.old.stream) (S.left self.new.stream) }
    {
        match self.due.write_to(self.alloc, &mut self.stream) {
            Ok(count) => {
                self.is_lost = count == 0;
                Ok(count)
            }
            Err(error) => {
                self.is_lost = !is_passing(&error);
                Err(error)
            }
        }
    }
}
