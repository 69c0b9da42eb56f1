//! One connection, which owns its stream.
ghost use Rattle.std.specs.Prelude.{◌≡◌, ◌≢◌, ◌⊎◌, ◌↔◌, ◌∷◌, [], ℕ, ◌<◌, ◌≤◌, List, Result, length, take, drop, true, false, Ok, Some, None, IfOk, IfErr, IsTrue, OnErr};
ghost use Rattle.std.specs.Io.KnownBytes.{Appends, Consumes, IsAtEnd};
ghost use Rattle.chord_serve.specs.Marking.{NotesMark};
ghost use Rattle.chord_serve.specs.Runs.{Run};
ghost use Rattle.chord_serve.specs.Stages.{stage_after, tries_after};
ghost use Rattle.chord_serve.specs.Standing.{Told};
ghost use Rattle.chord_serve.specs.Stepping.{AnswersNext, IsBefore};
ghost use Rattle.chord_serve.specs.Taking.{TakesIn, WantsAdvance, WantsRead};
ghost use Rattle.chord_serve.specs.declared.link.stage.Step.{Step as StepOf};
ghost use Rattle.chord_serve.specs.declared.link.stage.Step.TheVariants.{Later};
ghost use Rattle.chord_serve.specs.declared.served.Served.{Served as ServedOf};

use crate::link::machine::Machine;
use crate::link::marks::Marks;
use crate::link::outbox::Outbox;
use crate::link::protocol::Protocol;
use crate::link::stage::Stage;
use crate::link::stream::Stream;
use crate::served::Served;
use http_server::Log;
use std::alloc::Global;
use std::io::{self, ErrorKind};
use std::os::fd::{AsRawFd, RawFd};

/// How many requests `advance` answers at most, so that others get their turn.
const MOST_ANSWERS: u32 = 64;

/// A connection. Its driver reads while it `wants_read`, calls `advance` after each read, writes
/// while it `wants_write` and `may_write`, and calls `try_again` or `stop_waiting` while it `waits`,
/// until it `is_done`.
///
/// What it wrote is a prefix of the answers to the requests that it read. It writes none before the
/// changes are written that the answer may show.
#[derive(Drop)]
pub struct Link<P: Protocol, S: Stream> {
    machine: Machine<P, S>,
    /// Up to where changes must be written before what is due may be.
    mark: u64,
    ghost told: { ∥ Told P.hears P.says P.stops P.rests P.idle P.begun P.between S.left S.held
        machine.first.items machine.stream machine.due machine.stage machine.protocol ∥₁ },
}

impl<P: Protocol + Drop, S: Stream + Drop> Link<P, S> {
    /// A link that has read nothing. Advance it first.
    pub fn new(alloc: Global, protocol: P, stream: S) -> Link<P, S>
        requires { P.idle protocol }
        ensures first { result.machine.first.items ≡ (stream, protocol) ∷ [] }
        ensures stage { result.machine.stage ≡ Stage.Answers }
        ensures lost { result.machine.is_lost ≡ false }
        ensures due { result.machine.due ≡ [] }
        ensures mark { result.mark ≡ 0 }
    {
        let none = Log::new();
        let first = none.and(&stream, &protocol);
        let machine = Machine {
            first,
            alloc,
            stream,
            protocol,
            due: Outbox::new(alloc),
            stage: Stage::Answers,
            tries: 0,
            is_lost: false,
        };
        Link { machine, mark: 0 }
    }
}

impl<P: Protocol, S: Stream + Drop> Link<P, S> {
    /// What spoke. The stream is let go, and with it what is due.
    pub fn into_protocol(self) -> P
        ensures { result ≡ self.machine.protocol }
    {
        let Link { machine, mark: _ } = self;
        let Machine {
            first: _,
            alloc: _,
            stream,
            protocol,
            due,
            stage: _,
            tries: _,
            is_lost: _,
        } = machine;
        drop(stream);
        drop(due);
        protocol
    }
}

impl<P: Protocol, S: Stream> Link<P, S> {
    /// What is true of it at each moment.
    pub fn told(&self)
        ensures { ∥ Told P.hears P.says P.stops P.rests P.idle P.begun P.between S.left S.held
            self.now.machine.first.items self.now.machine.stream self.now.machine.due
            self.now.machine.stage self.now.machine.protocol ∥₁ }
    {}

    /// Whether it reads more.
    pub fn wants_read(&self) -> bool
        ensures { IsTrue result
            ↔ WantsRead self.now.machine.stage self.now.machine.is_lost self.now.machine.due }
    {
        let machine = &self.machine;
        matches!(machine.stage, Stage::Reads) && !machine.is_lost && !machine.due.is_full()
    }

    /// Whether answers are to be written.
    pub fn wants_write(&self) -> bool
        ensures { IsTrue result
            ↔ ((self.now.machine.is_lost ≡ false) × (self.now.machine.due ≢ [])) }
    {
        !self.machine.is_lost && !self.machine.due.is_empty()
    }

    /// Whether there may be something to answer.
    pub fn wants_advance(&self) -> bool
        ensures { IsTrue result
            ↔ WantsAdvance self.now.machine.stage self.now.machine.is_lost self.now.machine.due }
    {
        let machine = &self.machine;
        matches!(machine.stage, Stage::Answers) && !machine.is_lost && !machine.due.is_full()
    }

    /// How many bytes it keeps of a request that has not come whole.
    pub fn partial(&self) -> u64
        ensures { result ≡ P.partial self.now.machine.protocol }
    {
        self.machine.protocol.partial()
    }

    /// How many bytes of answers are not written.
    pub fn unwritten(&self) -> u64
        ensures { result ≡ length self.now.machine.due }
    {
        self.machine.due.as_slice().len() as u64
    }

    /// Whether the next request was begun and has no answer yet.
    pub fn waits(&self) -> bool
        ensures { IsTrue result ↔ (self.now.machine.stage ≡ Stage.Waits) }
    {
        matches!(self.machine.stage, Stage::Waits)
    }

    /// How many tries the next request had.
    pub fn tries(&self) -> u32
        ensures { result ≡ self.now.machine.tries }
    {
        self.machine.tries
    }

    /// How it ended, if it answers no more.
    pub fn end(&self) -> Option<Served>
        ensures over { (end : ServedOf) → self.now.machine.stage ≡ Stage.Over end
            → result ≡ Some end }
        ensures other { ((end : ServedOf) → self.now.machine.stage ≢ Stage.Over end)
            → result ≡ None }
    {
        match self.machine.stage {
            Stage::Over(end) => Some(end),
            Stage::Reads | Stage::Answers | Stage::Waits => None,
        }
    }

    /// Whether nothing is left to do: let it go.
    pub fn is_done(&self) -> bool
        ensures over { IsTrue result
            → (self.now.machine.is_lost ≡ true) ⊎ ((end : ServedOf)
            × (self.now.machine.stage ≡ Stage.Over end) × (self.now.machine.due ≡ [])) }
        ensures lost { self.now.machine.is_lost ≡ true → IsTrue result }
        ensures ended { (end : ServedOf) → self.now.machine.stage ≡ Stage.Over end
            → self.now.machine.due ≡ [] → IsTrue result }
    {
        let machine = &self.machine;
        machine.is_lost || (matches!(machine.stage, Stage::Over(_)) && machine.due.is_empty())
    }

    /// Reads once through this buffer, if it wants to. No bytes are the end of the input.
    pub fn read_from(&mut self, buffer: &mut [u8]) -> io::Result<usize>
        ensures first { self.new.machine.first ≡ self.old.machine.first }
        ensures due { self.new.machine.due ≡ self.old.machine.due }
        ensures took { WantsRead self.old.machine.stage self.old.machine.is_lost
            self.old.machine.due
            → IfOk result (λ n. (more : List ℕ) × (length more ≡ n)
            × Consumes (S.left self.old.machine.stream) (S.left self.new.machine.stream) more
            × TakesIn P.hears P.idle P.between self.new.machine.stage self.old.machine.protocol
            more self.new.machine.protocol) }
        ensures others { (WantsRead self.old.machine.stage self.old.machine.is_lost
            self.old.machine.due → ⊥) → self.new.machine ≡ self.old.machine }
        ensures end { WantsRead self.old.machine.stage self.old.machine.is_lost
            self.old.machine.due
            → 0 < length buffer.old → result ≡ Ok 0 → IsAtEnd (S.left self.new.machine.stream) }
    {
        if !self.wants_read() {
            return Ok(0);
        }
        self.machine.read_from(buffer)
    }

    /// Answers what is whole.
    fn answer_some(&mut self)
        ensures first { self.new.machine.first ≡ self.old.machine.first }
        ensures mark { self.new.mark ≡ self.old.mark }
        ensures stream { self.new.machine.stream ≡ self.old.machine.stream }
        ensures answered { (count : ℕ)
            × Run P.hears P.says P.stops P.rests P.idle P.begun
            self.old.machine.protocol self.old.machine.due
            count self.new.machine.protocol self.new.machine.due
            × (count ≡ 0 → WantsAdvance self.old.machine.stage self.old.machine.is_lost
            self.old.machine.due → ⊥)
            × ((count ≡ MOST_ANSWERS) ⊎ (WantsAdvance self.new.machine.stage
            self.new.machine.is_lost self.new.machine.due → ⊥)) }
    {
        for _ in 0..MOST_ANSWERS {
            if !self.wants_advance() {
                return;
            }
            self.machine.step(true);
        }
    }

    /// What is due may show changes up to where there are some now.
    fn note<M: Marks>(&mut self, marks: &M)
        ensures machine { self.new.machine ≡ self.old.machine }
        ensures mark { NotesMark (M.tells marks.now) self.old.mark self.new.mark }
    {
        self.mark = self.mark.max(marks.mark());
    }

    /// Answers what is whole. The answers may show changes up to where there are some then.
    pub fn advance<M: Marks>(&mut self, marks: &M)
        ensures first { self.new.machine.first ≡ self.old.machine.first }
        ensures mark { WantsAdvance self.old.machine.stage self.old.machine.is_lost
            self.old.machine.due → NotesMark (M.tells marks.now) self.old.mark self.new.mark }
        ensures idle { (WantsAdvance self.old.machine.stage self.old.machine.is_lost
            self.old.machine.due → ⊥) → self.new.mark ≡ self.old.mark }
        ensures stream { self.new.machine.stream ≡ self.old.machine.stream }
        ensures answered { (count : ℕ)
            × Run P.hears P.says P.stops P.rests P.idle P.begun
            self.old.machine.protocol self.old.machine.due
            count self.new.machine.protocol self.new.machine.due
            × (count ≡ 0 → WantsAdvance self.old.machine.stage self.old.machine.is_lost
            self.old.machine.due → ⊥)
            × ((count ≡ MOST_ANSWERS) ⊎ (WantsAdvance self.new.machine.stage
            self.new.machine.is_lost self.new.machine.due → ⊥)) }
    {
        let answers = self.wants_advance();
        self.answer_some();
        if answers {
            self.note(marks);
        }
    }

    /// Tries the request once more that waits.
    pub fn try_again<M: Marks>(&mut self, marks: &M)
        ensures first { self.new.machine.first ≡ self.old.machine.first }
        ensures mark { self.old.machine.stage ≡ Stage.Waits
            → NotesMark (M.tells marks.now) self.old.mark self.new.mark }
        ensures stream { self.new.machine.stream ≡ self.old.machine.stream }
        ensures tried { self.old.machine.stage ≡ Stage.Waits → (step : Result StepOf ServedOf)
            × (self.new.machine.stage ≡ stage_after step)
            × (self.new.machine.tries ≡ tries_after step self.old.machine.tries)
            × ((before : _) → IsBefore P.idle P.begun before self.old.machine.protocol
            → AnswersNext P.hears P.says P.stops P.rests P.idle P.begun step before
            self.old.machine.due self.new.machine.due self.new.machine.protocol) }
        ensures others { self.old.machine.stage ≢ Stage.Waits
            → (self.new.machine ≡ self.old.machine) × (self.new.mark ≡ self.old.mark) }
    {
        if self.waits() {
            self.machine.step(true);
            self.note(marks);
        }
    }

    /// Tries the request that waits for the last time: if it has no answer it is answered as such.
    pub fn stop_waiting<M: Marks>(&mut self, marks: &M)
        ensures first { self.new.machine.first ≡ self.old.machine.first }
        ensures mark { self.old.machine.stage ≡ Stage.Waits
            → NotesMark (M.tells marks.now) self.old.mark self.new.mark }
        ensures stream { self.new.machine.stream ≡ self.old.machine.stream }
        ensures stopped { self.old.machine.stage ≡ Stage.Waits → (step : Result StepOf ServedOf)
            × (step ≢ Ok Later) × (self.new.machine.stage ≡ stage_after step)
            × ((before : _) → IsBefore P.idle P.begun before self.old.machine.protocol
            → AnswersNext P.hears P.says P.stops P.rests P.idle P.begun step before
            self.old.machine.due self.new.machine.due self.new.machine.protocol) }
        ensures others { self.old.machine.stage ≢ Stage.Waits
            → (self.new.machine ≡ self.old.machine) × (self.new.mark ≡ self.old.mark) }
    {
        if self.waits() {
            self.machine.step(false);
            self.note(marks);
        }
    }

    /// Up to where changes must be written before what is due may be.
    pub fn mark(&self) -> u64
        ensures { result ≡ self.now.mark }
    {
        self.mark
    }

    /// Whether what is due may be written, where changes are written up to this mark.
    pub fn may_write(&self, written: u64) -> bool
        ensures { IsTrue result ↔ (self.now.mark ≤ written) }
    {
        self.mark <= written
    }

    /// Writes once, if there is something to write. Changes are written up to this mark: what may
    /// show later ones is not written, as if the stream took nothing.
    pub fn write_to(&mut self, written: u64) -> io::Result<usize>
        ensures mark { self.new.mark ≡ self.old.mark }
        ensures early { written < self.old.mark → self.new.machine ≡ self.old.machine }
        ensures first { self.new.machine.first ≡ self.old.machine.first }
        ensures protocol { self.new.machine.protocol ≡ self.old.machine.protocol }
        ensures stage { self.new.machine.stage ≡ self.old.machine.stage }
        ensures none { self.old.machine.is_lost ≡ false → self.old.machine.due ≢ []
            → result ≡ Ok 0 → self.new.machine.is_lost ≡ true }
        ensures lost { self.old.machine.is_lost ≡ true → self.new.machine ≡ self.old.machine }
        ensures kept { OnErr result (self.new.machine.due ≡ self.old.machine.due) }
        ensures wrote { self.old.machine.is_lost ≡ false
            → IfOk result (λ n. Appends (S.held self.old.machine.stream)
            (S.held self.new.machine.stream) (take n self.old.machine.due)
            × (self.new.machine.due ≡ drop n self.old.machine.due)) }
    {
        if !self.may_write(written) {
            return Err(io::Error::from(ErrorKind::WouldBlock));
        }
        if !self.wants_write() {
            return Ok(0);
        }
        self.machine.write()
    }
}

impl<P: Protocol, S: Stream + AsRawFd> Link<P, S> {
    /// The descriptor of its stream, for a wait.
    pub fn descriptor(&self) -> RawFd {
        self.machine.stream.as_raw_fd()
    }
}
