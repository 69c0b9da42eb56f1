//! The answers that are due.
ghost use Rattle.std.specs.Prelude.{◌≡◌, ◌≤◌, ◌==◌, ◌++◌, [], ℕ, List, length, take, drop, nat_lt, Ok, true, IfOk, IfErr, OnErr};
ghost use Rattle.std.specs.Io.KnownBytes.{Appends, Keeps};
ghost use Rattle.chord_serve.specs.Stepping.{AnswersNext, IsBefore};
ghost use Rattle.chord_serve.specs.declared.link.stage.Step.TheVariants.{Later};
ghost use Rattle.chord_serve.specs.Ends.{IsStop};

use crate::due::{Due, clear};
use crate::link::protocol::Protocol;
use crate::link::stage::Step;
use crate::link::stream::Stream;
use crate::served::Served;
use std::alloc::Global;
use std::io;
use std::marker::Model;

/// An outbox of more bytes than these takes no more answers.
const FULL_BYTES: usize = 65_536;

/// An empty outbox gives back a buffer for more bytes than these.
const KEPT_BYTES: usize = 4_096;

/// The answers that are not written yet. It takes no memory until there are some.
#[derive(Drop)]
pub struct Outbox {
    due: Due,
    /// How many bytes of it were written.
    start: usize,
}

impl Model for Outbox {
    ghost use Rattle.std.specs.Prelude.{ℕ, List, drop, length, ◌≤◌};

    ghost Value = { List ℕ };

    ghost view = { λ o. drop o.start o.due };

    ghost invariant = { λ o. o.start ≤ length o.due };
}

impl Outbox {
    pub fn new(alloc: Global) -> Outbox
        ensures { result ≡ [] }
    {
        Outbox {
            due: Due::new(alloc),
            start: 0,
        }
    }

    pub fn as_slice(&self) -> &[u8]
        ensures { result.now ≡ self.now }
    {
        &self.due.bytes[self.start..]
    }

    pub fn is_empty(&self) -> bool
        ensures { result ≡ (length self.now == 0) }
    {
        self.as_slice().is_empty()
    }

    /// Whether it takes no more answers.
    pub fn is_full(&self) -> bool
        ensures { result ≡ nat_lt FULL_BYTES (length self.now) }
    {
        FULL_BYTES < self.as_slice().len()
    }

    /// Takes all bytes off.
    fn clear(&mut self, alloc: Global)
        ensures { self.new ≡ [] }
    {
        self.start = 0;
        clear(&mut self.due.bytes, alloc, KEPT_BYTES);
    }

    /// Takes this many bytes off the front.
    fn skip(&mut self, alloc: Global, count: usize)
        requires { count ≤ length self.old }
        ensures { self.new ≡ drop count self.old }
    {
        if count < self.due.bytes.len() - self.start {
            self.start += count;
        } else {
            self.clear(alloc);
        }
    }

    /// Forgets the bytes that were written, if they are many. Nothing changes if memory is out.
    fn settle(&mut self, alloc: Global)
        ensures { self.new ≡ self.old }
    {
        if self.start > KEPT_BYTES
            && let Ok(rest) = Vec::from_slice(alloc, &self.due.bytes[self.start..])
        {
            self.start = 0;
            self.due = Due { bytes: rest };
        }
    }

    /// Has the protocol answer its next request, or try it again.
    pub(crate) fn answer<P: Protocol>(
        &mut self,
        alloc: Global,
        protocol: &mut P,
        may_wait: bool,
    ) -> Result<Step, Served>
        ensures next { (before : _) → IsBefore P.idle P.begun before protocol.old
            → AnswersNext P.hears P.says P.stops P.rests P.idle P.begun result before
            self.old self.new protocol.new }
        ensures stop { IfErr result IsStop }
        ensures patient { result ≡ Ok Later → may_wait ≡ true }
    {
        self.settle(alloc);
        protocol.answer_next(alloc, &mut self.due, may_wait)
    }

    /// Writes once, and takes off what was written.
    pub fn write_to<S: Stream>(&mut self, alloc: Global, stream: &mut S) -> io::Result<usize>
        ensures ok { IfOk result (λ n. Appends (S.held stream.old) (S.held stream.new)
            (take n self.old) × (self.new ≡ drop n self.old)) }
        ensures err { OnErr result (Keeps (S.held stream.old) (S.held stream.new)
            × (self.new ≡ self.old)) }
        ensures other { Keeps (S.left stream.old) (S.left stream.new) }
    {
        let count = stream.write(self.as_slice())?;
        self.skip(alloc, count);
        Ok(count)
    }
}
