//! A stream of frames, in pieces of any length.
ghost use Rattle.std.specs.Prelude.{◌≡◌, ◌++◌, Result, Option, List, ℕ, [], length, OnOk, OnErr, IsOkUnless};
ghost use Rattle.chord_wire.specs.declared.fault.WireFault.{WireFault};
ghost use Rattle.chord_wire.specs.Fault.{out_of_memory};
ghost use Rattle.chord_wire.specs.Spelling.{IsBytes};
ghost use Rattle.chord_wire.specs.Reading.{TakesNext, FindsNext};

use crate::fault::WireFault;
use crate::stream::Stream;
use std::alloc::Global;
use std::marker::{Model, PhantomData};

/// What a frame has in it.
pub trait Framed: Drop {
    /// What is read from the next frame, and the bytes after it.
    ghost next: { List ℕ → Result (Option (Self × List ℕ)) WireFault };

    /// The next value, and the length of its frame.
    fn next_in(alloc: Global, bytes: &[u8]) -> Result<Option<(Self, usize)>, WireFault>
        ensures bytes { IsBytes bytes.now }
        ensures exact { FindsNext next bytes.now result };
}

/// The bytes fed and not consumed yet; contracts see just these.
#[derive(Debug, Drop)]
pub struct Reader<T: Framed> {
    stream: Stream,
    of: PhantomData<T>,
}

impl<T: Framed> Model for Reader<T> {
    ghost use Rattle.std.specs.Prelude.{ℕ, List};

    ghost Value = { List ℕ };

    ghost view = { λ s. s.stream };
}

impl<T: Framed> Reader<T> {
    pub fn new(alloc: Global) -> Reader<T>
        ensures { result ≡ [] }
    {
        Reader {
            stream: Stream::new(alloc),
            of: PhantomData,
        }
    }

    /// How many bytes were fed and not consumed.
    pub fn left(&self) -> usize
        ensures { result ≡ length self.now }
    {
        self.stream.left()
    }

    pub(crate) fn as_slice(&self) -> &[u8]
        ensures { result.now ≡ self.now }
    {
        self.stream.as_slice()
    }

    /// Adds a piece of the stream.
    pub fn feed(&mut self, piece: &[u8]) -> Result<(), WireFault>
        ensures ok { OnOk result (self.new ≡ self.old ++ piece.now) }
        ensures err { OnErr result (self.new ≡ self.old) }
        ensures only_memory { IsOkUnless result out_of_memory }
    {
        self.stream.feed(piece)?;
        Ok(())
    }

    /// Takes the next value, if all of its frame was fed.
    pub(crate) fn take(&mut self) -> Result<Option<T>, WireFault>
        ensures bytes { IsBytes self.old }
        ensures exact { TakesNext T.next self.old result self.new }
    {
        let alloc = self.stream.allocator();
        let Some((next, count)) = T::next_in(alloc, self.stream.as_slice())? else {
            return Ok(None);
        };
        self.stream.consume(count);
        Ok(Some(next))
    }
}
