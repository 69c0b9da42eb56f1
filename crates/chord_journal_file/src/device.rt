//! What a journal needs of a file.
ghost use Rattle.std.specs.Prelude.{ℕ, List, None, Option, OnOk, IfOk};
ghost use Rattle.std.specs.Io.{WritesAtMost};
ghost use Rattle.chord_journal_file.specs.Devices.{AddsSome, CutTo};

use std::fs::File;
use std::io::{self, Write};

/// A file to which bytes are added at its end. Its handles share it: what one writes, a sync by
/// another brings to the disk.
pub trait Device {
    /// Its bytes, where they are known.
    ghost held: { Self → Option (List ℕ) } = { λ _. None };

    /// Adds some of the bytes. Where it fails, it may have added some too.
    fn write(&mut self, bytes: &[u8]) -> io::Result<usize>
        ensures bound { WritesAtMost result bytes.now }
        ensures wrote { AddsSome (held self.old) (held self.new) result bytes.now };

    /// Cuts it to this many bytes.
    fn cut(&mut self, length: u64) -> io::Result<()>
        ensures { OnOk result (CutTo (held self.old) (held self.new) length) };

    /// Brings what was written to the disk.
    fn sync(&mut self) -> io::Result<()>;

    /// Another handle of it.
    fn second(&self) -> io::Result<Self>
    where
        Self: Sized;
}

/// A file that was opened to append.
impl Device for File {
    fn write(&mut self, bytes: &[u8]) -> io::Result<usize> {
        Write::write(self, bytes)
    }

    fn cut(&mut self, length: u64) -> io::Result<()> {
        self.set_len(length)
    }

    fn sync(&mut self) -> io::Result<()> {
        self.sync_data()
    }

    fn second(&self) -> io::Result<File> {
        self.try_clone()
    }
}
