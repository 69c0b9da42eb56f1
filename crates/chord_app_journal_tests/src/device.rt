//! A device that fails where a test wants it to.
ghost use Rattle.std.specs.Io.{WritesAtMost};

use chord_journal_file::Device;
use std::alloc::{AllocError, Global};
use std::io::{self, ErrorKind};
use std::sync::{Arc, Mutex, MutexGuard};

/// What the next call of its kind does.
#[derive(Clone, Copy, Debug, PartialEq, Eq)]
pub enum Next {
    Works,
    Fails,
    /// A write adds at most this many bytes, and the one behind it fails.
    Adds(usize),
}

/// What a device has, and how it goes on.
#[derive(Drop)]
pub struct Disk {
    pub bytes: Vec<u8>,
    pub write: Next,
    pub cut: Next,
    pub sync: Next,
    /// How many of the bytes were synced.
    pub synced: usize,
    /// How many syncs were tried.
    pub syncs: u64,
}

/// A handle of a disk in memory.
#[derive(Drop)]
pub struct FailingDevice {
    disk: Arc<Mutex<Disk>, Global>,
}

fn refusal() -> io::Error {
    io::Error::from(ErrorKind::StorageFull)
}

impl FailingDevice {
    pub fn new(alloc: Global) -> Result<FailingDevice, AllocError> {
        let disk = Disk {
            bytes: Vec::new(alloc),
            write: Next::Works,
            cut: Next::Works,
            sync: Next::Works,
            synced: 0,
            syncs: 0,
        };
        Ok(FailingDevice {
            disk: Arc::new(alloc, Mutex::new(disk))?,
        })
    }

    /// Another handle of the same disk.
    pub fn handle(&self) -> Result<FailingDevice, AllocError> {
        Ok(FailingDevice {
            disk: Arc::try_clone(&self.disk)?,
        })
    }

    /// The disk, which nobody else looks at.
    pub fn disk(&self) -> Option<MutexGuard<'_, Disk>> {
        self.disk.try_lock()
    }
}

impl Disk {
    fn write(&mut self, bytes: &[u8]) -> io::Result<usize>
        ensures { WritesAtMost result bytes.now }
    {
        match self.write {
            Next::Works => {
                self.bytes.extend_from_slice(bytes)?;
                Ok(bytes.len())
            }
            Next::Fails => {
                self.write = Next::Works;
                Err(refusal())
            }
            Next::Adds(most) => {
                let count = most.min(bytes.len());
                self.bytes.extend_from_slice(&bytes[..count])?;
                self.write = Next::Fails;
                Ok(count)
            }
        }
    }

    fn cut(&mut self, length: u64) -> io::Result<()> {
        if self.cut == Next::Fails {
            self.cut = Next::Works;
            return Err(refusal());
        }
        self.bytes.truncate(length as usize);
        Ok(())
    }

    fn sync(&mut self) -> io::Result<()> {
        self.syncs = self.syncs.saturating_add(1);
        if self.sync == Next::Fails {
            self.sync = Next::Works;
            return Err(refusal());
        }
        self.synced = self.bytes.len();
        Ok(())
    }
}

impl Device for FailingDevice {
    fn write(&mut self, bytes: &[u8]) -> io::Result<usize> {
        match self.disk() {
            Some(mut disk) => {
                let disk = &mut *disk;
                disk.write(bytes)
            }
            None => Err(refusal()),
        }
    }

    fn cut(&mut self, length: u64) -> io::Result<()> {
        match self.disk() {
            Some(mut disk) => disk.cut(length),
            None => Err(refusal()),
        }
    }

    fn sync(&mut self) -> io::Result<()> {
        match self.disk() {
            Some(mut disk) => disk.sync(),
            None => Err(refusal()),
        }
    }

    fn second(&self) -> io::Result<FailingDevice> {
        Ok(self.handle()?)
    }
}
