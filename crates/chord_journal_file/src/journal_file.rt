//! A file of whole commands.
ghost use Rattle.std.specs.Prelude.{◌≡◌, ◌+◌, ◌<◌, ◌^◌, true, false, length, Err, Ok, OnOk, OnErr};
ghost use Rattle.chord_journal_file.specs.Devices.{Adds, AddsAll, HasLength};
ghost use Rattle.chord_journal_file.specs.declared.journal_file.WriteFault.{WriteFault as FaultOf};

use crate::device::Device;
use std::io::ErrorKind;
use thiserror::Error;

/// Why bytes are not in the file.
#[derive(Clone, Copy, Debug, PartialEq, Eq, Error)]
pub enum WriteFault {
    /// None of them is; they may be tried again.
    #[error("the file takes no more: {0}")]
    Refused(ErrorKind),
    /// Some may be, since the file could not be cut back. It is written no more.
    #[error("the file could not be cut back to its whole commands: {0}")]
    Lost(ErrorKind),
}

/// A device with whole commands.
#[derive(Drop)]
pub struct JournalFile<D: Device> {
    device: D,
    /// How many bytes its whole commands have.
    length: u64,
    /// Whether it could not be cut back to them.
    is_lost: bool,
    ghost counted: { is_lost ≡ false → HasLength (D.held device) length },
}

/// Adds all of the bytes. Where that fails, some may have been added.
fn add_all<D: Device>(device: &mut D, bytes: &[u8]) -> Result<(), ErrorKind>
    ensures { Adds (D.held device.old) (D.held device.new) result bytes.now }
{
    let mut at = 0;
    while at < bytes.len() {
        match device.write(&bytes[at..]) {
            Ok(0) => return Err(ErrorKind::WriteZero),
            Ok(count) => at += count,
            Err(error) => return Err(error.kind()),
        }
    }
    Ok(())
}

impl<D: Device> JournalFile<D> {
    /// A device that has this many bytes, all of whole commands.
    pub fn new(device: D, length: u64) -> JournalFile<D>
        requires { HasLength (D.held device) length }
        ensures device { result.device ≡ device }
        ensures length { result.length ≡ length }
        ensures kept { result.is_lost ≡ false }
    {
        JournalFile {
            device,
            length,
            is_lost: false,
        }
    }

    /// How many bytes its whole commands have.
    pub fn length(&self) -> u64
        ensures { result ≡ self.now.length }
    {
        self.length
    }

    /// Whether it could not be cut back to its whole commands, so that it takes no more.
    pub fn is_lost(&self) -> bool
        ensures { result ≡ self.now.is_lost }
    {
        self.is_lost
    }

    /// Another handle of the device.
    pub fn second(&self) -> std::io::Result<D> {
        self.device.second()
    }

    /// Adds commands, all or none.
    pub fn append(&mut self, commands: &[u8]) -> Result<(), WriteFault>
        ensures bytes { self.old.is_lost ≡ false
            → AddsAll (D.held self.old.device) (D.held self.new.device) result commands.now }
        ensures ok { OnOk result ((self.old.is_lost ≡ false) × (self.new.is_lost ≡ false)
            × (self.new.length ≡ self.old.length + length commands.now)) }
        ensures err { OnErr result (self.new.length ≡ self.old.length) }
        ensures refused { (kind : _) → result ≡ Err (FaultOf.Refused kind)
            → self.new.is_lost ≡ false }
        ensures lost { (kind : _) → result ≡ Err (FaultOf.Lost kind) → self.new.is_lost ≡ true }
        ensures still { self.old.is_lost ≡ true → self.new ≡ self.old }
    {
        if self.is_lost {
            return Err(WriteFault::Lost(ErrorKind::Other));
        }
        let Some(length) = self.length.checked_add(commands.len() as u64) else {
            return Err(WriteFault::Refused(ErrorKind::FileTooLarge));
        };
        match add_all(&mut self.device, commands) {
            Ok(()) => {
                self.length = length;
                Ok(())
            }
            Err(kind) => {
                if self.device.cut(self.length).is_ok() {
                    return Err(WriteFault::Refused(kind));
                }
                self.is_lost = true;
                Err(WriteFault::Lost(kind))
            }
        }
    }
}
