//! Bringing what was written to the disk.
ghost use Rattle.std.specs.Prelude.{◌≡◌, Err, None, Some, IfErr, OnOk};

use crate::device::Device;
use std::io::ErrorKind;
use thiserror::Error;

/// Why it is not known what of a file is on the disk.
#[derive(Clone, Copy, Debug, PartialEq, Eq, Error)]
#[error("the file could not be synced: {0}")]
pub struct SyncFault(pub ErrorKind);

/// A handle by which what was written is brought to the disk. Behind a sync that failed the system
/// may have dropped what was not there yet, and would say of the next one that it was done. So no
/// other is tried.
#[derive(Drop)]
pub struct Syncing<D: Device> {
    device: D,
    failed: Option<SyncFault>,
}

impl<D: Device> Syncing<D> {
    pub fn new(device: D) -> Syncing<D>
        ensures device { result.device ≡ device }
        ensures failed { result.failed ≡ None }
    {
        Syncing {
            device,
            failed: None,
        }
    }

    /// Brings what was written before the call to the disk, unless a sync failed before.
    pub fn sync(&mut self) -> Result<(), SyncFault>
        ensures ok { OnOk result (self.new.failed ≡ None) }
        ensures err { IfErr result (λ fault. self.new.failed ≡ Some fault) }
        ensures once { (fault : _) → self.old.failed ≡ Some fault
            → (result ≡ Err fault) × (self.new ≡ self.old) }
    {
        if let Some(fault) = self.failed {
            return Err(fault);
        }
        match self.device.sync() {
            Ok(()) => Ok(()),
            Err(error) => {
                let fault = SyncFault(error.kind());
                self.failed = Some(fault);
                Err(fault)
            }
        }
    }
}
