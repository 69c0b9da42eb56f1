//! Opening the file of a journal.

use crate::opened::OpenedJournal;
use crate::place::Place;
use chord_journal_file::{ScanFault, Scanned, scan};
use std::fs::{self, File, Files, OpenOptions, TryLockError};
use std::io::{self, ErrorKind, Seek, SeekFrom};
use std::os::unix::fs::OpenOptionsExt;
use thiserror::Error;

/// Who may read and write a file that is made: its owner alone.
const MODE: u32 = 0o600;

/// Why a journal can't be opened.
#[derive(Clone, Copy, Debug, PartialEq, Eq, Error)]
pub enum OpenFault {
    #[error("is in use")]
    InUse,
    #[error("is no regular file")]
    NotRegular,
    #[error("{0}")]
    Io(ErrorKind),
    #[error("{0}")]
    Scan(ScanFault),
}

impl From<io::Error> for OpenFault {
    fn from(error: io::Error) -> OpenFault {
        OpenFault::Io(error.kind())
    }
}

/// Opens a file to read it and to write at its end, and makes it if it is not there.
fn open_to_append<R: Files<File = File>>(rt: &R, path: &str) -> io::Result<File> {
    let mut options = OpenOptions::new();
    options.read(true).append(true).create(true).mode(MODE);
    options.open(rt, path)
}

/// Locks the journal of this place.
fn lock<R: Files<File = File>>(rt: &R, place: &Place) -> Result<File, OpenFault> {
    let lock = open_to_append(rt, place.lock.as_path().as_str())?;
    match lock.try_lock() {
        Ok(()) => Ok(lock),
        Err(TryLockError::WouldBlock) => Err(OpenFault::InUse),
        Err(TryLockError::Error(error)) => Err(error.into()),
    }
}

/// Removes what a rewrite left that did not end.
fn remove_new<R: Files<File = File>>(rt: &R, place: &Place) -> Result<(), OpenFault> {
    match fs::remove_file(rt, place.new.as_path()) {
        Ok(()) => Ok(()),
        Err(error) if error.kind() == ErrorKind::NotFound => Ok(()),
        Err(error) => Err(error.into()),
    }
}

/// Opens the file of this place, if it is a regular one.
fn open_file<R: Files<File = File>>(rt: &R, place: &Place) -> Result<File, OpenFault> {
    // Opening a pipe would wait for its other end.
    match fs::metadata(rt, place.file.as_path()) {
        Ok(found) if !found.is_file() => return Err(OpenFault::NotRegular),
        Ok(_) => {}
        Err(error) if error.kind() == ErrorKind::NotFound => {}
        Err(error) => return Err(error.into()),
    }
    let file = open_to_append(rt, place.file.as_path().as_str())?;
    if !file.metadata()?.is_file() {
        return Err(OpenFault::NotRegular);
    }
    Ok(file)
}

/// Cuts off what stands behind the last whole command, so that nothing is appended to it.
fn cut(file: &mut File, scanned: &Scanned) -> io::Result<()> {
    if scanned.torn > 0 {
        file.set_len(scanned.whole)?;
        file.sync_data()?;
    }
    file.seek(SeekFrom::Start(0))?;
    Ok(())
}

/// Opens the journal of this path for one server alone. A file is made if there is none. What
/// stands behind its last whole command is cut off, and what a rewrite left is removed.
pub fn open_journal<R: Files<File = File> + AllocGlobal>(
    rt: &R,
    path: &str,
) -> Result<OpenedJournal, OpenFault> {
    let place = Place::find(rt, path)?;
    let lock = lock(rt, &place)?;
    let mut file = open_file(rt, &place)?;
    remove_new(rt, &place)?;
    place.sync_folder(rt)?;
    let scanned = match scan(rt.alloc(), &mut file) {
        Ok(scanned) => scanned,
        Err(fault) => return Err(OpenFault::Scan(fault)),
    };
    cut(&mut file, &scanned)?;
    Ok(OpenedJournal {
        file,
        lock,
        place,
        scanned,
    })
}
