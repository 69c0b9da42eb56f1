//! How a whole file ends.
ghost use Rattle.std.specs.Io.{ReadsAtMost};

use crate::read_fault::{FaultKind, ReadFault};
use crate::reader::{Ends, JournalReader};
use std::alloc::Global;
use std::io::{ErrorKind, Read, Seek, SeekFrom};
use thiserror::Error;

/// How many bytes one read takes at most.
const PIECE_BYTES: usize = 65_536;

/// What a file has.
#[derive(Clone, Copy, Debug, PartialEq, Eq)]
pub struct Scanned {
    /// How many bytes its whole commands have.
    pub whole: u64,
    /// How many bytes stand behind them: of a command that is cut short, or bytes 0, which a file
    /// system may leave behind a loss of power.
    pub torn: u64,
}

/// Why it is not known what a file has.
#[derive(Clone, Copy, Debug, PartialEq, Eq, Error)]
pub enum ScanFault {
    #[error("it cannot be read: {0}")]
    Read(ErrorKind),
    #[error("it has {0}")]
    Journal(ReadFault),
}

/// Reads a piece of the file.
fn read_piece<R: Read>(file: &mut R, piece: &mut [u8]) -> Result<usize, ScanFault>
    ensures { ReadsAtMost result piece.new }
{
    for _ in 0..u64::MAX {
        match file.read(piece) {
            Ok(count) => return Ok(count),
            Err(error) if error.kind() == ErrorKind::Interrupted => {}
            Err(error) => return Err(ScanFault::Read(error.kind())),
        }
    }
    Err(ScanFault::Read(ErrorKind::Interrupted))
}

/// The buffer that pieces are read through.
fn piece_buffer(alloc: Global) -> Result<Vec<u8>, ScanFault> {
    let mut piece = Vec::new(alloc);
    match piece.resize(PIECE_BYTES, 0) {
        Ok(()) => Ok(piece),
        Err(_) => Err(ScanFault::Read(ErrorKind::OutOfMemory)),
    }
}

/// Lets all changes go that were fed.
fn skip_all(reader: &mut JournalReader) -> Result<(), ScanFault> {
    for _ in 0..u64::MAX {
        match reader.next() {
            Ok(Some(change)) => drop(change),
            Ok(None) => return Ok(()),
            Err(fault) => return Err(ScanFault::Journal(fault)),
        }
    }
    Ok(())
}

/// Feeds a piece and lets its changes go.
fn skip_piece(reader: &mut JournalReader, piece: &[u8]) -> Result<(), ScanFault> {
    match reader.feed(piece) {
        Ok(()) => skip_all(reader),
        Err(_) => Err(ScanFault::Journal(ReadFault {
            kind: FaultKind::Memory,
            offset: reader.whole(),
        })),
    }
}

/// Reads at most this many bytes of the file, and says how they end.
fn skip_file<R: Read>(
    file: &mut R,
    reader: &mut JournalReader,
    piece: &mut [u8],
    limit: u64,
) -> Result<Ends, ScanFault> {
    for _ in 0..u64::MAX {
        let left = limit.saturating_sub(reader.fed());
        let most = (piece.len() as u64).min(left) as usize;
        let count = read_piece(file, &mut piece[..most])?;
        if count == 0 {
            break;
        }
        skip_piece(reader, &piece[..count])?;
    }
    match reader.finish() {
        Ok(ends) => Ok(ends),
        Err(fault) => Err(ScanFault::Journal(fault)),
    }
}

/// How many bytes the file has from here up to its last byte that is not 0, and in all.
fn find_zeros<R: Read>(file: &mut R, piece: &mut [u8]) -> Result<(u64, u64), ScanFault> {
    let mut all: u64 = 0;
    let mut used: u64 = 0;
    for _ in 0..u64::MAX {
        let count = read_piece(file, piece)?;
        if count == 0 {
            break;
        }
        if let Some(last) = piece[..count].iter().rposition(|byte| *byte != 0) {
            used = all.saturating_add(last as u64).saturating_add(1);
        }
        all = all.saturating_add(count as u64);
    }
    Ok((used, all))
}

/// Goes to this byte of the file.
fn seek<R: Seek>(file: &mut R, offset: u64) -> Result<(), ScanFault> {
    match file.seek(SeekFrom::Start(offset)) {
        Ok(_) => Ok(()),
        Err(error) => Err(ScanFault::Read(error.kind())),
    }
}

/// Whether the bytes from a faulty command on are a command that is cut short and zeros behind it.
fn is_torn<R: Read + Seek>(
    alloc: Global,
    file: &mut R,
    piece: &mut [u8],
    offset: u64,
) -> Result<Option<u64>, ScanFault> {
    seek(file, offset)?;
    let (used, all) = find_zeros(file, piece)?;
    if used == all {
        return Ok(None);
    }
    seek(file, offset)?;
    let mut reader = JournalReader::new(alloc);
    match skip_file(file, &mut reader, piece, used) {
        Ok(_) if reader.whole() == 0 => Ok(Some(all)),
        Ok(_) => Ok(None),
        Err(ScanFault::Journal(_)) => Ok(None),
        Err(fault) => Err(fault),
    }
}

/// Reads a file from its beginning, and says how it ends.
pub fn scan<R: Read + Seek>(alloc: Global, file: &mut R) -> Result<Scanned, ScanFault> {
    let mut piece = piece_buffer(alloc)?;
    seek(file, 0)?;
    let mut reader = JournalReader::new(alloc);
    match skip_file(file, &mut reader, &mut piece, u64::MAX) {
        Ok(_) => Ok(Scanned {
            whole: reader.whole(),
            torn: reader.fed().saturating_sub(reader.whole()),
        }),
        Err(ScanFault::Journal(fault)) => {
            match is_torn(alloc, file, &mut piece, fault.offset)? {
                Some(torn) => Ok(Scanned {
                    whole: fault.offset,
                    torn,
                }),
                None => Err(ScanFault::Journal(fault)),
            }
        }
        Err(fault) => Err(fault),
    }
}
