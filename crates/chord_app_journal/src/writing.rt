//! Taking commands out and writing them, by one thread at a time.

use crate::source::Source;
use chord_journal::JournalPiece;
use chord_journal_file::{Device, JournalFile, WriteFault};
use std::alloc::Global;
use std::mem;
use std::sync::Wait;

/// A file, and what was taken out for it.
#[derive(Drop)]
pub(crate) struct Writing<D: Device> {
    alloc: Global,
    file: JournalFile<D>,
    /// What was taken out and could not be written.
    held: Option<JournalPiece>,
    /// What is given for the next piece that is taken out.
    spare: Vec<u8>,
    /// Up to where the commands are written.
    written: u64,
}

impl<D: Device> Writing<D> {
    pub fn new(alloc: Global, file: JournalFile<D>) -> Writing<D> {
        Writing {
            alloc,
            file,
            held: None,
            spare: Vec::new(alloc),
            written: 0,
        }
    }

    /// Up to where the commands are written.
    pub fn written(&self) -> u64 {
        self.written
    }

    /// What is to be written next: what could not be written before, or what the source has. Its
    /// lock is held no longer than two vectors change places.
    fn next<R: Wait, S: Source>(&mut self, rt: &R, source: &S) -> JournalPiece {
        match self.held.take() {
            Some(piece) => piece,
            None => {
                let none = Vec::new(self.alloc);
                source.take(rt, mem::replace(&mut self.spare, none))
            }
        }
    }

    /// Writes a piece.
    fn write_piece(&mut self, piece: JournalPiece) -> Result<(), WriteFault> {
        match self.file.append(&piece.bytes) {
            Ok(()) => {
                let JournalPiece { bytes, mark } = piece;
                self.spare = bytes;
                self.written = mark;
                Ok(())
            }
            Err(fault) => {
                self.held = Some(piece);
                Err(fault)
            }
        }
    }

    /// Writes all that the source had when the call began. What cannot be written is kept.
    pub fn write<R: Wait, S: Source>(&mut self, rt: &R, source: &S) -> Result<(), WriteFault> {
        let was_held = self.held.is_some();
        let piece = self.next(rt, source);
        self.write_piece(piece)?;
        if was_held {
            let piece = self.next(rt, source);
            self.write_piece(piece)?;
        }
        Ok(())
    }
}
