//! Who writes a journal.
//!
//! Its marks count the bytes of the source: up to `written` the commands are in the file, up to
//! `synced` on the disk. Both only rise, each under the lock of what raises it. One who took an
//! answer reads the source's mark after it, so the command of each change that the answer may show
//! is within it: the change was appended, and the source's mark raised, under the lock of the node
//! that executed it, before the answer was sent. Whoever finds a mark here at or above that one
//! knows that those commands are written. All orders are `SeqCst`.

use crate::source::Source;
use crate::writing::Writing;
use chord_journal_file::{Device, JournalFile, SyncFault, Syncing, WriteFault};
use std::alloc::Global;
use std::io;
use std::sync::atomic::{AtomicU64, Ordering};
use std::sync::{Mutex, Wait};
use std::time::Duration;

/// How many milliseconds lie between two tries of a write that failed.
const RETRY_MILLISECONDS: u64 = 100;

/// How many milliseconds lie between two syncs of `SyncRule::Second`.
const SYNC_MILLISECONDS: u64 = 1_000;

/// How many bytes may wait to be written before no further change is taken.
const MOST_WAITING: u64 = 67_108_864;

/// When commands are brought to the disk.
#[derive(Clone, Copy, Debug, PartialEq, Eq)]
pub enum SyncRule {
    /// Before any answer that may show their changes.
    Always,
    /// Each second.
    Second,
    /// When the system does so.
    Never,
}

/// What is wrong with the file.
#[derive(Clone, Copy, Debug, PartialEq, Eq)]
pub enum Trouble {
    None,
    /// It takes no more for now: the write is tried again.
    Refuses,
    /// It is not known what of it is on the disk, or how it ends. It is written no more.
    Lost,
}

impl Trouble {
    fn code(self) -> u64 {
        match self {
            Trouble::None => 0,
            Trouble::Refuses => 1,
            Trouble::Lost => 2,
        }
    }

    fn of_code(code: u64) -> Trouble {
        match code {
            0 => Trouble::None,
            1 => Trouble::Refuses,
            _ => Trouble::Lost,
        }
    }
}

/// Writes a journal for all that wait for it.
#[derive(Drop)]
pub struct JournalWriter<D: Device> {
    rule: SyncRule,
    writing: Mutex<Writing<D>>,
    /// Taken after `writing`, or alone.
    syncing: Mutex<Syncing<D>>,
    written: AtomicU64,
    synced: AtomicU64,
    trouble: AtomicU64,
    /// How many writes and syncs failed.
    failures: AtomicU64,
}

impl<D: Device + Drop> JournalWriter<D> {
    /// A writer of this file. Nothing was taken out of the source yet.
    pub fn new(
        alloc: Global,
        rule: SyncRule,
        file: JournalFile<D>,
    ) -> io::Result<JournalWriter<D>> {
        let syncing = Syncing::new(file.second()?);
        Ok(JournalWriter {
            rule,
            writing: Mutex::new(Writing::new(alloc, file)),
            syncing: Mutex::new(syncing),
            written: AtomicU64::new(0),
            synced: AtomicU64::new(0),
            trouble: AtomicU64::new(Trouble::None.code()),
            failures: AtomicU64::new(0),
        })
    }
}

impl<D: Device> JournalWriter<D> {
    pub fn rule(&self) -> SyncRule {
        self.rule
    }

    /// Up to where the commands are in the file.
    pub fn written(&self) -> u64 {
        self.written.load(Ordering::SeqCst)
    }

    /// Up to where they are on the disk.
    pub fn synced(&self) -> u64 {
        self.synced.load(Ordering::SeqCst)
    }

    /// Up to where changes may be shown.
    pub fn shown(&self) -> u64 {
        match self.rule {
            SyncRule::Always => self.synced(),
            SyncRule::Second | SyncRule::Never => self.written(),
        }
    }

    pub fn trouble(&self) -> Trouble {
        Trouble::of_code(self.trouble.load(Ordering::SeqCst))
    }

    /// How many writes and syncs failed.
    pub fn failures(&self) -> u64 {
        self.failures.load(Ordering::Relaxed)
    }

    /// Whether a change may be taken, where the source has this mark.
    pub fn takes_changes(&self, mark: u64) -> bool {
        self.trouble() == Trouble::None && mark.saturating_sub(self.written()) <= MOST_WAITING
    }

    /// Notes what became of a write.
    fn note_write(&self, wrote: &Result<(), WriteFault>) {
        let trouble = match wrote {
            Ok(()) => Trouble::None,
            Err(WriteFault::Refused(_)) => Trouble::Refuses,
            Err(WriteFault::Lost(_)) => Trouble::Lost,
        };
        if trouble != Trouble::None {
            self.failures.fetch_add(1, Ordering::Relaxed);
        }
        // A sync that failed stays so, one too that fails at this moment.
        let before = self.trouble();
        if before != Trouble::Lost {
            let _ = self
                .trouble
                .compare_exchange(
                    before.code(),
                    trouble.code(),
                    Ordering::SeqCst,
                    Ordering::SeqCst,
                )
                .is_ok();
        }
    }

    /// Writes all that the source has.
    fn write<R: Wait, S: Source>(&self, rt: &R, source: &S) -> Result<(), WriteFault> {
        let mut writing = self.writing.lock(rt);
        let wrote = writing.write(rt, source);
        self.written.store(writing.written(), Ordering::SeqCst);
        self.note_write(&wrote);
        wrote
    }

    /// Brings what is written to the disk. Nobody who writes waits for it.
    fn sync<R: Wait>(&self, rt: &R) -> Result<(), SyncFault> {
        let mut syncing = self.syncing.lock(rt);
        let written = self.written();
        if written == self.synced() {
            return Ok(());
        }
        match syncing.sync() {
            Ok(()) => {
                self.synced.store(written, Ordering::SeqCst);
                Ok(())
            }
            Err(fault) => {
                self.failures.fetch_add(1, Ordering::Relaxed);
                self.trouble.store(Trouble::Lost.code(), Ordering::SeqCst);
                Err(fault)
            }
        }
    }

    /// Has the commands up to this mark written, for one who waits, unless a sync is due before they
    /// may be shown. Says up to where changes may be shown then; where that is less, the next round
    /// writes them.
    pub fn settle<R: Wait, S: Source>(&self, rt: &R, source: &S, mark: u64) -> u64 {
        let is_due = self.shown() < mark && self.trouble() == Trouble::None;
        if is_due && self.rule != SyncRule::Always {
            let _ = self.write(rt, source).is_ok();
        }
        self.shown()
    }

    /// How long the thread that writes sleeps at most before its next round.
    pub fn pause(&self) -> Duration {
        Duration::from_millis(match self.trouble() {
            Trouble::Refuses => RETRY_MILLISECONDS,
            Trouble::None | Trouble::Lost => SYNC_MILLISECONDS,
        })
    }

    /// Writes and syncs what is due. Says whether those who wait for that are to look.
    pub fn round<R: Wait, S: Source>(&self, rt: &R, source: &S) -> bool {
        let (shown, trouble) = (self.shown(), self.trouble());
        let syncs = self.rule != SyncRule::Never;
        if (syncs || trouble == Trouble::Refuses) && self.write(rt, source).is_ok() && syncs {
            let _ = self.sync(rt).is_ok();
        }
        self.shown() != shown || self.trouble() != trouble
    }

    /// Writes and syncs what is left. Says whether all of it is on the disk.
    pub fn conclude<R: Wait, S: Source>(&self, rt: &R, source: &S) -> bool {
        self.trouble() != Trouble::Lost
            && self.write(rt, source).is_ok()
            && self.sync(rt).is_ok()
            && self.synced() >= source.mark()
    }
}
