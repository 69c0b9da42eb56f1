//! Loading a journal: its changes are done, those of a key in their order.

use chord_journal_file::{FaultKind, JournalReader, ReadFault};
use chord_resp::Command;
use crossbeam_channel::{Receiver, Sender};
use std::alloc::{AllocError, Global};
use std::io::{ErrorKind, Read};
use std::sync::atomic::{AtomicU64, Ordering};
use std::sync::{Mutex, Wait};
use std::thread::{Scope, Threads};
use std::time::{Clock, Duration, Instant};
use std::{mem, thread};
use thiserror::Error;

/// How many bytes one read takes at most.
const PIECE_BYTES: usize = 65_536;

/// How many changes go to a doer together, at most.
const BATCH: usize = 256;

/// How many batches may wait for a doer.
const BATCHES: usize = 16;

/// How many milliseconds lie between two tales of the progress.
const TALE_MILLISECONDS: u64 = 1_000;

/// What does the changes of a journal.
pub trait Doer {
    /// Does a change: an `Add` or a `Remove`.
    fn work(&mut self, change: &Command) -> Result<(), FaultKind>;

    /// Hears that nothing is left to do.
    fn rest(self);
}

/// What was loaded.
#[derive(Clone, Copy, Debug, PartialEq, Eq)]
pub struct Loaded {
    /// How many bytes of the file were read.
    pub bytes: u64,
    /// How many commands, or members of those of many words, were given to doers.
    pub changes: u64,
}

/// Why a journal is not loaded.
#[derive(Clone, Copy, Debug, PartialEq, Eq, Error)]
pub enum LoadFault {
    #[error("it cannot be read: {0}")]
    Read(ErrorKind),
    #[error("it has {0}")]
    Journal(ReadFault),
    #[error("it has become shorter")]
    Short,
    #[error("out of memory")]
    Memory,
}

impl From<AllocError> for LoadFault {
    fn from(_refused: AllocError) -> LoadFault {
        LoadFault::Memory
    }
}

/// What hears how far a load is.
pub trait Progress {
    /// This was loaded, of a file of `of` bytes.
    fn tell(&self, loaded: &Loaded, of: u64);
}

/// A change, and how many bytes stand before its command.
#[derive(Drop)]
struct Placed {
    offset: u64,
    change: Command,
}

/// What the threads of a load share.
#[derive(Drop)]
struct Outcome {
    /// Commands behind this byte need not be done, since one at it has a fault.
    limit: AtomicU64,
    /// The first fault in the file that a doer found.
    fault: Mutex<Option<ReadFault>>,
}

impl Outcome {
    fn new() -> Outcome {
        Outcome {
            limit: AtomicU64::new(u64::MAX),
            fault: Mutex::new(None),
        }
    }

    fn limit(&self) -> u64 {
        self.limit.load(Ordering::SeqCst)
    }

    fn fail<R: Wait>(&self, rt: &R, fault: ReadFault) {
        let mut first = self.fault.lock(rt);
        if fault.offset < self.limit() {
            *first = Some(fault);
            self.limit.store(fault.offset, Ordering::SeqCst);
        }
    }
}

/// Does the changes of a batch that stand before the first fault.
fn work_on<R: Wait, D: Doer>(rt: &R, doer: &mut D, batch: &[Placed], outcome: &Outcome) {
    for placed in batch {
        let offset = placed.offset;
        if outcome.limit() <= offset {
            return;
        }
        if let Err(kind) = doer.work(&placed.change) {
            outcome.fail(rt, ReadFault { kind, offset });
        }
    }
}

/// Does the changes that come.
fn work_all<R: Wait, D: Doer>(
    rt: &R,
    doer: D,
    batches: &Receiver<Vec<Placed>, Global>,
    outcome: &Outcome,
) {
    let mut doer = doer;
    for _ in 0..u64::MAX {
        match batches.recv(rt) {
            Ok(batch) => {
                work_on(rt, &mut doer, &batch, outcome);
                drop(batch);
            }
            Err(_) => break,
        }
    }
    doer.rest();
}

/// The way to a doer.
#[derive(Drop)]
struct Way {
    batch: Vec<Placed>,
    batches: Sender<Vec<Placed>, Global>,
}

impl Way {
    /// Sends the changes that were collected.
    fn send<R: Wait>(&mut self, rt: &R, alloc: Global) {
        if self.batch.is_empty() {
            return;
        }
        let batch = mem::replace(&mut self.batch, Vec::new(alloc));
        drop(self.batches.send(rt, batch));
    }
}

/// The key of a change.
fn key_of(change: &Command) -> &[u8] {
    match change {
        Command::Add { key, .. } | Command::Remove { key, .. } => key.as_slice(),
        _ => &[],
    }
}

/// A number that a key always has.
fn mix(key: &[u8]) -> u64 {
    let mut number: u64 = 0xcbf2_9ce4_8422_2325;
    for byte in key {
        number = (number ^ u64::from(*byte)).wrapping_mul(0x0000_0100_0000_01b3);
    }
    number
}

/// A file that is given to doers.
#[derive(Drop)]
struct Giving<'a, R, P> {
    rt: &'a R,
    alloc: Global,
    reader: JournalReader,
    ways: Vec<Way>,
    loaded: Loaded,
    progress: &'a P,
    of: u64,
    told: Option<Instant>,
}

impl<R: Wait + Clock, P: Progress> Giving<'_, R, P> {
    /// Gives a change to the doer of its key.
    fn give(&mut self, placed: Placed) -> Result<(), LoadFault> {
        let (rt, alloc) = (self.rt, self.alloc);
        let count = self.ways.len().max(1);
        let place = (mix(key_of(&placed.change)) % count as u64) as usize;
        let Some(way) = self.ways.get_mut(place) else {
            return Ok(());
        };
        if way.batch.push(placed).is_err() {
            return Err(LoadFault::Memory);
        }
        if way.batch.len() >= BATCH {
            way.send(rt, alloc);
        }
        self.loaded.changes = self.loaded.changes.saturating_add(1);
        Ok(())
    }

    /// Gives all changes that were fed.
    fn give_all(&mut self) -> Result<(), LoadFault> {
        for _ in 0..u64::MAX {
            let offset = self.reader.whole();
            match self.reader.next() {
                Ok(Some(change)) => self.give(Placed { offset, change })?,
                Ok(None) => return Ok(()),
                Err(fault) => return Err(LoadFault::Journal(fault)),
            }
        }
        Ok(())
    }

    /// Tells how far it is, once in a while.
    fn tell(&mut self) {
        self.loaded.bytes = self.reader.whole();
        let Ok(now) = Instant::now(self.rt) else {
            return;
        };
        let told = self.told.unwrap_or(now);
        self.told = Some(told);
        if now.duration_since(told) >= Duration::from_millis(TALE_MILLISECONDS) {
            self.told = Some(now);
            self.progress.tell(&self.loaded, self.of);
        }
    }

    /// Gives the first bytes of the file, of which there are `of`.
    fn read<F: Read>(&mut self, file: &mut F, outcome: &Outcome) -> Result<(), LoadFault> {
        let mut piece = Vec::new(self.alloc);
        piece.resize(PIECE_BYTES, 0)?;
        for _ in 0..u64::MAX {
            let left = self.of.saturating_sub(self.reader.fed());
            if left == 0 || outcome.limit() < u64::MAX {
                return Ok(());
            }
            let most = (PIECE_BYTES as u64).min(left) as usize;
            match file.read(&mut piece[..most]) {
                Ok(0) => return Err(LoadFault::Short),
                Ok(count) => self.reader.feed(&piece[..count])?,
                Err(error) if error.kind() == ErrorKind::Interrupted => continue,
                Err(error) => return Err(LoadFault::Read(error.kind())),
            }
            self.give_all()?;
            self.tell();
        }
        Ok(())
    }

    /// Sends what was collected, and says that no more comes.
    fn end(self) -> Loaded {
        let mut giving = self;
        let (rt, alloc) = (giving.rt, giving.alloc);
        for way in giving.ways.iter_mut() {
            way.send(rt, alloc);
        }
        let mut loaded = giving.loaded;
        loaded.bytes = giving.reader.whole();
        drop(giving);
        loaded
    }
}

/// Starts a thread for each doer, and gives the ways to them.
fn start<'t, E: 't, R: Wait + Sync, D: Doer + Drop + Send + 't>(
    rt: &'t R,
    alloc: Global,
    scope: &'t Scope<'t, E>,
    doers: Vec<D>,
    outcome: &'t Outcome,
) -> Result<Vec<Way>, LoadFault> {
    let mut ways = Vec::new(alloc);
    for doer in doers {
        let Ok((batches, comes)) = crossbeam_channel::bounded(alloc, BATCHES) else {
            return Err(LoadFault::Memory);
        };
        let way = Way {
            batch: Vec::new(alloc),
            batches,
        };
        if ways.push(way).is_err() {
            return Err(LoadFault::Memory);
        }
        if scope
            .spawn(move || work_all(rt, doer, &comes, outcome))
            .is_err()
        {
            return Err(LoadFault::Memory);
        }
    }
    Ok(ways)
}

/// Has the changes in the first bytes of a file done by these doers, each in a thread of its own:
/// those of a key by the same one, in the file's order. The file has whole commands up to there.
pub fn load<R: Threads + Wait + Clock + Sync, F: Read, D: Doer + Drop + Send, P: Progress>(
    rt: &R,
    alloc: Global,
    file: &mut F,
    whole: u64,
    doers: Vec<D>,
    progress: &P,
) -> Result<Loaded, LoadFault> {
    let outcome = Outcome::new();
    let shared = &outcome;
    let loaded = thread::scope(thread::scope_env(), rt, |scope| {
        let ways = start(rt, alloc, scope, doers, shared)?;
        let mut giving = Giving {
            rt,
            alloc,
            reader: JournalReader::new(alloc),
            ways,
            loaded: Loaded {
                bytes: 0,
                changes: 0,
            },
            progress,
            of: whole,
            told: None,
        };
        let read = giving.read(file, shared);
        let loaded = giving.end();
        read?;
        Ok(loaded)
    });
    let fault = *outcome.fault.lock(rt);
    match fault {
        Some(fault) => Err(LoadFault::Journal(fault)),
        None => loaded,
    }
}
