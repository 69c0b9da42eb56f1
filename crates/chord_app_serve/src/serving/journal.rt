//! The journal of a server: it is loaded before any client is served, and answers to clients wait
//! until it is written.

use crate::serving::caller_pool::CallerPool;
use chord_app_journal::{
    Doer, JournalWriter, LoadFault, Loaded, Progress, Source, SyncRule, Trouble, load,
};
use chord_app_sockets::JournalSetup;
use chord_journal_file::{FaultKind, JournalFile};
use chord_live::RingClient;
use chord_live_ring::{JournalPiece, Ring};
use chord_map::{Bytes, Reply, Request};
use chord_resp::Command;
use chord_store::EntryStore;
use chord_table::Naming;
use crossbeam_channel::{Receiver, Sender};
use log::{Log, warn};
use std::alloc::Global;
use std::fs::File;
use std::sync::Wait;
use std::sync::atomic::{AtomicBool, Ordering};
use std::thread::Threads;
use std::time::{Clock, Instant};

/// How many callers load a journal.
const LOADERS: u64 = 4;

/// How often a change that found no memory or no answer is asked again.
const TRIES: u64 = 100;

/// The commands of a ring's changes.
#[derive(Drop)]
pub struct RingSource<'r, J: Naming, S: EntryStore> {
    pub alloc: Global,
    pub ring: &'r Ring<J, S>,
}

impl<J: Naming, S: EntryStore> Source for RingSource<'_, J, S> {
    fn take<R: Wait>(&self, rt: &R, spare: Vec<u8>) -> JournalPiece {
        match self.ring.take_journal(rt, spare) {
            Some(piece) => piece,
            None => JournalPiece {
                bytes: Vec::new(self.alloc),
                mark: 0,
            },
        }
    }

    fn mark(&self) -> u64 {
        self.ring.journal_mark()
    }
}

/// A caller that does the changes of a journal.
#[derive(Drop)]
struct Loader<'a, 'r, J: Naming, S: EntryStore, R> {
    rt: &'a R,
    alloc: Global,
    pool: &'a CallerPool<'r, J, S>,
    caller: RingClient<'r, J, S>,
    via: u64,
}

/// The change of one member.
fn request_of(alloc: Global, change: &Command, member: &Bytes) -> Result<Request, FaultKind> {
    match change {
        Command::Add { key, .. } => {
            Ok(Request::insert(alloc, key.as_slice(), member.as_slice())?)
        }
        Command::Remove { key, .. } => {
            Ok(Request::remove(alloc, key.as_slice(), member.as_slice())?)
        }
        _ => Err(FaultKind::NoChange),
    }
}

/// The members of a change.
fn members_of(change: &Command) -> &[Bytes] {
    match change {
        Command::Add { members, .. } | Command::Remove { members, .. } => members.as_slice(),
        _ => &[],
    }
}

impl<J: Naming, S: EntryStore, R: Wait + Clock> Loader<'_, '_, J, S, R> {
    /// Asks a request until it has its reply.
    fn ask(&mut self, request: Request) -> Result<Reply, FaultKind> {
        if let Ok(reply) = self.caller.call(self.rt, self.via, request) {
            return Ok(reply);
        }
        for _ in 0..TRIES {
            let Some(number) = self.caller.pending() else {
                return Err(FaultKind::Memory);
            };
            if let Ok(reply) = self.caller.call_again(self.rt, self.via, number) {
                return Ok(reply);
            }
        }
        Err(FaultKind::NoAnswer)
    }
}

impl<J: Naming, S: EntryStore, R: Wait + Clock> Doer for Loader<'_, '_, J, S, R> {
    fn work(&mut self, change: &Command) -> Result<(), FaultKind> {
        for member in members_of(change) {
            let request = request_of(self.alloc, change, member)?;
            match self.ask(request)? {
                Reply::SetFull => return Err(FaultKind::SetFull),
                other => drop(other),
            }
        }
        Ok(())
    }

    fn rest(self) {
        self.pool.give_back(self.rt, self.caller);
    }
}

/// Tells how far a load is.
#[derive(Drop)]
struct Tale<'a, R, L> {
    rt: &'a R,
    notes: &'a L,
    began: Option<Instant>,
}

/// How many milliseconds passed since then, and at least one.
fn passed_since<R: Clock>(rt: &R, began: &Option<Instant>) -> u64 {
    let Some(began) = began else {
        return 1;
    };
    match began.elapsed(rt) {
        Ok(passed) => u64::try_from(passed.as_millis()).unwrap_or(u64::MAX).max(1),
        Err(_) => 1,
    }
}

/// How many a second these are, if they took this number of milliseconds.
fn rate_of(count: u64, milliseconds: u64) -> u64 {
    if milliseconds == 0 {
        return count;
    }
    count.saturating_mul(1_000) / milliseconds
}

impl<R: Clock, L: Log> Progress for Tale<'_, R, L> {
    fn tell(&self, loaded: &Loaded, of: u64) {
        let Loaded { bytes, changes } = loaded;
        let rate = rate_of(*changes, passed_since(self.rt, &self.began));
        warn!(self.notes; target: "chord", "journal: {bytes} of {of} bytes, {changes} changes loaded, {rate} a second");
    }
}

/// The journal of a server.
#[derive(Drop)]
pub struct ServerJournal<'r, J: Naming, S: EntryStore> {
    source: RingSource<'r, J, S>,
    writer: JournalWriter<File>,
    /// Who waits until changes are written rings, and the thread that writes hears that.
    rings: Sender<(), Global>,
    heard: Receiver<(), Global>,
    is_over: AtomicBool,
}

impl<'r, J: Naming, S: EntryStore> ServerJournal<'r, J, S> {
    /// The journal of this ring, of which nothing is loaded. None if there is no handle for its
    /// file.
    pub fn new(
        alloc: Global,
        ring: &'r Ring<J, S>,
        setup: &JournalSetup<'_>,
    ) -> Option<ServerJournal<'r, J, S>> {
        let file = setup.opened.file.try_clone().ok()?;
        let file = JournalFile::new(file, setup.opened.scanned.whole);
        let writer = JournalWriter::new(alloc, setup.rule, file).ok()?;
        let (rings, heard) = crossbeam_channel::bounded(alloc, 1).ok()?;
        Some(ServerJournal {
            source: RingSource { alloc, ring },
            writer,
            rings,
            heard,
            is_over: AtomicBool::new(false),
        })
    }

    /// Up to where there are changes.
    pub fn mark(&self) -> u64 {
        self.source.mark()
    }

    /// Has the thread that writes look.
    fn ring<R: Wait>(&self, rt: &R) {
        let _ = self.rings.try_send(rt, ()).is_ok();
    }

    /// Has changes written up to this mark, and says up to where they may be shown. Where that is
    /// less, they are written by the thread that writes.
    pub fn settle<R: Wait>(&self, rt: &R, mark: u64) -> u64 {
        let shown = self.writer.settle(rt, &self.source, mark);
        if shown < mark {
            self.ring(rt);
        }
        shown
    }

    /// Callers for a load.
    fn loaders<'a, R: Wait + Clock>(
        &self,
        rt: &'a R,
        pool: &'a CallerPool<'r, J, S>,
    ) -> Result<Vec<Loader<'a, 'r, J, S, R>>, LoadFault> {
        let mut loaders = Vec::new(self.source.alloc);
        for number in 0..LOADERS {
            if let Ok(idle) = pool.take(rt) {
                let loader = Loader {
                    rt,
                    alloc: self.source.alloc,
                    pool,
                    caller: idle.into_caller(),
                    via: number % self.source.ring.node_count().max(1),
                };
                if loaders.push(loader).is_err() {
                    return Err(LoadFault::Memory);
                }
            }
        }
        if loaders.is_empty() {
            return Err(LoadFault::Memory);
        }
        Ok(loaders)
    }

    /// Asks the changes of the file of the ring. After them the journal begins.
    pub fn load<R: Threads + Wait + Clock + Sync, L: Log>(
        &self,
        rt: &R,
        setup: &JournalSetup<'_>,
        pool: &CallerPool<'r, J, S>,
        notes: &L,
    ) -> Result<Loaded, LoadFault>
    where
        J: Send + Sync,
        S: Send,
    {
        let loaders = self.loaders(rt, pool)?;
        let tale = Tale {
            rt,
            notes,
            began: Instant::now(rt).ok(),
        };
        let mut file = &setup.opened.file;
        let whole = setup.opened.scanned.whole;
        let loaded = load(rt, self.source.alloc, &mut file, whole, loaders, &tale)?;
        tale.tell(&loaded, whole);
        self.source.ring.begin_journal();
        Ok(loaded)
    }

    /// Sleeps until one who waits rings, or a write or a sync is due. Says whether more is to be
    /// written: not if it was ended, or its file is lost.
    pub fn rest<R: Wait + Clock>(&self, rt: &R) -> bool {
        let _ = self.heard.recv_timeout(rt, self.writer.pause()).is_ok();
        !self.is_over.load(Ordering::SeqCst) && self.writer.trouble() != Trouble::Lost
    }

    /// Writes and syncs what is due. Says whether those who wait are to look.
    pub fn round<R: Wait>(&self, rt: &R) -> bool {
        self.writer.round(rt, &self.source)
    }

    /// Whether nothing can be written or synced any more, though each answer waits for that.
    pub fn is_lost(&self) -> bool {
        self.writer.rule() == SyncRule::Always && self.writer.trouble() == Trouble::Lost
    }

    /// Ends the thread that writes.
    pub fn end<R: Wait>(&self, rt: &R) {
        self.is_over.store(true, Ordering::SeqCst);
        self.ring(rt);
    }

    /// Writes and syncs what is left. Says whether all of it is on the disk.
    pub fn conclude<R: Wait>(&self, rt: &R) -> bool {
        self.writer.conclude(rt, &self.source)
    }
}
