//! A writer whose source is a buffer, over a device that fails where a test wants it to.

use crate::checks::check;
use crate::device::{FailingDevice, Next};
use chord_app_journal::{JournalWriter, Source, SyncRule, Trouble};
use chord_journal::{JournalBuffer, JournalPiece};
use chord_journal_file::JournalFile;
use chord_map::{Reply, Request};
use std::alloc::{AllocError, Global};
use std::sync::atomic::{AtomicBool, AtomicU64, Ordering};
use std::sync::{Mutex, Wait};
use std::thread::Threads;
use std::time::{Clock, Duration};
use std::{io, thread};

/// How many milliseconds a test waits at most for what another thread does.
const PATIENCE: u64 = 20_000;

/// Changes that were made.
#[derive(Drop)]
struct Changes {
    buffer: Mutex<JournalBuffer>,
    mark: AtomicU64,
    /// How often a round said that those who wait are to look.
    looks: AtomicU64,
    is_over: AtomicBool,
}

impl Changes {
    fn new(alloc: Global) -> Changes {
        Changes {
            buffer: Mutex::new(JournalBuffer::new(alloc)),
            mark: AtomicU64::new(0),
            looks: AtomicU64::new(0),
            is_over: AtomicBool::new(false),
        }
    }

    /// Makes a change, and gives the mark after it.
    fn make<R: Wait>(&self, rt: &R, alloc: Global, value: &[u8]) -> Result<u64, AllocError> {
        let request = Request::insert(alloc, b"k", value)?;
        let mut buffer = self.buffer.lock(rt);
        let buffer = &mut *buffer;
        buffer.reserve(&request)?;
        buffer.append(&request, &Reply::Added);
        let mark = buffer.mark();
        self.mark.store(mark, Ordering::SeqCst);
        drop(request);
        Ok(mark)
    }
}

impl Source for Changes {
    fn take<R: Wait>(&self, rt: &R, spare: Vec<u8>) -> JournalPiece {
        self.buffer.lock(rt).take(spare)
    }

    fn mark(&self) -> u64 {
        self.mark.load(Ordering::SeqCst)
    }
}

/// Waits until it is so.
fn wait_until<R: Clock, F: Fn() -> bool>(rt: &R, is_so: F) -> bool
    requires { F.IsAlwaysCallable is_so }
{
    for _ in 0..PATIENCE {
        if is_so() {
            return true;
        }
        thread::sleep(rt, Duration::from_millis(1));
    }
    false
}

/// A device with a writer.
#[derive(Drop)]
struct Parts {
    device: FailingDevice,
    writer: JournalWriter<FailingDevice>,
    changes: Changes,
}

fn make_parts(alloc: Global, rule: SyncRule) -> io::Result<Parts> {
    let device = FailingDevice::new(alloc)?;
    let file = JournalFile::new(device.handle()?, 0);
    Ok(Parts {
        writer: JournalWriter::new(alloc, rule, file)?,
        device,
        changes: Changes::new(alloc),
    })
}

/// What is known of a device and its writer.
#[derive(Clone, Copy, Debug, PartialEq, Eq)]
struct Seen {
    written: u64,
    synced: u64,
    shown: u64,
    trouble: Trouble,
    bytes: u64,
}

impl Parts {
    fn set<R: Clock>(&self, rt: &R, write: Next, sync: Next) {
        wait_until(rt, || match self.device.disk() {
            Some(mut disk) => {
                disk.write = write;
                disk.sync = sync;
                true
            }
            None => false,
        });
    }

    fn seen(&self) -> Seen {
        let bytes = match self.device.disk() {
            Some(disk) => disk.bytes.len() as u64,
            None => u64::MAX,
        };
        Seen {
            written: self.writer.written(),
            synced: self.writer.synced(),
            shown: self.writer.shown(),
            trouble: self.writer.trouble(),
            bytes,
        }
    }
}

/// Has rounds written until the test is over, or the file is lost.
fn write_rounds<R: Wait + Clock>(rt: &R, parts: &Parts) {
    for _ in rt.forever() {
        if parts.changes.is_over.load(Ordering::SeqCst) || parts.writer.trouble() == Trouble::Lost {
            return;
        }
        if parts.writer.round(rt, &parts.changes) {
            parts.changes.looks.fetch_add(1, Ordering::SeqCst);
        }
        thread::sleep(rt, Duration::from_millis(1));
    }
}

/// Writes rounds beside what is done, and ends them.
fn beside<R: Threads + Wait + Clock + Sync, F: FnOnce() -> io::Result<bool>>(
    rt: &R,
    parts: &Parts,
    work: F,
) -> io::Result<bool>
    requires { F.IsAlwaysCallable work }
{
    thread::scope(thread::scope_env(), rt, |scope| {
        let started = scope.spawn(move || write_rounds(rt, parts));
        let worked = work();
        parts.changes.is_over.store(true, Ordering::SeqCst);
        if started.is_err() {
            return Ok(false);
        }
        worked
    })
}

#[test]
fn one_who_waits_writes(rt: HostRuntime) -> io::Result<()> {
    let parts = make_parts(rt.alloc(), SyncRule::Second)?;
    let first = parts.changes.make(&rt, rt.alloc(), b"x")?;
    let mark = parts.changes.make(&rt, rt.alloc(), b"y")?;
    let shown = parts.writer.settle(&rt, &parts.changes, first);
    let seen = parts.seen();
    let concluded = parts.writer.conclude(&rt, &parts.changes);
    let last = parts.seen();
    drop(parts);
    check!(&rt; shown == mark, "all that is there is written for the first one who waits");
    check!(&rt; seen == Seen { written: 56, synced: 0, shown: 56, trouble: Trouble::None, bytes: 56 });
    check!(&rt; concluded, "what is left is synced at the end");
    check!(&rt; last.synced == 56);
    Ok(())
}

/// A write fails for some time, and is tried again until it is done.
fn try_again<R: Threads + Wait + Clock + AllocGlobal + Sync>(rt: &R) -> io::Result<bool> {
    let parts = make_parts(rt.alloc(), SyncRule::Second)?;
    let mark = parts.changes.make(rt, rt.alloc(), b"x")?;
    parts.set(rt, Next::Adds(5), Next::Works);
    let shown = parts.writer.settle(rt, &parts.changes, mark);
    let seen = parts.seen();
    let takes = parts.writer.takes_changes(mark);
    let later = parts.changes.make(rt, rt.alloc(), b"y")?;
    let all = beside(
        rt,
        &parts,
        || Ok(wait_until(rt, || parts.writer.written() >= later)),
    );
    let last = parts.seen();
    let takes_then = parts.writer.takes_changes(later);
    drop(parts);
    Ok(
        shown == 0
            && seen.trouble == Trouble::Refuses
            && seen.bytes == 0
            && !takes
            && all?
            && last.trouble == Trouble::None
            && last.bytes == 56
            && takes_then,
    )
}

#[test]
fn a_write_that_failed_is_tried_again(rt: HostRuntime) -> io::Result<()> {
    check!(&rt; try_again(&rt)?);
    Ok(())
}

/// With `Always` the thread writes and syncs, and then a sync fails.
fn fail_to_sync<R: Threads + Wait + Clock + AllocGlobal + Sync>(rt: &R) -> io::Result<bool> {
    let parts = make_parts(rt.alloc(), SyncRule::Always)?;
    let first = parts.changes.make(rt, rt.alloc(), b"x")?;
    let all = beside(rt, &parts, || {
        let shown = parts.writer.settle(rt, &parts.changes, first);
        let is_synced = wait_until(rt, || parts.writer.shown() >= first);
        parts.set(rt, Next::Works, Next::Fails);
        let second = parts.changes.make(rt, rt.alloc(), b"y")?;
        parts.writer.settle(rt, &parts.changes, second);
        let is_lost = wait_until(rt, || parts.writer.trouble() == Trouble::Lost);
        Ok(shown <= first && is_synced && is_lost)
    });
    let seen = parts.seen();
    let looks = parts.changes.looks.load(Ordering::SeqCst);
    let concluded = parts.writer.conclude(rt, &parts.changes);
    drop(parts);
    Ok(all? && seen.shown == first && seen.written == 56 && looks >= 2 && !concluded)
}

#[test]
fn a_change_that_is_not_synced_is_not_shown(rt: HostRuntime) -> io::Result<()> {
    check!(&rt; fail_to_sync(&rt)?);
    Ok(())
}
