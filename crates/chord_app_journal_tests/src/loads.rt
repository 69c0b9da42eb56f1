//! Loading a journal by several doers.

use crate::checks::check;
use chord_app_journal::{Doer, LoadFault, Loaded, Progress, load};
use chord_journal_file::{FaultKind, ReadFault};
use chord_resp::{Command, put_bulk, put_count};
use std::alloc::{AllocError, Global};
use std::fmt::InlineText;
use std::io::Cursor;
use std::sync::{Mutex, Wait};
use std::thread::Threads;
use std::time::Clock;

/// What was done: for each key how many members it has, and whether they came in order.
#[derive(Clone, Copy, Debug, PartialEq, Eq)]
struct Done {
    changes: u64,
    in_order: bool,
    rested: u64,
}

/// Keys `0` to `9`, each with the last member that came.
#[derive(Drop)]
struct Board {
    done: Done,
    last: [u64; 10],
}

/// The number that a text is.
fn number_of(text: &[u8]) -> u64 {
    let mut number: u64 = 0;
    for byte in text {
        number = number
            .wrapping_mul(10)
            .wrapping_add(u64::from(byte.wrapping_sub(b'0')));
    }
    number
}

#[derive(Drop)]
struct Noter<'a, R> {
    rt: &'a R,
    board: &'a Mutex<Board>,
    /// The member at which it fails.
    refuses: u64,
}

impl<R: Wait> Doer for Noter<'_, R> {
    fn work(&mut self, change: &Command) -> Result<(), FaultKind> {
        let Command::Add { key, members } = change else {
            return Err(FaultKind::NoChange);
        };
        let mut board = self.board.lock(self.rt);
        let board = &mut *board;
        for member in members.as_slice() {
            let number = number_of(member.as_slice());
            if number == self.refuses {
                return Err(FaultKind::SetFull);
            }
            let Some(last) = board.last.get_mut(number_of(key.as_slice()) as usize) else {
                return Err(FaultKind::KeyLength);
            };
            if number <= *last {
                board.done.in_order = false;
            }
            *last = number;
            board.done.changes = board.done.changes.wrapping_add(1);
        }
        Ok(())
    }

    fn rest(self) {
        let mut board = self.board.lock(self.rt);
        board.done.rested = board.done.rested.wrapping_add(1);
    }
}

struct Quiet;

impl Progress for Quiet {
    fn tell(&self, _loaded: &Loaded, _of: u64) {}
}

/// A command that adds a member.
fn put_change(file: &mut Vec<u8>, key: u64, member: u64) -> Result<(), AllocError> {
    put_count(file, 3)?;
    put_bulk(file, b"SADD")?;
    put_bulk(file, InlineText::<20>::of(key).as_str().as_bytes())?;
    put_bulk(file, InlineText::<20>::of(member).as_str().as_bytes())
}

/// Members 1 to `most`, each added to each of ten keys.
fn file_of(alloc: Global, most: u64) -> Result<Vec<u8>, AllocError> {
    let mut file = Vec::new(alloc);
    for member in 1..=most {
        for key in 0..10u64 {
            put_change(&mut file, key, member)?;
        }
    }
    Ok(file)
}

/// Loads such a file by four doers, which refuse one of the members.
fn load_by_four<R: Threads + Wait + Clock + AllocGlobal + Sync>(
    rt: &R,
    most: u64,
    refuses: u64,
) -> Result<(Result<Loaded, LoadFault>, u64, Done), AllocError> {
    let alloc = rt.alloc();
    let file = file_of(alloc, most)?;
    let board = Mutex::new(Board {
        done: Done {
            changes: 0,
            in_order: true,
            rested: 0,
        },
        last: [0; 10],
    });
    let mut doers = Vec::new(alloc);
    for _ in 0..4u64 {
        doers.push(Noter {
            rt,
            board: &board,
            refuses,
        })?;
    }
    let count = file.len() as u64;
    let loaded = load(
        rt,
        alloc,
        &mut Cursor::new(file.as_slice()),
        count,
        doers,
        &Quiet,
    );
    let done = board.lock(rt).done;
    Ok((loaded, count, done))
}

#[test]
fn each_change_is_done_once_and_those_of_a_key_in_order(rt: HostRuntime) -> Result<(), AllocError> {
    let (loaded, bytes, done) = load_by_four(&rt, 300, 0)?;
    check!(&rt; loaded == Ok(Loaded { bytes, changes: 3_000 }));
    check!(&rt; done == Done { changes: 3_000, in_order: true, rested: 4 });
    Ok(())
}

#[test]
fn the_first_fault_ends_a_load(rt: HostRuntime) -> Result<(), AllocError> {
    let (loaded, _, done) = load_by_four(&rt, 20, 3)?;
    // Each command before it has 28 bytes: ten of member 1, ten of member 2.
    check!(&rt; loaded == Err(LoadFault::Journal(ReadFault { kind: FaultKind::SetFull, offset: 560 })), "its place is told");
    check!(&rt; done.rested == 4);
    Ok(())
}
