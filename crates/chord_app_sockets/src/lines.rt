//! What a server writes.

use crate::doors::{Door, Doors, Protocol};
use crate::ended::Ended;
use chord_app_text::Finish;
use std::alloc::Global;
use std::io::{self, Write};
use std::mem;
use std::net::TcpListener;
use std::sync::{Condvar, Mutex, Wait};

/// How many lines wait at most to be written. Those that come while as many wait are left out.
const MOST_WAITING: usize = 65_536;

/// The lines that are not written yet.
#[derive(Drop)]
struct Unwritten {
    /// Why no more are written, if writing failed.
    failed: Option<Finish>,
    /// How the connections ended whose lines are written at the end, by number.
    kept: Vec<Option<Ended>>,
    /// How connections ended whose lines are written soon, each with its number.
    waiting: Vec<(u64, Ended)>,
    /// How many lines were left out behind these.
    left_out: u64,
    /// Whether no more come.
    is_over: bool,
}

/// The lines of connections. Whoever tells one does not wait for its writing, which is the work of
/// a thread ([`Lines::write_on`]). After one that failed no more are written.
#[derive(Drop)]
pub struct Lines<W> {
    alloc: Global,
    /// The lines of how many connections are kept for the end.
    most_kept: usize,
    writer: Mutex<W>,
    unwritten: Mutex<Unwritten>,
    /// Is notified when there is something to write.
    told: Condvar,
}

/// Writes the address at which operators are served.
fn write_operator_address<W: Write>(listener: &TcpListener, writer: &mut W) -> io::Result<()> {
    let address = listener.local_addr()?;
    writeln!(writer, "operator on {address}")?;
    writer.flush()
}

/// Writes the address of a door.
fn write_door<W: Write>(door: Door<'_>, writer: &mut W) -> io::Result<()> {
    let address = door.listener.local_addr()?;
    match door.protocol {
        Protocol::Frames => writeln!(writer, "listening on {address}"),
        Protocol::Redis => writeln!(writer, "redis on {address}"),
    }
}

/// Writes the addresses at which clients are served.
fn write_doors<W: Write>(doors: Doors<'_>, writer: &mut W) -> io::Result<()> {
    write_door(doors.first(), writer)?;
    if let Some(second) = doors.second() {
        write_door(second, writer)?;
    }
    writer.flush()
}

/// Writes how a connection ended.
fn write_end<W: Write>(number: u64, ended: &Ended, writer: &mut W) -> io::Result<()> {
    writeln!(writer, "connection {number} {ended}")
}

/// Writes how these connections ended, and how many lines behind them were left out.
fn write_waiting<W: Write>(
    waiting: &[(u64, Ended)],
    left_out: u64,
    writer: &mut W,
) -> io::Result<()> {
    for (number, ended) in waiting.iter() {
        write_end(*number, ended, writer)?;
    }
    if left_out > 0 {
        writeln!(writer, "left out {left_out}")?;
    }
    writer.flush()
}

/// Writes how each connection ended that did, by number.
fn write_ends<W: Write>(ends: &[Option<Ended>], writer: &mut W) -> io::Result<()> {
    for (number, ended) in ends.iter().enumerate() {
        if let Some(ended) = ended {
            write_end(number as u64, ended, writer)?;
        }
    }
    writer.flush()
}

impl<W: Write> Lines<W> {
    /// Each is written as its connection ends.
    pub fn as_they_end(alloc: Global, writer: W) -> Lines<W> {
        Lines::by_number(alloc, writer, 0)
    }

    /// Those of the first `connections` connections are written at the end, by number.
    pub fn by_number(alloc: Global, writer: W, connections: usize) -> Lines<W> {
        Lines {
            alloc,
            most_kept: connections,
            writer: Mutex::new(writer),
            unwritten: Mutex::new(Unwritten {
                failed: None,
                kept: Vec::new(alloc),
                waiting: Vec::new(alloc),
                left_out: 0,
                is_over: false,
            }),
            told: Condvar::new(),
        }
    }

    /// Writes the addresses at which clients are served, and makes room for the lines to be kept.
    pub fn begin(&self, rt: &impl Wait, doors: Doors<'_>) -> Result<(), Finish> {
        write_doors(doors, &mut *self.writer.lock(rt))?;
        self.unwritten.lock(rt).kept.resize(self.most_kept, None)?;
        Ok(())
    }

    /// Writes the address at which operators are served.
    pub fn begin_operator(&self, rt: &impl Wait, listener: &TcpListener) -> Result<(), Finish> {
        write_operator_address(listener, &mut *self.writer.lock(rt))?;
        Ok(())
    }

    /// Has how a connection ended written soon, or keeps it for the end. Says false if writing
    /// failed.
    pub fn tell(&self, rt: &impl Wait, number: u64, ended: &Ended) -> bool {
        let mut unwritten = self.unwritten.lock(rt);
        if unwritten.failed.is_some() {
            return false;
        }
        if let Some(kept) = unwritten.kept.get_mut(number as usize) {
            *kept = Some(*ended);
            return true;
        }
        let is_left_out = unwritten.left_out > 0
            || unwritten.waiting.len() >= MOST_WAITING
            || unwritten.waiting.push((number, *ended)).is_err();
        if is_left_out {
            unwritten.left_out = unwritten.left_out.saturating_add(1);
        }
        drop(unwritten);
        self.told.notify_all();
        true
    }

    /// Says that no more lines come.
    pub fn end(&self, rt: &impl Wait) {
        self.unwritten.lock(rt).is_over = true;
        self.told.notify_all();
    }

    /// Writes the lines that wait, once there are some. Says false if no more are to be written.
    fn write_next(&self, rt: &impl Wait) -> bool {
        let unwritten = self.unwritten.lock(rt);
        let mut unwritten = self.told.wait_while(rt, unwritten, |lines| {
            lines.waiting.is_empty() && lines.left_out == 0 && !lines.is_over
        });
        let waiting = mem::replace(&mut unwritten.waiting, Vec::new(self.alloc));
        let left_out = mem::replace(&mut unwritten.left_out, 0);
        drop(unwritten);
        if waiting.is_empty() && left_out == 0 {
            drop(waiting);
            return false;
        }
        let written = write_waiting(&waiting, left_out, &mut *self.writer.lock(rt));
        drop(waiting);
        match written {
            Ok(()) => true,
            Err(error) => {
                self.unwritten.lock(rt).failed = Some(Finish::from(error));
                false
            }
        }
    }

    /// Writes lines as they come, until no more do or writing fails. Says whether all were written.
    pub fn write_on(&self, rt: &impl Wait) -> bool {
        for _ in 0..u64::MAX {
            if !self.write_next(rt) {
                break;
            }
        }
        self.unwritten.lock(rt).failed.is_none()
    }

    /// Writes the lines that were kept. Succeeds if all lines were written.
    pub fn finish(self) -> Result<(), Finish>
    where
        W: Drop,
    {
        let Lines {
            alloc: _,
            most_kept: _,
            writer,
            unwritten,
            told: _,
        } = self;
        let mut writer = writer.into_inner();
        let Unwritten {
            failed,
            kept,
            waiting,
            left_out,
            is_over: _,
        } = unwritten.into_inner();
        if let Some(finish) = failed {
            return Err(finish);
        }
        write_waiting(&waiting, left_out, &mut writer)?;
        write_ends(&kept, &mut writer)?;
        Ok(())
    }
}
