//! A load over all its connections.

use crate::load::bounds::Load;
use crate::load::progress::LoadProgress;
use crate::load::report::Report;
use crate::load::worker::work;
use chord_app_text::{Fault, Finish};
use std::alloc::Global;
use std::io::Write;
use std::net::{Net, TcpListener, TcpStream};
use std::sync::Wait;
use std::thread;
use std::thread::{Scope, Threads};
use std::time::{Clock, Duration, Instant};

/// How many times a second to check whether all connections ended.
const LOOKS: u64 = 10;

/// Writes a line each second, until all connections ended or writing fails.
fn show<R: Clock + Wait, W: Write>(rt: &R, progress: &LoadProgress, writer: &mut W) {
    let mut before = 0;
    let mut looks: u64 = 0;
    for _ in rt.forever() {
        thread::sleep(rt, Duration::from_millis(1000 / LOOKS));
        if progress.has_ended() {
            return;
        }
        looks = looks.saturating_add(1);
        if looks % LOOKS != 0 {
            continue;
        }
        let answered = progress.answered();
        let seconds = looks / LOOKS;
        let more = answered.saturating_sub(before);
        before = answered;
        if writeln!(writer, "{seconds} s: {answered} requests, {more} a second").is_err() {
            return;
        }
    }
}

/// Runs each connection on a thread of its own, and joins their reports.
fn run_connections<
    's,
    E: 's,
    R: Threads + Wait + Clock + Net<Listener = TcpListener, Stream = TcpStream> + Sync + 's,
>(
    rt: &'s R,
    alloc: Global,
    scope: &'s Scope<'s, E>,
    load: Load,
    start: Instant,
    progress: &'s LoadProgress,
) -> Result<Report, Finish> {
    let mut workers = Vec::new(alloc);
    for connection in 0..load.connections {
        match scope.spawn(move || work(rt, alloc, load, connection, start, progress)) {
            Ok(worker) => workers.push(worker)?,
            Err(_) => return Err(Finish::OutOfMemory),
        }
    }
    let mut whole = Report::new(alloc)?;
    let mut ended = Ok(());
    for worker in workers {
        match worker.join(rt) {
            Ok(report) => whole.join(&report),
            Err(finish) => ended = Err(finish),
        }
    }
    ended?;
    let ended = whole.milliseconds;
    whole.note_still(progress.since_reply(ended));
    Ok(whole)
}

/// Runs all connections, and writes lines meanwhile if there is a writer for them. The first handle
/// starts the threads.
fn run_all<
    'x,
    R: Threads + Wait + Clock + Net<Listener = TcpListener, Stream = TcpStream> + Sync,
    W: Write + Send + Drop + 'x,
>(
    starter: &R,
    rt: &'x R,
    alloc: Global,
    load: Load,
    start: Instant,
    progress: &'x LoadProgress,
    lines: Option<W>,
) -> Result<Report, Finish> {
    thread::scope(thread::scope_env(), starter, |scope| {
        if let Some(mut writer) = lines {
            let _ = scope.spawn(move || show(rt, progress, &mut writer)).is_ok();
        }
        let report = run_connections(rt, alloc, scope, load, start, progress);
        progress.end();
        report
    })
}

/// Writes the table of a load. Says how the command ends.
fn write_report<W: Write>(report: &Report, writer: &mut W) -> Result<Finish, Finish> {
    writeln!(writer, "{report}")?;
    writer.flush()?;
    match (report.doubled, report.faults) {
        (Some(doubled), _) if doubled != 0 => Ok(Finish::Fault(Fault::Doubled(doubled))),
        (_, 0) => Ok(Finish::Done),
        (_, faults) => Ok(Finish::Fault(Fault::Unanswered(faults))),
    }
}

/// Runs a load, and writes the table of its results.
pub fn run_load<
    R: Threads + Wait + Clock + Net<Listener = TcpListener, Stream = TcpStream> + Sync,
    L: Write + Send + Drop,
    W: Write,
>(rt: &R, alloc: Global, load: Load, lines: Option<L>, writer: &mut W) -> Result<Finish, Finish> {
    let progress = LoadProgress::new();
    let Ok(start) = Instant::now(rt) else {
        return Err(Finish::Fault(Fault::Clock));
    };
    let report = run_all(rt, rt, alloc, load, start, &progress, lines)?;
    let finish = write_report(&report, writer);
    drop(report);
    finish
}
