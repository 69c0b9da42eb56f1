//! One connection of a load.
ghost use Rattle.chord_map.specs.Checked.{IsRequest};

use crate::ask::link::{ClientOptions, Link, LinkState, READS};
use crate::load::bounds::{Kind, Load, Until};
use crate::load::cutting::{Cut, CutWriter, Cutter};
use crate::load::progress::LoadProgress;
use crate::load::report::Report;
use chord_app_text::{Fault, Finish};
use chord_map::{Bytes, Reply, Request};
use chord_serve::{AgainFault, CallFault, ReceiveFault, SendFault};
use chord_wire::{Answer, FaultCode};
use std::alloc::{AllocError, Global};
use std::collections::VecDeque;
use std::net::{Net, Shutdown, TcpStream};
use std::time::{Clock, Instant};

/// A connection, with its requests in flight and its results.
#[derive(Drop)]
struct Worker<'a, R: Clock> {
    rt: &'a R,
    alloc: Global,
    load: Load,
    connection: u64,
    link: Link,
    /// When the load began.
    start: Instant,
    /// How many requests were sent.
    made: u64,
    /// When those in flight were sent, in the order of their answers.
    sent: VecDeque<Instant>,
    report: Report,
    /// Where its connections are cut, if they are.
    cutter: Option<Cutter>,
}

/// How a worker stands behind a step.
#[derive(Clone, Copy, Debug, PartialEq, Eq)]
enum Progress {
    GoesOn,
    /// No more is due, and nothing is in flight.
    Done,
    /// The connection was lost.
    Lost,
    /// The server refused a request for good, or had no caller.
    Refused,
}

/// What a worker hears of a request.
#[derive(Clone, Copy, Debug, PartialEq, Eq)]
enum Heard {
    Reply,
    /// The value that was to be inserted was there.
    Present,
    /// A set of no values.
    Empty,
    Fault(FaultCode),
}

/// The time now.
fn now<R: Clock>(rt: &R) -> Result<Instant, Finish> {
    match Instant::now(rt) {
        Ok(time) => Ok(time),
        Err(_) => Err(Finish::Fault(Fault::Clock)),
    }
}

/// How many milliseconds passed from one time to another.
fn milliseconds_between(start: Instant, time: Instant) -> u64 {
    let passed = time.duration_since(start).as_millis();
    u64::try_from(passed).unwrap_or(u64::MAX)
}

/// A key of the load, by its number.
fn key_of(alloc: Global, number: u64) -> Result<Bytes, AllocError> {
    let text = format!(in alloc; "key {number}")?;
    Bytes::from_slice(alloc, text.as_bytes())
}

/// What the answer says.
fn heard_of(answer: Answer) -> Heard {
    let heard = match &answer {
        Answer::Reply {
            reply: Reply::Present,
            ..
        } => Heard::Present,
        Answer::Reply {
            reply: Reply::Values(values),
            ..
        } if values.as_slice().is_empty() => Heard::Empty,
        Answer::Reply { .. } => Heard::Reply,
        Answer::Fault { code, .. } => Heard::Fault(*code),
    };
    drop(answer);
    heard
}

impl<'a, R: Net<Stream = TcpStream> + Clock> Worker<'a, R> {
    /// Whether to send one more request.
    fn is_due(&self) -> Result<bool, Finish> {
        match self.load.until {
            Until::Requests(_) => Ok(self.made < self.load.share(self.connection)),
            Until::Seconds(seconds) => {
                Ok(now(self.rt)?.duration_since(self.start).as_secs() < seconds)
            }
        }
    }

    /// The next value to be inserted: where nobody else is to insert it, 8 bytes of this run's own
    /// and the number of the request, and then always the same.
    fn next_value(&self) -> Result<Vec<u8>, AllocError> {
        let mut value = vec![in self.alloc; b'v'; self.load.value_size]?;
        if let Some(tokens) = self.load.tokens {
            if self.load.has_unique_values() && value.len() >= 16 {
                let number = self.connection << 48 | self.made;
                value[..8].copy_from_slice(&tokens.word(u64::MAX, 0).to_be_bytes());
                value[8..16].copy_from_slice(&number.to_be_bytes());
            }
        }
        Ok(value)
    }

    /// The next request. Connection c of n uses keys c, c + n, c + 2n and so on, modulo the number
    /// of keys.
    fn next_request(&self) -> Result<Request, AllocError> {
        let place = self
            .made
            .wrapping_mul(self.load.connections)
            .wrapping_add(self.connection);
        let key = key_of(self.alloc, place % self.load.keys.max(1))?;
        match self.load.kind {
            Kind::Retrieve => Ok(Request::Retrieve { key }),
            Kind::Insert => {
                let value = self.next_value()?;
                Ok(Request::Insert {
                    key,
                    value: Bytes::from_vec(value),
                })
            }
        }
    }

    /// Counts a request, and records the time at which it is sent.
    fn keep_start(&mut self) -> Result<(), Finish> {
        self.made = self.made.saturating_add(1);
        let time = now(self.rt)?;
        self.sent.push_back(time)?;
        Ok(())
    }

    /// Sends a new request.
    fn send(&mut self) -> Result<LinkState, Finish> {
        let request = self.next_request()?;
        let kept = self.keep_start();
        match request.check() {
            Ok(()) => self.pass(request, kept),
            Err(_) => {
                drop(request);
                Err(Finish::BadCommandLine)
            }
        }
    }

    /// Sends a request, if its time was recorded.
    fn pass(&mut self, request: Request, kept: Result<(), Finish>) -> Result<LinkState, Finish>
        requires { IsRequest request }
    {
        if let Err(finish) = kept {
            drop(request);
            return Err(finish);
        }
        let cut = self.cutter.as_mut().and_then(Cutter::cut);
        let most = match cut {
            Some(Cut::Within(bytes)) => bytes,
            _ => usize::MAX,
        };
        let mut writer = CutWriter::new(&self.link.stream, most);
        let sent = self.link.client.send(&mut writer, request);
        match sent {
            Ok(_) if cut.is_some() => {
                let _ = self.link.stream.shutdown(Shutdown::Both).is_ok();
                Ok(LinkState::Broken)
            }
            Ok(_) => Ok(LinkState::Open),
            Err(SendFault::Memory) => Err(Finish::OutOfMemory),
            Err(_) => Ok(LinkState::Broken),
        }
    }

    /// Sends a request that got a fault again.
    fn again(&mut self, number: u64) -> Result<LinkState, Finish> {
        self.keep_start()?;
        let mut writer = &self.link.stream;
        match self.link.client.again(&mut writer, number) {
            Ok(()) => Ok(LinkState::Open),
            Err(AgainFault::Memory) => Err(Finish::OutOfMemory),
            Err(_) => Ok(LinkState::Broken),
        }
    }

    /// Sends new requests while there is room for them and they are due.
    fn fill(&mut self) -> Result<LinkState, Finish> {
        for _ in 0..self.load.in_flight {
            if self.link.client.is_full() || !self.is_due()? {
                break;
            }
            if self.send()? == LinkState::Broken {
                return Ok(LinkState::Broken);
            }
        }
        Ok(LinkState::Open)
    }

    /// Records how long the first request in flight took, and when its reply came.
    fn keep_time(&mut self, progress: &LoadProgress) -> Result<(), Finish> {
        if let Some(sent) = self.sent.pop_front() {
            let time = now(self.rt)?;
            let took = time.duration_since(sent).as_micros();
            let microseconds = u64::try_from(took).unwrap_or(u64::MAX);
            self.report.times.record(microseconds, 1);
            let moment = milliseconds_between(self.start, time);
            self.report.note_still(progress.note_reply(moment));
        }
        Ok(())
    }

    /// Receives an answer. If it is a fault, its request is sent again in place of a new one.
    fn receive(&mut self, progress: &LoadProgress) -> Result<Progress, Finish> {
        let mut reader = &self.link.stream;
        let (number, heard) = match self.link.client.receive(&mut reader, READS) {
            Ok((number, answer)) => (number, heard_of(answer)),
            Err(ReceiveFault::Call(CallFault::Memory)) => return Err(Finish::OutOfMemory),
            Err(ReceiveFault::CallersSpent) => return Ok(Progress::Refused),
            Err(_) => return Ok(Progress::Lost),
        };
        self.link.note_answer();
        if let Heard::Fault(code) = heard {
            return self.retry(number, code);
        }
        if heard == Heard::Empty {
            self.report.note_empty();
        }
        if heard == Heard::Present && self.load.has_unique_values() {
            self.report.note_doubled();
        }
        self.keep_time(progress)?;
        Ok(Progress::GoesOn)
    }

    /// Counts a fault, and sends its request again if that may succeed and a request is due.
    fn retry(&mut self, number: u64, code: FaultCode) -> Result<Progress, Finish> {
        self.report.faults = self.report.faults.saturating_add(1);
        self.sent.pop_front();
        if !matches!(code, FaultCode::Full | FaultCode::NoAnswer) {
            return Ok(Progress::Refused);
        }
        if self.is_due()? && self.again(number)? == LinkState::Broken {
            return Ok(Progress::Lost);
        }
        Ok(Progress::GoesOn)
    }

    /// Sends new requests, and receives an answer, if one is awaited.
    fn step(&mut self, progress: &LoadProgress) -> Result<Progress, Finish> {
        if self.link.is_spent() {
            return Ok(Progress::Refused);
        }
        if self.fill()? == LinkState::Broken {
            return Ok(Progress::Lost);
        }
        if self.link.client.in_flight() == 0 {
            return Ok(Progress::Done);
        }
        let stands = self.receive(progress)?;
        if stands == Progress::GoesOn {
            progress.note_answer();
        }
        Ok(stands)
    }

    /// Goes on over another connection, if its session can.
    fn resume(&mut self) -> Result<bool, Finish> {
        let is_resumed = self.link.resume(self.rt)?;
        if is_resumed {
            self.report.note_resumed();
        }
        Ok(is_resumed)
    }

    /// Sends and receives until no more is due and nothing is in flight, or the connection was lost
    /// for good.
    fn run(&mut self, progress: &LoadProgress) -> Result<(), Finish> {
        for _ in 0..u64::MAX {
            match self.step(progress)? {
                Progress::GoesOn => {}
                Progress::Done => return Ok(()),
                Progress::Lost => {
                    if !self.resume()? {
                        break;
                    }
                }
                Progress::Refused => break,
            }
        }
        let lost = self.sent.len() as u64;
        self.report.faults = self.report.faults.saturating_add(lost);
        Ok(())
    }

    /// The report, with the connection closed.
    fn into_report(self) -> Report {
        self.link.close();
        drop(self.sent);
        drop(self.cutter);
        self.report
    }
}

/// Runs one connection of a load that began at `start`. What was in flight when it broke counts as
/// faults.
pub fn work<R: Net<Stream = TcpStream> + Clock>(
    rt: &R,
    alloc: Global,
    load: Load,
    connection: u64,
    start: Instant,
    progress: &LoadProgress,
) -> Result<Report, Finish> {
    let client_options = ClientOptions {
        port: load.port,
        version: 2,
        window: load.in_flight,
        tries: 1,
        tokens: load.tokens,
    };
    let mut report = Report::new(alloc)?;
    report.resumed = load.tokens.map(|_| 0);
    report.doubled = load.has_unique_values().then_some(0);
    let token = load.tokens.map(|tokens| tokens.token(connection));
    let mut worker = Worker {
        rt,
        alloc,
        load,
        connection,
        link: Link::open(rt, alloc, client_options, token)?,
        start,
        made: 0,
        sent: VecDeque::new(alloc),
        report,
        cutter: load.drops.map(|drops| Cutter::new(drops, connection)),
    };
    let ran = worker.run(progress);
    ended(rt, start, ran, worker.into_report())
}

/// The report of a connection that ends now, unless it ended by a fault.
fn ended<R: Clock>(
    rt: &R,
    start: Instant,
    ran: Result<(), Finish>,
    mut report: Report,
) -> Result<Report, Finish> {
    match ran.and_then(|()| now(rt)) {
        Ok(time) => {
            report.milliseconds = milliseconds_between(start, time);
            Ok(report)
        }
        Err(finish) => {
            drop(report);
            Err(finish)
        }
    }
}
