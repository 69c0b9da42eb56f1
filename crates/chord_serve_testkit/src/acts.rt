//! What clients do over loopback, one act after another.

use crate::clients::{
    expect, expect_end, fault_frame, insert, leave, remove, reply_frame, request_frame, retrieve,
    session_request_frame, values_of,
};
use chord_map::{Reply, Request};
use chord_wire::{FaultCode, Opening, Token, write_close, write_closed, write_open, write_opened};
use std::alloc::{AllocError, Global};
use std::io::{self, Read, Write};
use std::net::{Net, OpenStream, Shutdown, SocketAddr, TcpStream};

/// What a request asks for.
#[derive(Clone, Copy)]
pub enum Ask {
    Insert(&'static [u8]),
    Remove(&'static [u8]),
    Retrieve,
}

impl Ask {
    fn request(self, alloc: Global) -> Result<Box<Request>, AllocError> {
        match self {
            Ask::Insert(value) => insert(alloc, value),
            Ask::Remove(value) => remove(alloc, value),
            Ask::Retrieve => retrieve(alloc),
        }
    }
}

/// What answers a request.
#[derive(Clone, Copy)]
pub enum Answer {
    Added,
    Present,
    Removed,
    Absent,
    Values(&'static [&'static [u8]]),
    Fault(FaultCode),
}

impl Answer {
    /// The frame of this answer to the request of the number.
    pub fn frame(self, alloc: Global, number: u64) -> io::Result<Vec<u8>> {
        match self {
            Answer::Added => told_frame(alloc, number, Reply::Added),
            Answer::Present => told_frame(alloc, number, Reply::Present),
            Answer::Removed => told_frame(alloc, number, Reply::Removed),
            Answer::Absent => told_frame(alloc, number, Reply::Absent),
            Answer::Values(values) => told_frame(alloc, number, values_of(alloc, values)?),
            Answer::Fault(code) => fault_frame(alloc, number, code),
        }
    }
}

/// The frame of a reply, which is dropped.
fn told_frame(alloc: Global, number: u64, reply: Reply) -> io::Result<Vec<u8>> {
    let frame = reply_frame(alloc, number, &reply);
    drop(reply);
    frame
}

/// What a client does, or expects.
#[derive(Clone, Copy)]
pub enum Act {
    Connect,
    /// It connects where Redis's clients do.
    ConnectRedis,
    /// It sends a request under this number.
    Ask(u64, Ask),
    /// It sends bytes as they are.
    Say(&'static [u8]),
    /// It expects this answer to the request of the number.
    Hear(u64, Answer),
    /// It expects bytes as they are.
    HearBytes(&'static [u8]),
    /// It sends bytes as they are, and then expects others.
    Exchange(&'static [u8], &'static [u8]),
    /// It sends a request under this number, and expects this answer.
    Call(u64, Ask, Answer),
    /// It connects and begins a session whose token has this last byte.
    Begin(u8),
    /// It connects and resumes such a session. It is told that this has such a floor, and such a
    /// last number.
    Resume(u8, u64, u64),
    /// It sends what begins a session, or resumes one, whose token has this last byte.
    Open(u8, bool),
    /// It connects and begins or resumes a session, but hears of this fault, and then the end.
    Refused(u8, bool, FaultCode),
    /// It sends a request of its session under this number, with this floor, and expects this
    /// answer.
    CallIn(u64, u64, Ask, Answer),
    /// It closes its session.
    Close,
    /// It expects to be told that its session is closed.
    Closed,
    /// It closes its sending side.
    Hush,
    /// It expects the server to close the connection.
    End,
    /// It closes its sending side, and expects the server to close the connection.
    Leave,
}

impl Act {
    /// Does the act on an open stream.
    fn on<S: Read + Write + OpenStream>(self, alloc: Global, stream: &mut S) -> io::Result<()> {
        match self {
            Act::Connect | Act::ConnectRedis => Ok(()),
            Act::Begin(last) => open(alloc, stream, last, None),
            Act::Resume(last, floor, number) => open(alloc, stream, last, Some((floor, number))),
            Act::Refused(last, resumes, code) => {
                stream.write_all(&open_frame(alloc, last, resumes)?)?;
                hear(alloc, stream, 0, Answer::Fault(code))?;
                expect_end(stream)
            }
            Act::Ask(number, ask) => send(alloc, stream, number, ask),
            Act::Say(bytes) => stream.write_all(bytes),
            Act::Hear(number, answer) => hear(alloc, stream, number, answer),
            Act::HearBytes(bytes) => expect(alloc, stream, bytes),
            Act::Exchange(sent, heard) => {
                stream.write_all(sent)?;
                expect(alloc, stream, heard)
            }
            Act::Call(number, ask, answer) => {
                send(alloc, stream, number, ask)?;
                hear(alloc, stream, number, answer)
            }
            Act::Open(last, resumes) => stream.write_all(&open_frame(alloc, last, resumes)?),
            Act::CallIn(number, floor, ask, answer) => {
                let request = ask.request(alloc)?;
                stream.write_all(&session_request_frame(alloc, number, floor, &request)?)?;
                hear(alloc, stream, number, answer)
            }
            Act::Close => stream.write_all(&write_close(alloc)?),
            Act::Closed => expect(alloc, stream, &write_closed(alloc)?),
            Act::Hush => stream.shutdown(Shutdown::Write),
            Act::End => expect_end(stream),
            Act::Leave => leave(stream),
        }
    }
}

/// The frame that begins or resumes the session whose token has this last byte.
fn open_frame(alloc: Global, last: u8, resumes: bool) -> Result<Vec<u8>, AllocError> {
    let opening = Opening {
        token: Token {
            bytes: [1, 2, 3, 4, 5, 6, 7, 8, 9, 10, 11, 12, 13, 14, 15, last],
        },
        resumes,
    };
    write_open(alloc, opening)
}

/// Begins the session whose token has this last byte, or resumes it, with this floor and this last
/// number.
fn open<S: Read + Write>(
    alloc: Global,
    stream: &mut S,
    last: u8,
    resumed: Option<(u64, u64)>,
) -> io::Result<()> {
    stream.write_all(&open_frame(alloc, last, resumed.is_some())?)?;
    let (floor, number) = resumed.unwrap_or((0, 0));
    expect(alloc, stream, &write_opened(alloc, floor, number)?)
}

fn send<S: Write>(alloc: Global, stream: &mut S, number: u64, ask: Ask) -> io::Result<()> {
    let request = ask.request(alloc)?;
    let frame = request_frame(alloc, number, &request)?;
    stream.write_all(&frame)
}

fn hear<S: Read>(alloc: Global, stream: &mut S, number: u64, answer: Answer) -> io::Result<()> {
    let wanted = answer.frame(alloc, number)?;
    expect(alloc, stream, &wanted)
}

/// Where a server listens for clients and for an operator.
#[derive(Clone, Copy)]
pub struct Addresses {
    pub frames: SocketAddr,
    pub redis: SocketAddr,
    pub operator: SocketAddr,
}

/// Acts, each with the index of its client. Clients connect in the order of their index, from 0.
pub type Acts = &'static [(usize, Act)];

/// Opens a connection, if the act begins with that.
fn connect<R: Net>(
    rt: &R,
    at: Addresses,
    streams: &mut Vec<R::Stream>,
    act: Act,
) -> io::Result<()> {
    match act {
        Act::Connect | Act::Begin(_) | Act::Resume(..) | Act::Refused(..) => {
            streams.push(TcpStream::connect(rt, at.frames)?)?;
        }
        Act::ConnectRedis => {
            streams.push(TcpStream::connect(rt, at.redis)?)?;
        }
        _ => {}
    }
    Ok(())
}

/// Does the acts in order.
pub fn do_acts_at<R: Net>(
    rt: &R,
    alloc: Global,
    at: Addresses,
    streams: &mut Vec<R::Stream>,
    acts: &[(usize, Act)],
) -> io::Result<()> {
    for (place, act) in acts {
        connect(rt, at, streams, *act)?;
        match streams.get_mut(*place) {
            Some(stream) => act.on(alloc, stream)?,
            None => return Err(io::Error::from(io::ErrorKind::NotConnected)),
        }
    }
    Ok(())
}

/// Does the acts in order, at a server that listens at one port.
pub fn do_acts<R: Net>(
    rt: &R,
    alloc: Global,
    address: SocketAddr,
    streams: &mut Vec<R::Stream>,
    acts: &[(usize, Act)],
) -> io::Result<()> {
    let at = Addresses {
        frames: address,
        redis: address,
        operator: address,
    };
    do_acts_at(rt, alloc, at, streams, acts)
}

/// What clients do before a pause, behind it, and once the server's input has ended.
#[derive(Clone, Copy)]
pub struct Script {
    pub first: Acts,
    /// How long the pause is, in milliseconds.
    pub pause: u64,
    pub then: Acts,
    pub after: Acts,
}

/// Clients that do nothing.
pub const NOTHING: Script = Script {
    first: &[],
    pause: 0,
    then: &[],
    after: &[],
};
