//! Sessions without a connection whose kept answers are too many.

use crate::checks::check;
use chord_app_serve_testkit::{
    Act, GOOD, SMALL, Size, WAITS, do_acts, fill, leave, look_at, stay_beside,
};
use chord_wire::FaultCode;
use log::sink::Discard;
use std::alloc::{AllocError, Global};
use std::io::{self, Read, Write};
use std::net::{Net, SocketAddr, TcpStream};
use std::test::Fail;

/// How many sessions keep 16 answers each, of 32 values of 4,096 bytes. Those of all have
/// 67,150,848 bytes, which is more than 64 MiB, and those of all but one have less.
const SESSIONS: u8 = 32;

/// How many bytes such an answer has: 4 of its length, 14 before the values, and 4,098 of each.
const ANSWER_BYTES: usize = 131_154;

/// The length of such an answer.
const LENGTH: &[u8] = b"\x00\x02\x00\x4e";

/// The frame of the request of this number, with floor 0, that retrieves the set of `abc`.
fn retrieve_frame(number: u8) -> [u8; 26] {
    [
        0, 0, 0, 22, 2, 2, 0, 0, 0, 0, 0, 0, 0, number, 0, 0, 0, 0, 0, 0, 0, 0, 3, b'a', b'b', b'c',
    ]
}

/// Asks 16 times for all values.
fn asks_16_times<S: Read + Write>(alloc: Global, stream: &mut S) -> io::Result<()> {
    let mut answer = vec![in alloc; 0u8; ANSWER_BYTES]?;
    for number in 1..17u8 {
        stream.write_all(&retrieve_frame(number))?;
        stream.read_exact(&mut answer)?;
        if !answer.starts_with(LENGTH) {
            return Err(io::Error::from(io::ErrorKind::InvalidData));
        }
    }
    Ok(())
}

/// A client begins the session of this token, asks in it, and loses its connection.
fn keeps_16_answers<R: Net>(
    rt: &R,
    alloc: Global,
    address: SocketAddr,
    token: u8,
) -> io::Result<()> {
    let mut streams = Vec::new(alloc);
    do_acts(rt, alloc, address, &mut streams, &[(0, Act::Begin(token))])?;
    match streams.first_mut() {
        Some(stream) => {
            asks_16_times(alloc, stream)?;
            leave(stream)
        }
        None => Err(io::Error::from(io::ErrorKind::NotConnected)),
    }
}

/// All sessions lose their connections, one after another. The first was dropped then, and the
/// second is kept.
fn keep_too_much<R: Net>(rt: &R, alloc: Global, address: SocketAddr) -> io::Result<()> {
    let mut first = TcpStream::connect(rt, address)?;
    fill(alloc, &mut first)?;
    leave(&mut first)?;
    drop(first);
    for token in 1..SESSIONS + 1 {
        keeps_16_answers(rt, alloc, address, token)?;
    }
    let acts = [
        (0, Act::Refused(1, true, FaultCode::NoSession)),
        (1, Act::Resume(2, 0, 16)),
        (1, Act::Close),
        (1, Act::Closed),
        (1, Act::End),
    ];
    do_acts(rt, alloc, address, &mut Vec::new(alloc), &acts)
}

/// The line for each connection.
fn lines(alloc: Global) -> Result<String, AllocError> {
    let mut lines = String::new(alloc);
    for number in 0..35u32 {
        let end = if number == 33 {
            "malformed 14"
        } else {
            "ended"
        };
        let line = format!(in alloc; "connection {number} {end}\n")?;
        lines.push_str(&line)?;
    }
    Ok(lines)
}

/// Above 64 MiB of kept answers the oldest session is dropped, though its caller is not needed.
#[test]
fn the_oldest_session_goes_for_its_memory(rt: HostRuntime) -> Result<(), Fail> {
    let alloc = rt.alloc();
    let lines = lines(alloc)?;
    let size = Size {
        callers: 64,
        room: 1_000,
        ..SMALL
    };
    let pipe = io::pipe(&rt)?;
    let played = stay_beside(&rt, alloc, (size, WAITS), &Discard, pipe, |at| {
        keep_too_much(&rt, alloc, at.frames)
    });
    check!(&rt; look_at(alloc, played, lines.as_str()) == Some(GOOD));
    drop(lines);
    Ok(())
}
