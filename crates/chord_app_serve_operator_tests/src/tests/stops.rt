//! A server that stays, and a client that asks for much and does not read: the server is stopped,
//! or it leaves the client, which was idle for too long.

use crate::checks::check;
use crate::tests::calls::each_is_answered;
use chord_app_serve_testkit::{
    Addresses, GOOD, SMALL, Size, WAITS, expect, fill, look_at, request_frame, retrieve,
    stay_beside,
};
use chord_app_sockets::ClientLimits;
use log::sink::Discard;
use std::alloc::Global;
use std::hash::RandomState;
use std::io::{self, Write};
use std::net::{Net, SocketAddr, TcpStream};
use std::test::Fail;
use std::time::Clock;

/// Asks 224 times for all 32 values, in one write of 4,032 bytes, which the server reads at once.
/// The answers have 28 MiB together, which is more than a connection can hold.
fn ask_for_all<S: Write>(alloc: Global, stream: &mut S) -> io::Result<()> {
    let request = retrieve(alloc)?;
    let mut frames = Vec::new(alloc);
    for number in 33..257u64 {
        let frame = request_frame(alloc, number, &request)?;
        frames.extend_from_slice(&frame)?;
    }
    stream.write_all(&frames)
}

/// The length of an answer: 14 bytes, and 4,098 for each value.
const LENGTH: &[u8] = b"\x00\x02\x00\x4e";

/// Reads only the beginning of the first long answer. Gives the open connection.
fn reads_no_more<R: Net>(rt: &R, alloc: Global, address: SocketAddr) -> io::Result<R::Stream> {
    let mut stream = TcpStream::connect(rt, address)?;
    fill(alloc, &mut stream)?;
    ask_for_all(alloc, &mut stream)?;
    expect(alloc, &mut stream, LENGTH)?;
    Ok(stream)
}

/// A server whose stores have room for what its client adds.
const ROOMY: Size = Size {
    room: 1_000,
    ..SMALL
};

/// The server waits a second for the client, which is far less than the client may be idle. It ends
/// while the connection is open, and writes that it could not write to it.
#[test]
fn a_client_that_does_not_read_is_left(rt: HostRuntime) -> Result<(), Fail> {
    let alloc = rt.alloc();
    let pipe = io::pipe(&rt)?;
    let played = stay_beside(&rt, alloc, (ROOMY, WAITS), &Discard, pipe, |at| {
        reads_no_more(&rt, alloc, at.frames)
    });
    check!(&rt; look_at(alloc, played, "connection 0 write\n") == Some(GOOD));
    Ok(())
}

/// One connection was ended since its client was idle, and none is open.
const ONE_WAS_IDLE: &str = r#"
GET /metrics > 200 OK | chord_connections_total{result="idle"} 1\n
GET /metrics > 200 OK | chord_connections 0\n
"#;

/// A client does not read until an operator sees that the server ended its connection. Gives the
/// connection, which is open at the client's side.
fn is_left<R: Net + Clock>(rt: &R, alloc: Global, at: Addresses) -> io::Result<R::Stream> {
    let stream = reads_no_more(rt, alloc, at.frames)?;
    each_is_answered(rt, alloc, at.operator, ONE_WAS_IDLE)?;
    Ok(stream)
}

/// A client that takes no byte of its answers for a second is idle, though the server has read its
/// requests.
#[test]
fn a_client_that_does_not_read_is_idle(rt: HostRuntime) -> Result<(), Fail> {
    let seconds = ClientLimits { idle: 1, ..WAITS };
    let size = Size {
        operator: Some(RandomState::new(&rt)?),
        ..ROOMY
    };
    let alloc = rt.alloc();
    let pipe = io::pipe(&rt)?;
    let played = stay_beside(&rt, alloc, (size, seconds), &Discard, pipe, |at| {
        is_left(&rt, alloc, at)
    });
    check!(&rt; look_at(alloc, played, "connection 0 idle\n") == Some(GOOD));
    Ok(())
}
