//! Redis's clients that are busy, on more connections than there are processors.

use crate::checks::check;
use chord_app_serve_testkit::{SMALL, Size, Speech, WAITS, expect, look_at, stay_beside};
use log::sink::Discard;
use std::alloc::Global;
use std::io::{self, Read, Write};
use std::net::{Net, SocketAddr, TcpListener, TcpStream};
use std::test::Fail;
use std::thread::{Threads, available_parallelism};

/// A server of as many callers as clients here at most.
const CROWD: Size = Size {
    callers: 64,
    room: 10_000,
    speech: Speech::Redis,
    ..SMALL
};

/// How many clients there are: four more than processors, if the server has callers for them.
fn clients_of(rt: &impl Threads) -> u64 {
    match available_parallelism(rt) {
        Ok(processors) => (processors.get() as u64).saturating_add(4).min(64),
        Err(_) => 64,
    }
}

fn connect_all<R: Net<Listener = TcpListener, Stream = TcpStream>>(
    rt: &R,
    alloc: Global,
    redis: SocketAddr,
    clients: u64,
) -> io::Result<Vec<TcpStream>> {
    let mut streams = Vec::new(alloc);
    for _ in 0..clients {
        let stream = TcpStream::connect(rt, redis)?;
        stream.set_nodelay(true)?;
        streams.push(stream)?;
    }
    Ok(streams)
}

/// Each client sends the command, and then each is answered 0 or 1. Tells how many are answered 1.
fn ask_each(streams: &mut [TcpStream], command: &[u8]) -> io::Result<u64> {
    let mut ones = 0u64;
    for stream in streams.iter_mut() {
        stream.write_all(command)?;
    }
    for stream in streams.iter_mut() {
        let mut answer = [0u8; 4];
        stream.read_exact(&mut answer)?;
        match &answer {
            b":1\r\n" => ones = ones.saturating_add(1),
            b":0\r\n" => {}
            _ => return Err(io::Error::from(io::ErrorKind::InvalidData)),
        }
    }
    Ok(ones)
}

/// All clients add each of a hundred values at once, and ask for it. Then each asks how many there
/// are. Gives the clients that are still connected.
fn add_together<R: Net<Listener = TcpListener, Stream = TcpStream>>(
    rt: &R,
    alloc: Global,
    redis: SocketAddr,
    clients: u64,
) -> io::Result<Vec<TcpStream>> {
    let mut streams = connect_all(rt, alloc, redis, clients)?;
    for number in 0..100u64 {
        let add = format!(in alloc; "SADD k {number}\r\n")?;
        let look = format!(in alloc; "SISMEMBER k {number}\r\n")?;
        let added = ask_each(&mut streams, add.as_bytes())?;
        let found = ask_each(&mut streams, look.as_bytes())?;
        if (added, found) != (1, clients) {
            return Err(io::Error::from(io::ErrorKind::InvalidData));
        }
    }
    for stream in streams.iter_mut() {
        stream.write_all(b"SCARD k\r\n")?;
        expect(alloc, stream, b":100\r\n")?;
    }
    Ok(streams)
}

/// Each value is added once and found by each client, and the server ends while they are connected.
#[test]
fn busy_clients_are_answered(rt: HostRuntime) -> Result<(), Fail> {
    let alloc = rt.alloc();
    let clients = clients_of(&rt);
    let played = stay_beside(&rt, alloc, (CROWD, WAITS), &Discard, io::pipe(&rt)?, |at| {
        add_together(&rt, alloc, at.redis, clients)
    });
    let Some((written, told)) = played else {
        return Ok(check!(&rt; false, "there is memory"));
    };
    check!(&rt; written.written.is_ok(), "the server ends well");
    check!(&rt; told.is_ok(), "each client is answered");
    drop(written);
    drop(told);
    Ok(())
}
