//! Clients that fill an operator's port.

use crate::checks::check;
use crate::tests::calls::{STOPS, each_is_answered};
use chord_app_serve_testkit::{Addresses, GOOD, SMALL, Size, WAITS, look_at, stay_beside};
use log::sink::Discard;
use std::alloc::Global;
use std::hash::RandomState;
use std::io::{self, Read, Write};
use std::net::{Net, SocketAddr, TcpListener, TcpStream};
use std::test::Fail;
use std::time::{Clock, Duration};

/// How many clients begin a request: six more than there may be at once.
const MANY: usize = 70;

/// What an operator asks beside them.
const HEALTHY: &str = r#"
GET /health > 200 OK | \r\n\r\nok\n
GET /ready > 200 OK | \r\n\r\nok\n
"#;

/// Clients that each sent the first part of a request.
fn half_open<R: Net<Stream = TcpStream>>(
    rt: &R,
    alloc: Global,
    address: SocketAddr,
) -> io::Result<Vec<TcpStream>> {
    let mut clients = Vec::new(alloc);
    for _ in 0..MANY {
        let mut client = TcpStream::connect(rt, address)?;
        client.set_read_timeout(Some(Duration::from_secs(20)))?;
        client.write_all(b"GET /health HTTP/1.1\r\nHo")?;
        clients.push(client)?;
    }
    Ok(clients)
}

/// What clients saw whose port is full.
#[derive(Debug, Drop)]
struct Crowd {
    /// What the first client reads: the end.
    first: usize,
    /// What the last one is answered once it sends the rest.
    last: Vec<u8>,
}

/// An operator is answered while these clients are connected, of which the first was ended for
/// another, and the last goes on.
fn ask_beside_crowd<R: Net<Stream = TcpStream, Listener = TcpListener> + Clock>(
    rt: &R,
    alloc: Global,
    at: Addresses,
) -> io::Result<Crowd> {
    let mut clients = half_open(rt, alloc, at.operator)?;
    each_is_answered(rt, alloc, at.operator, HEALTHY)?;
    let port = at.operator.port();
    let rest = format!(in alloc; "st: 127.0.0.1:{port}\r\nConnection: close\r\n\r\n")?;
    let mut last = Vec::new(alloc);
    if let Some(client) = clients.last_mut() {
        client.write_all(rest.as_bytes())?;
        client.read_to_end(&mut last)?;
    }
    let first = match clients.first_mut() {
        Some(client) => client.read(&mut [0u8; 16])?,
        None => 16,
    };
    each_is_answered(rt, alloc, at.operator, STOPS)?;
    Ok(Crowd { first, last })
}

/// Whether the server ended well, and what was seen.
#[test]
fn half_open_clients_keep_nobody_waiting(rt: HostRuntime) -> Result<(), Fail> {
    let size = Size {
        operator: Some(RandomState::new(&rt)?),
        ..SMALL
    };
    let alloc = rt.alloc();
    let pipe = io::pipe(&rt)?;
    let played = stay_beside(&rt, alloc, (size, WAITS), &Discard, pipe, |at| {
        let Crowd { first, last } = ask_beside_crowd(&rt, alloc, at)?;
        if first == 0
            && last.starts_with(b"HTTP/1.1 200 OK\r\n")
            && last.ends_with(b"\r\n\r\nok\n")
        {
            Ok(())
        } else {
            Err(io::Error::from(io::ErrorKind::InvalidData))
        }
    });
    check!(&rt; look_at(alloc, played, "") == Some(GOOD));
    Ok(())
}
