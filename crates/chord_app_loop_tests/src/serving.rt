//! How connections are served, and how they end.

use crate::checks::check;
use crate::parties::{AMPLE, House, Silent, beside, connect, rules};
use chord_app_loop::{Loops, Rules};
use chord_app_sockets::{Clients, Ended};
use chord_serve::{ReadSize, Served};
use chord_serve_testkit::{expect, expect_end};
use std::alloc::Global;
use std::io::{self, Write};
use std::net::{Net, Shutdown, TcpListener, TcpStream};
use std::sync::Wait;
use std::thread::Threads;
use std::time::Clock;

/// What a client sends, whether it then ends its side, what it is answered, and how its connection
/// ends.
const ROWS: &[(&[u8], bool, &[u8], Ended)] = &[
    (b"", true, b"", Ended::Served(Served::Ended)),
    (
        b"SADD k m\r\n",
        true,
        b":1\r\n",
        Ended::Served(Served::Ended),
    ),
    (
        b"SADD k a b\r\nPING\r\n",
        true,
        b":2\r\n+PONG\r\n",
        Ended::Served(Served::Ended),
    ),
    (
        b"PING\r\nSADD k",
        true,
        b"+PONG\r\n",
        Ended::Served(Served::Truncated),
    ),
    (
        b"PING\r\nQUIT\r\nPING\r\n",
        false,
        b"+PONG\r\n+OK\r\n",
        Ended::Served(Served::Quit),
    ),
    (
        b"PING\r\n*x\r\n",
        false,
        b"+PONG\r\n-ERR Protocol error: invalid multibulk length\r\n",
        Ended::Served(Served::Protocol),
    ),
    (
        b"PING\r\nGET / HTTP/1.1\r\nHost: 127.0.0.1\r\n\r\nSADD k m\r\n",
        false,
        b"+PONG\r\n",
        Ended::Served(Served::Foreign),
    ),
    (
        b"SADD late m\r\nPING\r\n",
        true,
        b":1\r\n+PONG\r\n",
        Ended::Served(Served::Ended),
    ),
];

/// A client sends this, and expects these answers and the end.
fn visit(
    alloc: Global,
    client: TcpStream,
    bytes: &[u8],
    ends: bool,
    answers: &[u8],
) -> io::Result<()> {
    let mut client = client;
    client.write_all(bytes)?;
    if ends {
        client.shutdown(Shutdown::Write)?;
    }
    expect(alloc, &mut client, answers)?;
    expect_end(&mut client)?;
    drop(client);
    Ok(())
}

/// Whether each client of the rows is answered, and how its connection ended.
fn visit_all<R: Threads + Wait + Clock + Net<Listener = TcpListener, Stream = TcpStream> + Sync>(
    rt: &R,
    alloc: Global,
) -> io::Result<bool> {
    let (clients, source) = (Clients::new(alloc), Silent);
    let house = House::new(rt, alloc, &clients, &source, 3, AMPLE);
    let loops = Loops::open(rt, alloc, rules(10_000), 1)?;
    let visited = beside(rt, &house, &loops, || {
        for (number, (bytes, ends, answers, _)) in ROWS.iter().enumerate() {
            let client = connect(&house, &loops, number as u64)?;
            visit(alloc, client, bytes, *ends, answers)?;
        }
        Ok(())
    });
    let seen = (0..ROWS.len()).all(|number| house.end_of(number as u64) == Some(ROWS[number].3));
    drop(loops);
    drop(house);
    drop(clients);
    visited.map(|()| seen)
}

#[test]
fn each_client_is_answered_to_its_end(rt: HostRuntime) {
    check!(&rt; visit_all(&rt, rt.alloc()).is_ok_and(|seen| seen));
}

/// How a connection under these rules ends whose client sends three times PING, one behind the
/// answer to the other, and is then silent. None if an answer fails.
fn end_of_three<R: Threads + Wait + Clock + Net<Listener = TcpListener, Stream = TcpStream> + Sync>(
    rt: &R,
    alloc: Global,
    rules: Rules,
    answered: u64,
) -> io::Result<Option<Ended>> {
    let (clients, source) = (Clients::new(alloc), Silent);
    let house = House::new(rt, alloc, &clients, &source, 0, AMPLE);
    let loops = Loops::open(rt, alloc, rules, 1)?;
    let visited = beside(rt, &house, &loops, || {
        let mut client = connect(&house, &loops, 7)?;
        for _ in 0..answered {
            client.write_all(b"PING\r\n")?;
            expect(alloc, &mut client, b"+PONG\r\n")?;
        }
        expect_end(&mut client)?;
        drop(client);
        Ok(())
    });
    let end = house.end_of(7);
    drop(loops);
    drop(house);
    drop(clients);
    visited.map(|()| end)
}

/// The number of reads of a connection is limited, and how long its client may be silent.
#[test]
fn reads_and_patience_are_limited(rt: HostRuntime) {
    let few = Rules {
        read_size: ReadSize::Small,
        turns: 2,
        idle: None,
        ..rules(1_000)
    };
    let spent = end_of_three(&rt, rt.alloc(), few, 2);
    check!(&rt; spent.is_ok_and(|end| end == Some(Ended::Served(Served::TurnsSpent))));
    let short = Rules {
        idle: Some(1),
        ..rules(1_000)
    };
    let silent = end_of_three(&rt, rt.alloc(), short, 3);
    check!(&rt; silent.is_ok_and(|end| end == Some(Ended::Idle)));
}

/// Sends this many commands at once, and reads their answers behind them all.
fn pipe<R: Threads + Wait + Clock + Net<Listener = TcpListener, Stream = TcpStream> + Sync>(
    rt: &R,
    alloc: Global,
    commands: usize,
) -> io::Result<Option<Ended>> {
    let (clients, source) = (Clients::new(alloc), Silent);
    let house = House::new(rt, alloc, &clients, &source, 0, AMPLE);
    let loops = Loops::open(rt, alloc, rules(1_000), 1)?;
    let visited = beside(rt, &house, &loops, || {
        let mut client = connect(&house, &loops, 7)?;
        let (mut sent, mut answers) = (Vec::new(alloc), Vec::new(alloc));
        for _ in 0..commands {
            sent.extend_from_slice(b"SADD k m\r\n")?;
            answers.extend_from_slice(b":1\r\n")?;
        }
        sent.extend_from_slice(b"QUIT\r\n")?;
        answers.extend_from_slice(b"+OK\r\n")?;
        // What is behind QUIT is not answered, and does not take the answers away.
        sent.extend_from_slice(&[b'x'; 4_096])?;
        client.write_all(&sent)?;
        expect(alloc, &mut client, &answers)?;
        expect_end(&mut client)?;
        drop((client, sent, answers));
        Ok(())
    });
    let end = house.end_of(7);
    drop(loops);
    drop(house);
    drop(clients);
    visited.map(|()| end)
}

/// More answers than an outbox takes are all written.
#[test]
fn many_commands_at_once_are_answered(rt: HostRuntime) {
    let end = pipe(&rt, rt.alloc(), 30_000);
    check!(&rt; end.is_ok_and(|end| end == Some(Ended::Served(Served::Quit))));
}
