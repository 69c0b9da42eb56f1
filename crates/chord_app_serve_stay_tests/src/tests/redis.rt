//! Redis's clients over loopback, alone and beside clients that speak in frames.

use crate::checks::check;
use chord_app_serve_testkit::{
    Act, Acts, Answer, Ask, Ending, GOOD, NOTHING, SMALL, Script, Size, Speech, WAITS, expect,
    expect_end, follow, follow_noted, follow_to_the_end, leave, look_at, serve_beside,
};
use log::sink::{Discard, Locked};
use std::alloc::Global;
use std::io::{self, Read, Write};
use std::net::{Net, SocketAddr, TcpStream};
use std::test::Fail;
use std::thread;
use std::time::{Clock, Duration};

/// A client adds x to the set a.
const ADD: Act = Act::Exchange(b"*3\r\n$4\r\nSADD\r\n$1\r\na\r\n$1\r\nx\r\n", b":1\r\n");

/// It looks at the set.
const LOOK: Act = Act::Exchange(b"SMEMBERS a\r\nPING\r\n", b"*1\r\n$1\r\nx\r\n+PONG\r\n");

/// It asks for the number of its connection, which is 1.
const ASK_FOR_1: Act = Act::Exchange(b"CLIENT ID\r\n", b":1\r\n");

/// A client that speaks in frames retrieves a by its request 1, and is told the value x.
const RETRIEVE: Act = Act::Exchange(
    b"\x00\x00\x00\x0c\x01\x02\x00\x00\x00\x00\x00\x00\x00\x01\x01a",
    b"\x00\x00\x00\x11\x01\x82\x00\x00\x00\x00\x00\x00\x00\x01\x00\x00\x00\x01\x00\x01x",
);

/// A client removes x, looks whether a has any members, and asks for the end.
const QUIT: Act = Act::Exchange(
    b"SREM a x y\r\nEXISTS a\r\nQUIT\r\n",
    b":1\r\n:0\r\n+OK\r\n",
);

/// A server of two callers for clients of both protocols.
const BOTH: Size = Size {
    callers: 2,
    speech: Speech::Both,
    ..SMALL
};

/// Clients at both doors in turn. The input ends while one is connected.
const IN_TURN: Script = Script {
    first: &[
        (0, Act::ConnectRedis),
        (0, ADD),
        (0, LOOK),
        (1, Act::Connect),
        (1, RETRIEVE),
        (0, QUIT),
        (0, Act::End),
    ],
    after: &[(1, Act::End)],
    ..NOTHING
};

/// A client shuts the server down, whose input has not ended. The connection of another client ends
/// too.
const SHUT_DOWN: Script = Script {
    first: &[
        (0, Act::Connect),
        (0, Act::Call(1, Ask::Insert(b"x"), Answer::Added)),
        (1, Act::ConnectRedis),
        (1, ASK_FOR_1),
        (
            1,
            Act::Exchange(b"SHUTDOWN ABORT\r\n", b"-ERR No shutdown in progress.\r\n"),
        ),
        (0, Act::Call(2, Ask::Insert(b"x"), Answer::Present)),
        (
            1,
            Act::Exchange(b"PING\r\nSHUTDOWN NOSAVE\r\nPING\r\n", b"+PONG\r\n"),
        ),
        (1, Act::End),
        (0, Act::End),
    ],
    ..NOTHING
};

#[test]
fn a_client_shuts_the_server_down(rt: HostRuntime) -> Result<(), Fail> {
    let lines = "connection 1 ended\nconnection 0 ended\n";
    let pipe = io::pipe(&rt)?;
    let found = follow(&rt, rt.alloc(), (BOTH, WAITS), SHUT_DOWN, pipe, lines);
    assert!(rt; found == Some(GOOD), "{found:?}");
    Ok(())
}

/// A value that a client of one protocol adds is told to a client of the other. Connections of both
/// doors are numbered in one row.
#[test]
fn clients_of_both_protocols_ask_one_ring(rt: HostRuntime) -> Result<(), Fail> {
    let lines = "connection 0 ended\nconnection 1 ended\n";
    let server = (BOTH, WAITS);
    let found = follow(&rt, rt.alloc(), server, IN_TURN, io::pipe(&rt)?, lines);
    assert!(rt; found == Some(GOOD), "{found:?}");
    Ok(())
}

/// A client of the second door, and then one of the first, which is the last.
const ONE_AT_EACH_DOOR: Acts = &[
    (0, Act::ConnectRedis),
    (0, ADD),
    (0, LOOK),
    (0, Act::Leave),
    (1, Act::Connect),
    (1, RETRIEVE),
    (1, Act::Leave),
];

/// A server of two connections ends after one at each door, though it waits at both.
#[test]
fn connections_of_both_doors_are_counted_together(rt: HostRuntime) {
    let lines = "connection 0 ended\nconnection 1 ended\n";
    let found = follow_to_the_end(&rt, rt.alloc(), (BOTH, 2), ONE_AT_EACH_DOOR, lines);
    check!(&rt; found == Some(GOOD));
}

/// Bytes that are no command, after one that is.
const BREAK: Act = Act::Exchange(
    b"PING\r\n*x\r\nPING\r\n",
    b"+PONG\r\n-ERR Protocol error: invalid multibulk length\r\n",
);

/// A client holds the one caller while another is told that there is none. The first then sends
/// bytes that are no command.
const CROWDED: Acts = &[
    (0, Act::ConnectRedis),
    (0, ADD),
    (0, LOOK),
    (1, Act::ConnectRedis),
    (1, Act::HearBytes(b"-ERR max number of clients reached\r\n")),
    (1, Act::End),
    (0, BREAK),
    (0, Act::End),
];

/// A server of one caller for Redis's clients.
const REDIS: Size = Size {
    speech: Speech::Redis,
    ..SMALL
};

/// Redis's clients alone: one gets no caller, and one sends bytes that are no command.
#[test]
fn redis_clients_alone(rt: HostRuntime) {
    let lines = "connection 0 protocol\nconnection 1 callersspent\n";
    let found = follow_to_the_end(&rt, rt.alloc(), (REDIS, 2), CROWDED, lines);
    check!(&rt; found == Some(GOOD));
}

/// A store that is full refuses one command of a connection. The next ones are served: they read the
/// set, make room, and see that the refused command does not act.
const FULL: Script = Script {
    first: &[
        (0, Act::ConnectRedis),
        (0, ADD),
        (
            0,
            Act::Exchange(b"SADD a y\r\n", b"-OOM the node's store is full\r\n"),
        ),
        (0, LOOK),
        (
            0,
            Act::Exchange(
                b"SREM a x\r\nSMEMBERS a\r\nSADD a y\r\n",
                b":1\r\n*0\r\n:1\r\n",
            ),
        ),
        (0, Act::Leave),
    ],
    ..NOTHING
};

#[test]
fn a_full_store_refuses_one_command(rt: HostRuntime) -> Result<(), Fail> {
    let lines = "connection 0 ended\n";
    let server = (Size { room: 1, ..REDIS }, WAITS);
    let found = follow(&rt, rt.alloc(), server, FULL, io::pipe(&rt)?, lines);
    assert!(rt; found == Some(GOOD), "{found:?}");
    Ok(())
}

/// A page makes a browser write to the port.
const PAGE: Script = Script {
    first: &[
        (0, Act::ConnectRedis),
        (
            0,
            Act::Exchange(
                b"PING\r\nPOST / HTTP/1.1\r\nHost: 127.0.0.1\r\n\r\nSADD svc:web evil\r\n",
                b"+PONG\r\n",
            ),
        ),
        (0, Act::End),
    ],
    ..NOTHING
};

/// Its connection ends, and is warned of.
#[test]
fn a_page_is_warned_of(rt: HostRuntime) -> Result<(), Fail> {
    let notes = Locked::new(rt, Vec::new(rt.alloc()));
    let server = (REDIS, WAITS);
    let (pipe, lines) = (io::pipe(&rt)?, "connection 0 protocol\n");
    let found = follow_noted(&rt, rt.alloc(), server, &notes, PAGE, pipe, lines);
    check!(&rt; found == Some(GOOD));
    let noted: Vec<u8> = notes.into_inner();
    let wanted =
        "[INFO  chord] connection 0 protocol\n[WARN  chord] connection 0 sent HTTP or a byte 0 to the port of Redis's protocol: a web page may have tried to reach the store\n";
    check!(&rt; noted.as_slice() == wanted.as_bytes());
    Ok(())
}

/// How often a server that takes some connections reads each of them.
const READS: u64 = 65_536;

/// A client sends each PING once the one before it was answered, so that each is a read of its own.
/// Behind the last answer the server ends the connection.
fn pings_until_the_end<R: Net>(rt: &R, alloc: Global, redis: SocketAddr) -> io::Result<()> {
    let mut stream = TcpStream::connect(rt, redis)?;
    for _ in 0..READS {
        stream.write_all(b"PING\r\n")?;
        expect(alloc, &mut stream, b"+PONG\r\n")?;
    }
    expect_end(&mut stream)
}

#[test]
fn a_connection_ends_behind_its_last_read(rt: HostRuntime) {
    let alloc = rt.alloc();
    let ending = Ending::Connections(1);
    let played = serve_beside(&rt, alloc, REDIS, &Discard, ending, |at| {
        pings_until_the_end(&rt, alloc, at.redis)
    });
    check!(&rt; look_at(alloc, played, "connection 0 turnsspent\n") == Some(GOOD));
}

/// What INFO tells of a server of two nodes once each holds its part of the circle: a length, and
/// then this text.
const TWO_NODES_AT_REST: &[u8] =
    b"$157\r\n# Server\r\nserver:chord\r\nprotocol:2\r\n# Clients\r\nconnected_clients:1\r\n# Nodes\r\nnode0:phase=staying,pairs=0,segments=1\r\nnode1:phase=staying,pairs=0,segments=1\r\n\r\n";

/// A client asks until it is told so.
fn asks_for_info<R: Net + Clock>(rt: &R, alloc: Global, redis: SocketAddr) -> io::Result<()> {
    let mut stream = TcpStream::connect(rt, redis)?;
    let mut told = vec![in alloc; 0u8; TWO_NODES_AT_REST.len()]?;
    for _ in 0..1_000 {
        stream.write_all(b"INFO\r\n")?;
        stream.read_exact(&mut told)?;
        if told.as_slice() == TWO_NODES_AT_REST {
            return leave(&mut stream);
        }
        thread::sleep(rt, Duration::from_millis(10));
    }
    Err(io::Error::from(io::ErrorKind::InvalidData))
}

#[test]
fn info_tells_of_each_node(rt: HostRuntime) {
    let alloc = rt.alloc();
    let ending = Ending::Connections(1);
    let played = serve_beside(&rt, alloc, REDIS, &Discard, ending, |at| {
        asks_for_info(&rt, alloc, at.redis)
    });
    check!(&rt; look_at(alloc, played, "connection 0 ended\n") == Some(GOOD));
}
