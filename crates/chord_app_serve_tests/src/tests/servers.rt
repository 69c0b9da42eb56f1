//! The command `serve --connections` over loopback.

use crate::checks::check;
use chord_app_serve_testkit::{
    Act, Acts, Addresses, Answer, Ask, Ending, Found, GOOD, Handle, SMALL, Size, Written,
    all_bound, ask, bound, changed, do_acts, end_waiting, expect, expect_end, fill, insert, leave,
    look_at, plan_of, plan_with, reply_frame, request_frame, retrieve, serve_at,
};
use chord_app_sockets::listen;
use chord_app_text::{Fault, Finish};
use chord_map::{Bytes, Reply, Request, Values};
use chord_wire::FaultCode;
use log::Log;
use log::sink::{Discard, Locked};
use std::alloc::{AllocError, Global};
use std::fmt::Write as _;
use std::io::{self, Read, Write};
use std::net::{Net, OpenStream, SocketAddr, TcpListener, TcpStream};
use std::thread;

/// Request 1, which inserts `x` under `a`.
const INSERT_A: &[u8] = b"\x00\x00\x00\x0f\x01\x01\x00\x00\x00\x00\x00\x00\x00\x01\x01a\x00\x01x";

/// What it is told that adds the value.
const ADDED: &[u8] = b"\x00\x00\x00\x0b\x01\x81\x00\x00\x00\x00\x00\x00\x00\x01\x01";

/// What it is told that finds the value there.
const PRESENT: &[u8] = b"\x00\x00\x00\x0b\x01\x81\x00\x00\x00\x00\x00\x00\x00\x01\x00";

/// What it is told that finds the store full: fault 10.
const FULL: &[u8] = b"\x00\x00\x00\x0b\x01\xff\x00\x00\x00\x00\x00\x00\x00\x01\x0a";

/// Four clients, one after another. The first three close their sending side before they read and
/// are answered all the same. No caller is left for the fourth, which is told so.
const FOUR: Acts = &[
    (0, Act::Connect),
    (0, Act::Say(INSERT_A)),
    (0, Act::Hush),
    (0, Act::HearBytes(ADDED)),
    (0, Act::End),
    (1, Act::Connect),
    (1, Act::Say(b"abc")),
    (1, Act::Leave),
    (2, Act::Connect),
    (2, Act::Say(b"\x00\x00\x00\x00")),
    (2, Act::Hush),
    (2, Act::Hear(0, Answer::Fault(FaultCode::BadLength))),
    (2, Act::End),
    (3, Act::Connect),
    (3, Act::Hear(0, Answer::Fault(FaultCode::CallersSpent))),
    (3, Act::End),
];

/// A server of one caller whose stores have room for what many clients add.
const ROOMY: Size = Size {
    room: 1_000,
    ..SMALL
};

/// What the clients of a server do.
#[derive(Clone, Copy)]
pub enum Clients {
    Acting(Acts),
    SixtyFour,
    NeverReads,
    Resets,
}

impl Clients {
    /// Does it, and then ends a server that still waits for clients, of which it takes this many.
    fn play<R: Net<Stream = TcpStream>>(
        self,
        rt: &R,
        alloc: Global,
        at: Addresses,
        connections: usize,
    ) -> io::Result<()> {
        let played = match self {
            Clients::Acting(acts) => do_acts(rt, alloc, at.frames, &mut Vec::new(alloc), acts),
            Clients::SixtyFour => many_clients(rt, alloc, at.frames, 64),
            Clients::NeverReads => never_reads(rt, alloc, at.frames),
            Clients::Resets => resets(rt, alloc, at.frames),
        };
        end_waiting(rt, at, connections);
        played
    }
}

/// What a test finds at a server of this size that ends after `connections` connections of these
/// clients. `lines` are those that it must write.
fn served_by<R: Handle + Net<Listener = TcpListener, Stream = TcpStream>, L: Log + Sync>(
    rt: &R,
    alloc: Global,
    (size, connections): (Size, usize),
    notes: &L,
    clients: Clients,
    lines: &str,
) -> Option<Found> {
    let plan = plan_with(alloc, size.callers)?;
    let (listeners, at) = all_bound(rt)?;
    let ending = Ending::Connections(connections);
    let (written, told) = thread::join(
        rt,
        || serve_at(rt, alloc, &plan, size, listeners, ending, notes),
        || clients.play(rt, alloc, at, connections),
    );
    drop(plan);
    look_at(alloc, Some((Written::of(size, at, written), told)), lines)
}

/// The same of a roomy server with `callers` callers.
pub fn served<R: Handle + Net<Listener = TcpListener, Stream = TcpStream>, L: Log + Sync>(
    rt: &R,
    alloc: Global,
    (callers, connections): (u64, usize),
    notes: &L,
    clients: Clients,
    lines: &str,
) -> Option<Found> {
    let size = Size { callers, ..ROOMY };
    served_by(rt, alloc, (size, connections), notes, clients, lines)
}

/// Checks the lines that are logged, too.
#[test]
fn loopback_server(rt: HostRuntime) {
    let alloc = rt.alloc();
    let notes = Locked::new(rt, Vec::new(alloc));
    let wanted =
        "connection 0 ended\nconnection 1 truncated\nconnection 2 malformed 1\nconnection 3 callersspent\n";
    let found = served(&rt, alloc, (3, 4), &notes, Clients::Acting(FOUR), wanted);
    check!(&rt; found == Some(GOOD));
    let noted: Vec<u8> = notes.into_inner();
    let wanted =
        "[INFO  chord] connection 0 ended\n[INFO  chord] connection 1 truncated\n[INFO  chord] connection 2 malformed 1\n[INFO  chord] connection 3 callersspent\n";
    check!(&rt; noted.as_slice() == wanted.as_bytes());
}

/// Refused bytes, another version, half of a frame, a client that never reads, and one that resets
/// its connection.
#[test]
fn faulty_clients(rt: HostRuntime) {
    for (counts, clients, wanted) in [
        (
            (8, 8),
            Clients::Acting(HOSTILE),
            "connection 0 ended\nconnection 1 malformed 1\nconnection 2 malformed 2\nconnection 3 malformed 3\nconnection 4 malformed 12\nconnection 5 malformed 4\nconnection 6 malformed 5\nconnection 7 malformed 6\n",
        ),
        (
            (1, 1),
            Clients::Acting(TWO_VERSIONS),
            "connection 0 malformed 2\n",
        ),
        (
            (2, 2),
            Clients::Acting(HALF_A_FRAME),
            "connection 0 truncated\nconnection 1 ended\n",
        ),
        (
            (2, 2),
            Clients::NeverReads,
            "connection 0 write\nconnection 1 ended\n",
        ),
        (
            (2, 2),
            Clients::Resets,
            "connection 0 read\nconnection 1 ended\n",
        ),
    ] {
        let found = served(&rt, rt.alloc(), counts, &Discard, clients, wanted);
        check!(&rt; found == Some(GOOD), wanted);
    }
}

/// One client is served while others, one after another, send frames that are refused.
const HOSTILE: Acts = &[
    (0, Act::Connect),
    (0, Act::Call(1, Ask::Insert(b"x"), Answer::Added)),
    (1, Act::Connect),
    (1, Act::Say(b"\x00\x00\x00\x0b")),
    (1, Act::Hear(0, Answer::Fault(FaultCode::BadLength))),
    (1, Act::End),
    (2, Act::Connect),
    (
        2,
        Act::Say(b"\x00\x00\x00\x0c\x03\x02\x00\x00\x00\x00\x00\x00\x00\x01\x01a"),
    ),
    (2, Act::Hear(0, Answer::Fault(FaultCode::BadVersion))),
    (2, Act::End),
    (3, Act::Connect),
    (
        3,
        Act::Say(b"\x00\x00\x00\x0c\x01\x04\x00\x00\x00\x00\x00\x00\x00\x01\x01a"),
    ),
    (3, Act::Hear(0, Answer::Fault(FaultCode::BadOperation))),
    (3, Act::End),
    (4, Act::Connect),
    (
        4,
        Act::Say(
            b"\x00\x00\x00\x14\x02\x02\x00\x00\x00\x00\x00\x00\x00\x01\x00\x00\x00\x00\x00\x00\x00\x01\x01a",
        ),
    ),
    (4, Act::Hear(1, Answer::Fault(FaultCode::BadFloor))),
    (4, Act::End),
    (5, Act::Connect),
    (
        5,
        Act::Say(b"\x00\x00\x00\x0c\x01\x02\x00\x00\x00\x00\x00\x00\x00\x01\x00a"),
    ),
    (5, Act::Hear(1, Answer::Fault(FaultCode::BadKey))),
    (5, Act::End),
    (6, Act::Connect),
    (
        6,
        Act::Say(b"\x00\x00\x00\x0c\x01\x01\x00\x00\x00\x00\x00\x00\x00\x01\x01a"),
    ),
    (6, Act::Hear(1, Answer::Fault(FaultCode::BadValue))),
    (6, Act::End),
    (7, Act::Connect),
    (
        7,
        Act::Say(b"\x00\x00\x00\x0d\x01\x02\x00\x00\x00\x00\x00\x00\x00\x01\x01aa"),
    ),
    (7, Act::Hear(1, Answer::Fault(FaultCode::Trailing))),
    (7, Act::End),
    (0, Act::Call(2, Ask::Insert(b"x"), Answer::Present)),
    (0, Act::Leave),
];

/// A client changes the version: its request 2, with floor 1, retrieves the set of `a`.
const TWO_VERSIONS: Acts = &[
    (0, Act::Connect),
    (0, Act::Call(1, Ask::Insert(b"x"), Answer::Added)),
    (
        0,
        Act::Say(
            b"\x00\x00\x00\x14\x02\x02\x00\x00\x00\x00\x00\x00\x00\x02\x00\x00\x00\x00\x00\x00\x00\x01\x01a",
        ),
    ),
    (0, Act::Hear(0, Answer::Fault(FaultCode::BadVersion))),
    (0, Act::End),
];

/// A number as two digits.
fn two_digits(alloc: Global, number: u64) -> Result<String, AllocError> {
    format!(in alloc; "{number:02}")
}

/// A reply of `count` values of two digits, from 00 on.
fn values(alloc: Global, count: u64) -> Result<Reply, AllocError> {
    let mut values = Values::new(alloc);
    for number in 0..count {
        let text = two_digits(alloc, number)?;
        values.push(Bytes::from_slice(alloc, text.as_bytes())?)?;
    }
    Ok(Reply::Values(values.share()?))
}

/// The frame of request 1, which inserts this number as a value.
fn insert_frame(alloc: Global, number: u64) -> io::Result<Vec<u8>> {
    let text = two_digits(alloc, number)?;
    let request = insert(alloc, text.as_bytes());
    drop(text);
    request_frame(alloc, 1, &*request?)
}

/// A connection over which request 1 was sent, to insert this number.
fn open_connection<R: Net>(
    rt: &R,
    alloc: Global,
    address: SocketAddr,
    number: u64,
) -> io::Result<R::Stream> {
    let frame = insert_frame(alloc, number)?;
    let mut stream = TcpStream::connect(rt, address)?;
    let sent = stream.write_all(&frame);
    drop(frame);
    sent?;
    Ok(stream)
}

/// Expects these bytes on each connection.
fn each_hears<S: Read>(alloc: Global, streams: &mut [S], wanted: &[u8]) -> io::Result<()> {
    for stream in streams.iter_mut() {
        expect(alloc, stream, wanted)?;
    }
    Ok(())
}

/// Sends request 2 on each connection, expects this reply, and leaves.
fn each_sees<S: Read + Write + OpenStream>(
    alloc: Global,
    streams: &mut [S],
    request: &Request,
    reply: &Reply,
) -> io::Result<()> {
    for stream in streams.iter_mut() {
        ask(alloc, stream, 2, request, reply)?;
        leave(stream)?;
    }
    Ok(())
}

/// Expects Added on each connection, and then all values.
fn add_and_see<S: Read + Write + OpenStream>(alloc: Global, streams: &mut [S]) -> io::Result<()> {
    let added = Answer::Added.frame(alloc, 1)?;
    each_hears(alloc, streams, &added)?;
    drop(added);
    let request = retrieve(alloc)?;
    let all = values(alloc, streams.len() as u64)?;
    let seen = each_sees(alloc, streams, &request, &all);
    drop(all);
    seen
}

/// Opens `count` connections at once, and uses all of them.
fn many_clients<R: Net>(rt: &R, alloc: Global, address: SocketAddr, count: u64) -> io::Result<()> {
    let mut streams = Vec::new(alloc);
    for number in 0..count {
        streams.push(open_connection(rt, alloc, address, number)?)?;
    }
    add_and_see(alloc, &mut streams)
}

/// The lines of 64 connections that end in the order of their numbers.
fn sixty_four_ends(alloc: Global) -> Option<String> {
    let mut ends = String::new(alloc);
    for number in 0..64u32 {
        writeln!(ends, "connection {number} ended").ok()?;
    }
    Some(ends)
}

#[test]
fn sixty_four_at_once(rt: HostRuntime) {
    let ends = sixty_four_ends(rt.alloc()).expect(&rt, "memory for 64 lines");
    let found = served(
        &rt,
        rt.alloc(),
        (64, 64),
        &Discard,
        Clients::SixtyFour,
        ends.as_str(),
    );
    check!(&rt; found == Some(GOOD));
}

/// A client sends half of a frame that inserts `x` under `abc`, and another client is served
/// meanwhile.
const HALF_A_FRAME: Acts = &[
    (0, Act::Connect),
    (0, Act::Say(b"\x00\x00\x00\x11\x01\x01\x00\x00\x00\x00")),
    (1, Act::Connect),
    (1, Act::Call(1, Ask::Insert(b"x"), Answer::Added)),
    (1, Act::Leave),
    (0, Act::Leave),
];

/// A client that is served.
const ANOTHER: Acts = &[
    (0, Act::Connect),
    (0, Act::Call(1, Ask::Remove(b"x"), Answer::Absent)),
    (0, Act::Leave),
];

/// A client sends 4,096 retrieves of 128 KiB each and never reads. Another one is served.
fn never_reads<R: Net>(rt: &R, alloc: Global, address: SocketAddr) -> io::Result<()> {
    let mut greedy = TcpStream::connect(rt, address)?;
    fill(alloc, &mut greedy)?;
    let request = retrieve(alloc)?;
    for number in 33..4_129u64 {
        greedy.write_all(&request_frame(alloc, number, &request)?)?;
    }
    do_acts(rt, alloc, address, &mut Vec::new(alloc), ANOTHER)
}

/// A client that sends the same request as another one before it.
const THE_SAME: Acts = &[
    (0, Act::Connect),
    (0, Act::Exchange(INSERT_A, PRESENT)),
    (0, Act::Leave),
];

/// A client reads the length of an answer, and closes its connection while the rest of it is
/// unread: that resets the connection. Another client is served.
fn resets<R: Net>(rt: &R, alloc: Global, address: SocketAddr) -> io::Result<()> {
    let mut hasty = TcpStream::connect(rt, address)?;
    hasty.write_all(INSERT_A)?;
    expect(alloc, &mut hasty, b"\x00\x00\x00\x0b")?;
    drop(hasty);
    do_acts(rt, alloc, address, &mut Vec::new(alloc), THE_SAME)
}

/// A client inserts over stores without room, and sends the same again.
const TWICE_FULL: Acts = &[
    (0, Act::Connect),
    (0, Act::Exchange(INSERT_A, FULL)),
    (0, Act::Exchange(INSERT_A, FULL)),
    (0, Act::Leave),
];

#[test]
fn a_full_store_is_told_by_fault_10(rt: HostRuntime) {
    let size = Size { room: 0, ..SMALL };
    let clients = Clients::Acting(TWICE_FULL);
    let lines = "connection 0 ended\n";
    let found = served_by(&rt, rt.alloc(), (size, 1), &Discard, clients, lines);
    check!(&rt; found == Some(GOOD));
}

/// How many values of 4,096 bytes are put under one key.
const LONG_VALUES: u8 = 32;

/// A reply of all these values.
fn long_values(alloc: Global) -> Result<Reply, AllocError> {
    let mut values = Values::new(alloc);
    for number in 0..LONG_VALUES {
        let value = vec![in alloc; number; 4_096]?;
        values.push(Bytes::from_vec(value))?;
    }
    Ok(Reply::Values(values.share()?))
}

/// Sends requests that insert 32 values of 4,096 bytes, and two that retrieve them all; then a
/// length that is refused, and 64 KiB behind it.
fn say_too_much<S: Write>(alloc: Global, stream: &mut S) -> io::Result<()> {
    for number in 0..LONG_VALUES {
        let value = vec![in alloc; number; 4_096]?;
        let request = insert(alloc, &value)?;
        stream.write_all(&request_frame(alloc, number as u64 + 1, &request)?)?;
    }
    let request = retrieve(alloc)?;
    stream.write_all(&request_frame(alloc, 33, &request)?)?;
    stream.write_all(&request_frame(alloc, 34, &request)?)?;
    stream.write_all(&[0u8; 65_536])
}

/// Expects the answers to these requests, the fault of the length, and the end.
fn hears_all<S: Read>(alloc: Global, stream: &mut S) -> io::Result<()> {
    for number in 0..LONG_VALUES {
        expect_frame(alloc, stream, Answer::Added.frame(alloc, number as u64 + 1))?;
    }
    let all = long_values(alloc)?;
    expect_frame(alloc, stream, reply_frame(alloc, 33, &all))?;
    expect_frame(alloc, stream, reply_frame(alloc, 34, &all))?;
    drop(all);
    let fault = Answer::Fault(FaultCode::BadLength).frame(alloc, 0);
    expect_frame(alloc, stream, fault)?;
    expect_end(stream)
}

/// Expects this frame next, if it was made.
fn expect_frame<S: Read>(
    alloc: Global,
    stream: &mut S,
    frame: io::Result<Vec<u8>>,
) -> io::Result<()> {
    let frame = frame?;
    let heard = expect(alloc, stream, &frame);
    drop(frame);
    heard
}

/// Checks that a client which reads only once its server is done has lost nothing that the server
/// wrote before it refused a frame.
fn keeps_answers<R: Handle + Net<Listener = TcpListener, Stream = TcpStream>>(
    rt: &R,
    alloc: Global,
) -> Option<Found> {
    let plan = plan_with(alloc, 1)?;
    let (listeners, at) = all_bound(rt)?;
    let mut client = TcpStream::connect(rt, at.frames).ok()?;
    let said = say_too_much(alloc, &mut client);
    let ending = Ending::Connections(1);
    let written = serve_at(rt, alloc, &plan, ROOMY, listeners, ending, &Discard);
    let heard = hears_all(alloc, &mut client);
    drop(plan);
    let written = Written::of(ROOMY, at, written);
    let found = Found {
        is_answered: said.is_ok() && heard.is_ok(),
        is_written: written.has(alloc, "connection 0 malformed 1\n"),
    };
    drop(written);
    Some(found)
}

#[test]
fn answers_before_a_refused_frame(rt: HostRuntime) {
    check!(&rt; keeps_answers(&rt, rt.alloc()) == Some(GOOD));
}

/// Why a plan is not served whose second node the ring refuses.
fn not_served<R: Handle + Net<Listener = TcpListener, Stream = TcpStream>>(
    rt: &R,
    alloc: Global,
) -> Option<Finish> {
    let twice = changed(alloc, "id = \"c0", "id = \"40").ok()?;
    let plan = plan_of(alloc, twice.as_str());
    drop(twice);
    let plan = plan?;
    let (listeners, _) = all_bound(rt)?;
    let ending = Ending::Connections(1);
    let fault = serve_at(rt, alloc, &plan, ROOMY, listeners, ending, &Discard).err();
    drop(plan);
    fault
}

/// A node that the ring refuses ends the command before it listens.
#[test]
fn served_refused_node(rt: HostRuntime) {
    let fault = Finish::Fault(Fault::SameId {
        number: 1,
        first: 0,
    });
    check!(&rt; not_served(&rt, rt.alloc()) == Some(fault));
}

/// Whether listening at a taken port says so, and succeeds once the port is free.
fn listens<R: Net<Listener = TcpListener, Stream = TcpStream>>(rt: &R) -> Option<(bool, bool)> {
    let (listener, address) = bound(rt)?;
    let port = address.port();
    let refused = listen(rt, port).err();
    drop(listener);
    let reason = io::ErrorKind::AddrInUse;
    let taken = Finish::Fault(Fault::Listen { port, reason });
    Some((refused? == taken, listen(rt, port).is_ok()))
}

#[test]
fn a_port_that_is_taken(rt: HostRuntime) {
    check!(&rt; listens(&rt) == Some((true, true)));
}

/// Whether the system picks a port.
fn picks_a_port<R: Net<Listener = TcpListener, Stream = TcpStream>>(rt: &R) -> Option<bool> {
    let listener = listen(rt, 0).ok()?;
    let port = listener.local_addr().ok()?.port();
    drop(listener);
    Some(port != 0)
}

#[test]
fn the_system_picks_a_port(rt: HostRuntime) {
    check!(&rt; picks_a_port(&rt) == Some(true));
}
