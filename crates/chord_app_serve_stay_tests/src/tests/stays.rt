//! The command `serve --stay` over loopback.

use crate::checks::check;
use chord_app_plan::Plan;
use chord_app_serve::stay;
use chord_app_serve_testkit::{
    Act, Answer, Ask, GOOD, Handle, NOTHING, SMALL, Script, Size, WAITS, bound, follow,
    follow_noted, leave, plan_with, two_stores,
};
use chord_app_sockets::{ClientLimits, Doors, Host, ServerSetup};
use chord_app_text::Finish;
use chord_wire::FaultCode;
use log::Log;
use log::sink::{Discard, Locked};
use std::alloc::Global;
use std::io::{self, PipeReader, PipeWriter, Write};
use std::net::{Net, SocketAddr, TcpListener, TcpStream};
use std::test::Fail;
use std::thread;

/// Serves until the input ends, over two stores with room for `limit` pairs.
pub fn stay_over<'a, R: Host, L: Log + Sync, W: Write + Send + Drop>(
    rt: &R,
    alloc: Global,
    plan: &'a Plan,
    doors: Doors<'a>,
    limit: u64,
    seconds: ClientLimits,
    input: PipeReader,
    notes: &'a L,
    writer: W,
) -> Result<(), Finish> {
    let stores = two_stores(alloc, limit)?;
    let setup = ServerSetup {
        alloc,
        plan,
        settings: plan.settings,
        doors,
        operator: None,
        journal: None,
        notes,
    };
    stay(rt, &setup, stores, seconds, Some(input), writer)?;
    Ok(())
}

/// Four clients, one after another, each with numbers from 1 on. The first adds a value twice, the
/// second retrieves it and skips a number, the third removes it, twice under one number. The fourth
/// is there when the input ends.
const IN_TURN: Script = Script {
    first: &[
        (0, Act::Connect),
        (0, Act::Call(1, Ask::Insert(b"x"), Answer::Added)),
        (0, Act::Call(2, Ask::Insert(b"x"), Answer::Present)),
        (0, Act::Leave),
        (1, Act::Connect),
        (1, Act::Call(1, Ask::Retrieve, Answer::Values(&[b"x"]))),
        (
            1,
            Act::Call(3, Ask::Insert(b"x"), Answer::Fault(FaultCode::BadNumber)),
        ),
        (1, Act::Leave),
        (2, Act::Connect),
        (2, Act::Call(1, Ask::Remove(b"x"), Answer::Removed)),
        (2, Act::Call(1, Ask::Remove(b"x"), Answer::Removed)),
        (2, Act::Leave),
        (3, Act::Connect),
        (3, Act::Call(1, Ask::Remove(b"x"), Answer::Absent)),
    ],
    after: &[(3, Act::End)],
    ..NOTHING
};

/// One caller serves all connections in order. The one that is open at the end is closed.
#[test]
fn one_caller_for_all(rt: HostRuntime) -> Result<(), Fail> {
    let wanted = "connection 0 ended\nconnection 1 ended\nconnection 2 ended\nconnection 3 ended\n";
    let server = (SMALL, WAITS);
    let found = follow(&rt, rt.alloc(), server, IN_TURN, io::pipe(&rt)?, wanted);
    assert!(rt; found == Some(GOOD), "{found:?}");
    Ok(())
}

/// While the one caller serves, another client is told that none is left. Afterwards the caller
/// serves the next one.
const CROWDED: Script = Script {
    first: &[
        (0, Act::Connect),
        (0, Act::Call(1, Ask::Insert(b"x"), Answer::Added)),
        (1, Act::Connect),
        (1, Act::Hear(0, Answer::Fault(FaultCode::CallersSpent))),
        (1, Act::End),
        (0, Act::Leave),
        (2, Act::Connect),
        (2, Act::Call(1, Ask::Insert(b"x"), Answer::Present)),
        (2, Act::Leave),
    ],
    ..NOTHING
};

/// Connections are written and logged in the order in which they end.
#[test]
fn a_caller_that_is_taken(rt: HostRuntime) -> Result<(), Fail> {
    let notes = Locked::new(rt, Vec::new(rt.alloc()));
    let wanted = "connection 1 callersspent\nconnection 0 ended\nconnection 2 ended\n";
    let pipe = io::pipe(&rt)?;
    let server = (SMALL, WAITS);
    let found = follow_noted(&rt, rt.alloc(), server, &notes, CROWDED, pipe, wanted);
    check!(&rt; found == Some(GOOD));
    let noted: Vec<u8> = notes.into_inner();
    let wanted =
        "[INFO  chord] connection 1 callersspent\n[INFO  chord] connection 0 ended\n[INFO  chord] connection 2 ended\n";
    check!(&rt; noted.as_slice() == wanted.as_bytes());
    Ok(())
}

/// A client leaves with a request that found the store full. Its caller, the only one, serves the
/// next client at once. That one finds the store full too, makes room over the same connection, and
/// sees that neither request acted.
const FULL_AND_AGAIN: Script = Script {
    first: &[
        (0, Act::Connect),
        (0, Act::Call(1, Ask::Insert(b"x"), Answer::Added)),
        (
            0,
            Act::Call(2, Ask::Insert(b"y"), Answer::Fault(FaultCode::Full)),
        ),
        (0, Act::Leave),
        (1, Act::Connect),
        (1, Act::Call(1, Ask::Insert(b"x"), Answer::Present)),
        (
            1,
            Act::Call(2, Ask::Insert(b"z"), Answer::Fault(FaultCode::Full)),
        ),
        (1, Act::Call(3, Ask::Remove(b"x"), Answer::Removed)),
        (1, Act::Call(4, Ask::Retrieve, Answer::Values(&[]))),
        (1, Act::Call(5, Ask::Insert(b"z"), Answer::Added)),
        (1, Act::Leave),
    ],
    ..NOTHING
};

/// A request that got no reply keeps neither its caller nor its connection.
#[test]
fn a_request_is_given_up(rt: HostRuntime) -> Result<(), Fail> {
    let wanted = "connection 0 ended\nconnection 1 ended\n";
    let size = Size { room: 1, ..SMALL };
    let server = (size, WAITS);
    let found = follow(
        &rt,
        rt.alloc(),
        server,
        FULL_AND_AGAIN,
        io::pipe(&rt)?,
        wanted,
    );
    assert!(rt; found == Some(GOOD), "{found:?}");
    Ok(())
}

/// A client asks once, and then sends nothing until the server ends its connection. Its caller
/// serves the next client.
const ONE_IS_IDLE: Script = Script {
    first: &[
        (0, Act::Connect),
        (0, Act::Call(1, Ask::Insert(b"x"), Answer::Added)),
        (0, Act::End),
        (1, Act::Connect),
        (1, Act::Call(1, Ask::Insert(b"x"), Answer::Present)),
        (1, Act::Leave),
    ],
    ..NOTHING
};

#[test]
fn an_idle_client_is_left(rt: HostRuntime) -> Result<(), Fail> {
    let wanted = "connection 0 idle\nconnection 1 ended\n";
    let seconds = ClientLimits { idle: 1, ..WAITS };
    let server = (SMALL, seconds);
    let found = follow(&rt, rt.alloc(), server, ONE_IS_IDLE, io::pipe(&rt)?, wanted);
    assert!(rt; found == Some(GOOD), "{found:?}");
    Ok(())
}

/// Serves until the input ends, and writes into 32 bytes, which have room for the address only.
fn stayed_in_32_bytes<R: Host>(
    rt: &R,
    alloc: Global,
    plan: &Plan,
    listener: TcpListener,
    input: PipeReader,
) -> Result<(), Finish> {
    let mut room = [0u8; 32];
    let written = room.as_mut_slice();
    let doors = Doors::Frames(&listener);
    stay_over(rt, alloc, plan, doors, 4, WAITS, input, &Discard, written)
}

/// Opens connections one after another, and leaves each. Then the server's input ends.
fn leave_and_end<R: Net>(rt: &R, address: SocketAddr, input: PipeWriter) -> io::Result<()> {
    for _ in 0..3u64 {
        let mut client = TcpStream::connect(rt, address)?;
        leave(&mut client)?;
    }
    drop(input);
    Ok(())
}

/// How a server ends whose writer has room for the address only. None if it did not serve all
/// clients.
fn stays_without_room<R: Handle + Net<Listener = TcpListener, Stream = TcpStream>>(
    rt: &R,
    alloc: Global,
    (reader, writer): (PipeReader, PipeWriter),
) -> Option<Result<(), Finish>> {
    let plan = plan_with(alloc, 1)?;
    let (listener, address) = bound(rt)?;
    let (stayed, answered) = thread::join(
        rt,
        || stayed_in_32_bytes(rt, alloc, &plan, listener, reader),
        || leave_and_end(rt, address, writer),
    );
    drop(plan);
    answered.ok()?;
    Some(stayed)
}

/// A server that stays goes on without lines that can't be written.
#[test]
fn a_line_that_is_not_written(rt: HostRuntime) -> Result<(), Fail> {
    let stayed = stays_without_room(&rt, rt.alloc(), io::pipe(&rt)?);
    check!(&rt; stayed == Some(Ok(())));
    Ok(())
}
