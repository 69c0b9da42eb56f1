//! The server of `serve --stay` while a growth is refused: at most one connection ends for it, and
//! the others are answered. With ample memory nothing is refused; the toolchain's failing
//! allocations refuse one.

use crate::checks::check;
use crate::tests::stays::stay_over;
use chord_app_plan::Plan;
use chord_app_serve_testkit::{Handle, WAITS, bound, plan_with};
use chord_app_sockets::{Doors, Host};
use chord_app_text::Finish;
use log::sink::Discard;
use std::alloc::Global;
use std::io::{self, PipeReader, PipeWriter, Read, Write};
use std::net::{Net, OpenStream, Shutdown, SocketAddr, TcpListener, TcpStream};
use std::test::Fail;
use std::thread;

// Inserts `x` under `a`, with number 1. Clients take no memory, so that a refused growth is the
// server's.
const INSERT: &[u8] = b"\x00\x00\x00\x0f\x01\x01\x00\x00\x00\x00\x00\x00\x00\x01\x01a\x00\x01x";

/// How a server ended.
#[derive(Drop)]
struct Stayed {
    end: Result<(), Finish>,
    /// How many lines it wrote.
    lines: usize,
    /// How many of them say that memory ran out.
    refused: usize,
}

/// How many times a byte occurs.
fn count_of(bytes: &[u8], wanted: u8) -> usize {
    bytes.iter().filter(|byte| **byte == wanted).count()
}

/// Serves until the input ends, and then frees the port.
fn stays<R: Host>(
    rt: R,
    alloc: Global,
    plan: Plan,
    listener: TcpListener,
    input: PipeReader,
) -> Stayed {
    let mut room = [0u8; 256];
    let end = stay_over(
        &rt,
        alloc,
        &plan,
        Doors::Frames(&listener),
        4,
        WAITS,
        input,
        &Discard,
        room.as_mut_slice(),
    );
    Stayed {
        end,
        lines: count_of(&room, b'\n'),
        // No other result has this letter: only `memory`.
        refused: count_of(&room, b'y'),
    }
}

/// Checks that the server answers an insert, and then closes the connection.
fn is_answered<S: Read + Write + OpenStream>(stream: &mut S) -> bool {
    let mut answer = [0u8; 15];
    stream.write_all(INSERT).is_ok()
        && stream.read_exact(&mut answer).is_ok()
        && answer[5] == 0x81
        && stream.shutdown(Shutdown::Write).is_ok()
        && stream.read(&mut answer).is_ok_and(|count| count == 0)
}

/// Opens three connections at once, asks over each, and ends the input. Gives how many were
/// answered.
fn three_clients<R: Net>(rt: &R, address: SocketAddr, input: PipeWriter) -> io::Result<usize> {
    let mut first = TcpStream::connect(rt, address)?;
    let mut second = TcpStream::connect(rt, address)?;
    let mut third = TcpStream::connect(rt, address)?;
    let answered = [
        is_answered(&mut second),
        is_answered(&mut first),
        is_answered(&mut third),
    ];
    drop(input);
    Ok(answered.iter().filter(|is| **is).count())
}

/// Serves three clients. Gives how the server ended and how many clients were answered; none if the
/// test itself has no memory, as for the server's thread.
fn served<R: Handle + Net<Listener = TcpListener, Stream = TcpStream>>(
    rt: &R,
    alloc: Global,
    (reader, writer): (PipeReader, PipeWriter),
) -> Option<(Stayed, usize)> {
    let plan = plan_with(alloc, 3)?;
    let (listener, address) = bound(rt)?;
    let own = *rt;
    let Ok(server) = thread::spawn(rt, move || stays(own, alloc, plan, listener, reader)) else {
        return None;
    };
    let answered = three_clients(rt, address, writer);
    Some((server.join(rt), answered.unwrap_or(0)))
}

/// A refused growth ends at most one connection, with `memory`, unless the server needed it to
/// start. A client that has no answer is that connection's. It may have its answer, since the
/// growth may be one at the connection's end. If memory is refused to the test itself, it begins
/// again.
#[test]
fn a_refused_growth_ends_one_connection(rt: HostRuntime) -> Result<(), Fail> {
    let (server, answered) = match served(&rt, rt.alloc(), io::pipe(&rt)?) {
        Some(ended) => ended,
        None => served(&rt, rt.alloc(), io::pipe(&rt)?).ok_or("not served")?,
    };
    if server.end.is_ok() {
        let cut_off = 3usize.saturating_sub(answered);
        check!(&rt; server.lines == 4);
        check!(&rt; cut_off <= server.refused);
        check!(&rt; server.refused <= 1);
    } else {
        check!(&rt; server.end == Err(Finish::OutOfMemory));
    }
    Ok(())
}
