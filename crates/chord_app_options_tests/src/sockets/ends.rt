//! How connections end, and the lines that are written of them.

use crate::checks::check;
use crate::quoted::OneLine;
use chord_app_sockets::{Doors, Ended, Lines};
use chord_app_text::Finish;
use chord_serve::Served;
use chord_testkit::Text;
use chord_wire::FaultCode;
use std::alloc::Global;
use std::io;
use std::net::{Net, TcpListener, TcpStream};
use std::str::from_utf8;
use std::sync::Wait;

/// How a connection ends, its word, and whether it is closed slowly.
const ENDS: &[(Ended, &str, bool)] = &[
    (Ended::Served(Served::Ended), "ended", true),
    (Ended::Served(Served::Truncated), "truncated", true),
    (
        Ended::Served(Served::Malformed(FaultCode::BadFloor)),
        "malformed 12",
        true,
    ),
    (Ended::Served(Served::Protocol), "protocol", true),
    (Ended::Served(Served::Foreign), "protocol", true),
    (Ended::Served(Served::Quit), "ended", true),
    (Ended::Served(Served::Read), "read", false),
    (Ended::Served(Served::Write), "write", false),
    (Ended::Served(Served::TurnsSpent), "turnsspent", true),
    (Ended::Served(Served::Memory), "memory", true),
    (Ended::CallersSpent, "callersspent", true),
    (Ended::Idle, "idle", false),
    (Ended::NotAccepted, "read", false),
];

#[test]
fn connections_end(rt: HostRuntime) {
    for (ended, word, is_slow) in ENDS {
        check!(&rt; Text::of(*ended).as_str() == *word, word);
        check!(&rt; ended.is_closed_slowly() == *is_slow, word);
    }
    let idle = Ended::by(Served::Read, true);
    check!(&rt; idle == Ended::Idle, "a client that was idle too long");
    let read = Ended::by(Served::Read, false);
    check!(&rt; read == Ended::Served(Served::Read), "one that could not be read");
}

/// Tells of connections 1, 0 and 2, in this order, has that written, and tells of connection 3. Gives
/// what was told of the three, whether all was written, what was told of the last, and how it ended.
fn tell<W: io::Write + Drop>(
    rt: &impl Wait,
    lines: Lines<W>,
    listener: &TcpListener,
) -> Result<Text, Finish> {
    lines.begin(rt, Doors::Frames(listener))?;
    let told = [
        lines.tell(rt, 1, &Ended::Idle),
        lines.tell(rt, 0, &Ended::Served(Served::Ended)),
        lines.tell(rt, 2, &Ended::CallersSpent),
    ];
    lines.end(rt);
    let is_written = lines.write_on(rt);
    let later = lines.tell(rt, 3, &Ended::Idle);
    let finish = lines.finish();
    Ok(Text::of(format_args!("{told:?} {is_written} {later} {finish:?}")))
}

/// What `tell` gives, and what is written behind the address of a server, which keeps the lines of
/// this many connections for the end.
fn writes<R: Net<Listener = TcpListener, Stream = TcpStream> + Wait>(
    rt: &R,
    alloc: Global,
    kept: usize,
) -> Option<(Text, Text)> {
    let listener = TcpListener::bind(rt, "127.0.0.1:0").ok()?;
    let address = Text::of(listener.local_addr().ok()?);
    let mut written: Vec<u8> = Vec::new(alloc);
    let lines = if kept == 0 {
        Lines::as_they_end(alloc, &mut written)
    } else {
        Lines::by_number(alloc, &mut written, kept)
    };
    let told = tell(rt, lines, &listener).ok()?;
    let behind = from_utf8(&written)
        .unwrap_or("?")
        .strip_prefix("listening on ")
        .and_then(|text| text.strip_prefix(address.as_str()));
    Some((told, Text::of(OneLine(behind.unwrap_or("no address")))))
}

#[test]
fn lines_of_connections(rt: HostRuntime) {
    for (kept, wanted) in [
        // As they end, and by number at the end.
        (
            0,
            "|connection 1 idle|connection 0 ended|connection 2 callersspent|connection 3 idle|",
        ),
        (
            4,
            "|connection 0 ended|connection 1 idle|connection 2 callersspent|connection 3 idle|",
        ),
    ] {
        let (told, written) = writes(&rt, rt.alloc(), kept).expect(&rt, "lines");
        check!(&rt; told.as_str() == "[true, true, true] true true Ok(())", wanted);
        check!(&rt; written.as_str() == wanted, wanted);
    }
}

/// Writes into room for the address, which has at most 32 bytes, and for one line of 18 at least.
fn writes_one_line<R: Net<Listener = TcpListener, Stream = TcpStream> + Wait>(
    rt: &R,
    alloc: Global,
) -> Option<Text> {
    let listener = TcpListener::bind(rt, "127.0.0.1:0").ok()?;
    let mut room = [0u8; 50];
    let lines = Lines::as_they_end(alloc, room.as_mut_slice());
    tell(rt, lines, &listener).ok()
}

#[test]
fn a_line_that_is_not_written_is_the_last(rt: HostRuntime) {
    let told = writes_one_line(&rt, rt.alloc()).expect(&rt, "lines");
    let wanted = "[true, true, true] false false Err(Fault(Write))";
    check!(&rt; told.as_str() == wanted, "no line is told behind one that failed");
}

/// Tells of 65,538 connections before any line is written, and then of one more.
fn tells_too_many<R: Wait>(rt: &R, alloc: Global) -> Option<(bool, usize, bool)> {
    let mut written: Vec<u8> = Vec::new(alloc);
    let lines = Lines::as_they_end(alloc, &mut written);
    let is_told = (0..65_538).all(|number| lines.tell(rt, number, &Ended::Idle));
    lines.end(rt);
    let is_written = lines.write_on(rt);
    let is_told_later = lines.tell(rt, 7, &Ended::Idle);
    lines.finish().ok()?;
    let count = written.iter().filter(|byte| **byte == b'\n').count();
    let end = b"connection 65535 idle\nleft out 2\nconnection 7 idle\n";
    Some((
        is_told && is_written && is_told_later,
        count,
        written.ends_with(end),
    ))
}

/// Who tells of a connection does not wait for who writes: 65,536 lines wait at most.
#[test]
fn lines_that_nobody_reads_are_left_out(rt: HostRuntime) {
    let told = tells_too_many(&rt, rt.alloc());
    check!(&rt; told == Some((true, 65_538, true)), "what is left out is told");
}
