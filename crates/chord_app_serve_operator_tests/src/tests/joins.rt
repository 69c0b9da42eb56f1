//! Nodes that an operator makes join, leave and crash while clients ask.

use crate::checks::check;
use crate::tests::calls::{STOPS, unanswered};
use chord_app_serve_testkit::{
    Act, Addresses, Answer, Ask, Handle, Played, SMALL, Size, WAITS, do_acts, stay_beside,
};
use log::sink::Discard;
use std::alloc::Global;
use std::hash::RandomState;
use std::net::{Net, SocketAddr, TcpListener, TcpStream};
use std::sync::atomic::{AtomicBool, Ordering};
use std::test::Fail;
use std::time::Clock;
use std::{io, thread};

/// The ring has three slots more than nodes, and nodes that join have trees. The identifier of
/// `abc` begins with a9.
const OPERATED: &str = r#"
# Nodes that do not join.
POST /nodes | {"store":"list"} > 409 Conflict | {"refused":"NoStore"}
POST /nodes | {"id":"c0000000000000000000000000000000"} > 409 Conflict | {"refused":"IdTaken"}
POST /nodes | {"via":2} > 409 Conflict | {"refused":"NoSuchNode"}
# Node 2 joins, and the key `abc` comes to it.
GET /holder/abc > 200 OK | "node":1}
POST /nodes | {"id":"b0000000000000000000000000000000","via":1} > 201 Created | {"node":2}
GET /holder/abc > 200 OK | "node":2}
GET /ring > 200 OK | "slots":5,
GET /metrics > 200 OK | chord_nodes{phase="staying"} 3\n
# Node 2 leaves, and the key goes on to node 1.
POST /nodes/2/leave > 202 Accepted | {"node":2}
GET /metrics > 200 OK | \nchord_nodes_gone_total 1\n
GET /ring?all > 200 OK | "phase":"gone"
GET /holder/abc > 200 OK | "node":1}
# Two nodes join that name no identifier. The members are at 4 and 31 zeros and at c and 31 zeros,
# since node 2 has gone: each of the two is in the second half of the gap between them, one way
# round or the other, by its middle, where a draw says.
POST /nodes > 201 Created | {"node":3}
GET /metrics > 200 OK | chord_segments{node="3"} 1\n
POST /nodes > 201 Created | {"node":4}
GET /ring > 200 OK | "id":"8
GET /ring > 200 OK | "id":"0
GET /ring > 200 OK | !"id":"80000000000000000000000000000000"
GET /ring > 200 OK | !"id":"00000000000000000000000000000000"
GET /metrics > 200 OK | chord_segments{node="4"} 1\n
# The next one gets the slot of node 2, which is gone. Then all slots are taken.
POST /nodes > 201 Created | {"node":5}
GET /metrics > 200 OK | chord_segments{node="5"} 1\n
POST /nodes > 409 Conflict | {"refused":"NoSlot"}
POST /nodes | {"store":"list"} > 409 Conflict | {"refused":"NoStore"}
# Node 0, which holds nothing of `abc`, crashes once the ring stands without it.
POST /nodes/0/crash > 200 OK | {"node":0}
GET /metrics > 200 OK | chord_nodes{phase="crashed"} 1\n
"#;

/// What a client asks again and again. Nobody else asks for its value.
const ROUND_OF_X: &[(Ask, Answer)] = &[
    (Ask::Insert(b"x"), Answer::Added),
    (Ask::Insert(b"x"), Answer::Present),
    (Ask::Remove(b"x"), Answer::Removed),
    (Ask::Remove(b"x"), Answer::Absent),
];

const ROUND_OF_Y: &[(Ask, Answer)] = &[
    (Ask::Insert(b"y"), Answer::Added),
    (Ask::Insert(b"y"), Answer::Present),
    (Ask::Remove(b"y"), Answer::Removed),
    (Ask::Remove(b"y"), Answer::Absent),
];

/// Asks a round, whose first request has this number.
fn ask_round<R: Net>(
    rt: &R,
    alloc: Global,
    address: SocketAddr,
    streams: &mut Vec<R::Stream>,
    round: &[(Ask, Answer)],
    first: u64,
) -> io::Result<()> {
    for (place, (ask, answer)) in round.iter().enumerate() {
        let number = first.saturating_add(place as u64);
        do_acts(
            rt,
            alloc,
            address,
            streams,
            &[(0, Act::Call(number, *ask, *answer))],
        )?;
    }
    Ok(())
}

/// A client asks rounds until it is told to end. Gives how many; an error if one answer was
/// another.
fn ask_rounds<R: Net>(
    rt: &R,
    alloc: Global,
    address: SocketAddr,
    round: &[(Ask, Answer)],
    is_over: &AtomicBool,
) -> io::Result<u64> {
    let mut streams = Vec::new(alloc);
    do_acts(rt, alloc, address, &mut streams, &[(0, Act::Connect)])?;
    for count in 0..1_000_000u64 {
        if is_over.load(Ordering::SeqCst) {
            do_acts(rt, alloc, address, &mut streams, &[(0, Act::Leave)])?;
            return Ok(count);
        }
        let first = count.saturating_mul(4).saturating_add(1);
        ask_round(rt, alloc, address, &mut streams, round, first)?;
    }
    Ok(0)
}

/// What the operator does while clients ask, which it tells to end then. Gives the first line that
/// was not answered as is due.
fn operate<R: Net + Clock>(
    rt: &R,
    alloc: Global,
    operator: SocketAddr,
    is_over: &AtomicBool,
) -> io::Result<Option<&'static str>> {
    let operated = unanswered(rt, alloc, operator, OPERATED);
    is_over.store(true, Ordering::SeqCst);
    operated
}

/// How a server was operated while two clients asked.
#[derive(Debug, Drop)]
struct Joined {
    /// How many rounds each client asked.
    x: io::Result<u64>,
    y: io::Result<u64>,
    /// The operator's first line that was not answered as is due.
    operated: io::Result<Option<&'static str>>,
}

/// Two clients ask while the operator does its scripts. Then the operator stops the server.
fn join_and_ask<R: Handle + Net<Listener = TcpListener, Stream = TcpStream>>(
    rt: &R,
    alloc: Global,
    at: Addresses,
) -> Joined {
    let is_over = AtomicBool::new(false);
    let is_over = &is_over;
    let (x, (y, operated)) = thread::join(
        rt,
        move || ask_rounds(rt, alloc, at.frames, ROUND_OF_X, is_over),
        move || {
            thread::join(
                rt,
                move || ask_rounds(rt, alloc, at.frames, ROUND_OF_Y, is_over),
                move || operate(rt, alloc, at.operator, is_over),
            )
        },
    );
    let _ = unanswered(rt, alloc, at.operator, STOPS).is_ok();
    Joined { x, y, operated }
}

/// Whether the server ended well, and what was told.
fn joined_of(played: Played<Joined>) -> Option<(bool, Joined)> {
    let (written, told) = played?;
    let is_well = written.written.is_ok();
    drop(written);
    let joined = told.ok()?;
    Some((is_well, joined))
}

/// A node joins and gets the key that is asked for, leaves and is gone, three more join, of which
/// one gets its slot, and one crashes that holds another key: each request is answered as if
/// nothing had happened.
#[test]
fn nodes_come_and_go_while_clients_ask(rt: HostRuntime) -> Result<(), Fail> {
    let size = Size {
        callers: 2,
        joining: 3,
        operator: Some(RandomState::new(&rt)?),
        ..SMALL
    };
    let alloc = rt.alloc();
    let pipe = io::pipe(&rt)?;
    let played = stay_beside(&rt, alloc, (size, WAITS), &Discard, pipe, |at| {
        Ok(join_and_ask(&rt, alloc, at))
    });
    let (is_well, joined) = joined_of(played).expect(&rt, "memory and ports for a server");
    let Joined { x, y, operated } = joined;
    check!(&rt;
        operated.unwrap_or(Some("none")) == None,
        "each call of the operator"
    );
    check!(&rt; x.unwrap_or(0) > 0, "each answer about x");
    check!(&rt; y.unwrap_or(0) > 0, "each answer about y");
    check!(&rt; is_well, "the server ends well");
    Ok(())
}
