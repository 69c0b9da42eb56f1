//! Many sessions of one server: loads whose connections are cut, and more sessions than callers.

use crate::checks::check;
use chord_app_ask::{Drops, Kind, Load, Tokens, Until, run_load};
use chord_app_serve_testkit::{
    Act, Answer, Ask, GOOD, Handle, SMALL, Size, WAITS, do_acts, look_at, stay_beside,
};
use chord_app_sockets::ClientLimits;
use chord_app_text::{Fault, Finish};
use chord_map::{Reply, Request};
use chord_serve::WireClient;
use chord_wire::{Answer as WireAnswer, FaultCode};
use log::sink::Discard;
use std::alloc::{AllocError, Global};
use std::io::{PipeReader, PipeWriter};
use std::net::{Net, SocketAddr, TcpListener, TcpStream};
use std::sync::Wait;
use std::test::Fail;
use std::time::{Clock, Duration};
use std::{io, thread};

/// How many requests a load has.
const REQUESTS: u64 = 3_200;

/// How many keys it has.
const KEYS: u64 = 32;

/// Inserts of values that nobody else inserts, over sixteen connections with four requests in
/// flight on each. One request in 20 is the last of its connection.
fn cut_load(port: u16, tokens: Tokens) -> Load {
    Load {
        port,
        connections: 16,
        in_flight: 4,
        keys: KEYS,
        value_size: 16,
        kind: Kind::Insert,
        until: Until::Requests(REQUESTS),
        tokens: Some(tokens),
        drops: Some(Drops { every: 20, seed: 1 }),
    }
}

/// How many values a key of a load has.
fn count_values(
    alloc: Global,
    client: &mut WireClient,
    mut stream: &TcpStream,
    number: u64,
) -> io::Result<u64> {
    let key = format!(in alloc; "key {number}")?;
    let request = Request::retrieve(alloc, key.as_bytes())?;
    if request.check().is_err() {
        drop(request);
        return Err(io::Error::from(io::ErrorKind::InvalidInput));
    }
    let sent = client.send(&mut stream, request);
    let received = client.receive(&mut stream, 1_000);
    let count = match (&sent, &received) {
        (
            Ok(_),
            Ok(
                (
                    _,
                    WireAnswer::Reply {
                        reply: Reply::Values(values),
                        ..
                    },
                ),
            ),
        ) => Ok(values.as_slice().len() as u64),
        _ => Err(io::Error::from(io::ErrorKind::InvalidData)),
    };
    drop(received);
    count
}

/// How many values all keys of a load have.
fn count_all_values<R: Net<Stream = TcpStream>>(
    rt: &R,
    alloc: Global,
    address: SocketAddr,
) -> io::Result<u64> {
    let stream = TcpStream::connect(rt, address)?;
    let Some(mut client) = WireClient::new(alloc, 2, 1) else {
        return Err(io::Error::from(io::ErrorKind::InvalidInput));
    };
    let mut all = 0u64;
    for number in 0..KEYS {
        let count = count_values(alloc, &mut client, &stream, number)?;
        all = all.saturating_add(count);
    }
    drop(client);
    Ok(all)
}

/// The number on the line of the table that begins with this word.
fn number_at(table: &[u8], word: &str) -> Option<u64> {
    let table = str::from_utf8(table).ok()?;
    let line = table.lines().find(|line| line.starts_with(word))?;
    line.split_whitespace().last()?.parse::<u64>().ok()
}

/// How a load went.
#[derive(Debug, Drop)]
struct Loaded {
    finish: Result<Finish, Finish>,
    /// How many requests had a reply.
    replies: Option<u64>,
    /// How many connections went on with a session.
    resumed: Option<u64>,
    /// How many values its keys have afterwards.
    values: Option<u64>,
}

/// Loads the server, and counts what it holds then.
fn loads<R: Handle + Net<Listener = TcpListener, Stream = TcpStream>>(
    rt: &R,
    alloc: Global,
    address: SocketAddr,
    tokens: Tokens,
) -> Loaded {
    let load = cut_load(address.port(), tokens);
    let mut table: Vec<u8> = Vec::new(alloc);
    let finish = run_load(rt, alloc, load, None::<Vec<u8>>, &mut table);
    let values = count_all_values(rt, alloc, address).ok();
    let replies = number_at(&table, "requests");
    let resumed = number_at(&table, "resumed");
    drop(table);
    Loaded {
        finish,
        replies,
        resumed,
        values,
    }
}

/// A server for a load.
const LOADED: Size = Size {
    callers: 16,
    room: 10_000,
    ..SMALL
};

/// A server that keeps sessions for `keep` seconds.
pub fn keeping(keep: u64) -> ClientLimits {
    ClientLimits { keep, ..WAITS }
}

/// How a load of connections that are cut went at a server that ended well.
fn load_beside<R: Handle + Net<Listener = TcpListener, Stream = TcpStream>>(
    rt: &R,
    alloc: Global,
    seconds: ClientLimits,
    pipe: (PipeReader, PipeWriter),
    tokens: Tokens,
) -> Option<Loaded> {
    let (written, told) = stay_beside(rt, alloc, (LOADED, seconds), &Discard, pipe, |at| {
        Ok(loads(rt, alloc, at.frames, tokens))
    })?;
    let is_well = written.written.is_ok();
    drop(written);
    let loaded = told.ok()?;
    is_well.then_some(loaded)
}

/// Sixteen clients lose connections and go on over others: each insert acts once, since no insert
/// finds its own value there and each value is there at the end.
#[test]
fn sixteen_clients_go_on(rt: HostRuntime) -> Result<(), Fail> {
    let tokens = Tokens::new(&rt)?;
    let loaded = load_beside(&rt, rt.alloc(), keeping(600), io::pipe(&rt)?, tokens);
    let is_whole = loaded.as_ref().is_some_and(|loaded| {
        loaded.finish == Ok(Finish::Done)
            && loaded.replies == Some(REQUESTS)
            && loaded.values == Some(REQUESTS)
            && loaded.resumed.is_some_and(|resumed| resumed > 16)
    });
    assert!(rt; is_whole, "{loaded:?}");
    Ok(())
}

/// Where no session is kept, what had no answer when a connection was lost is lost, and may have
/// acted or not. All that had a reply is there.
#[test]
fn sixteen_clients_are_lost(rt: HostRuntime) -> Result<(), Fail> {
    let tokens = Tokens::new(&rt)?;
    let loaded = load_beside(&rt, rt.alloc(), keeping(0), io::pipe(&rt)?, tokens);
    let is_lost = loaded.as_ref().is_some_and(|loaded| {
        let Ok(Finish::Fault(Fault::Unanswered(lost))) = loaded.finish else {
            return false;
        };
        let (Some(replies), Some(values)) = (loaded.replies, loaded.values) else {
            return false;
        };
        (16..=64).contains(&lost)
            && loaded.resumed == Some(0)
            && replies <= values
            && values <= replies.saturating_add(lost)
    });
    assert!(rt; is_lost, "{loaded:?}");
    Ok(())
}

/// The last byte of the token of the session whose insert found the store full.
const PENDING: u8 = 0;

/// That of the last session. The others have those between, in the order in which they begin.
const LAST: u8 = 200;

/// How many callers their server has.
const CALLERS: u64 = 64;

/// The last byte of the token of the last session that is dropped for another one's caller.
const LAST_DROPPED: u8 = 136;

/// Does what a client does over a connection of its own.
fn does<R: Net>(
    rt: &R,
    alloc: Global,
    address: SocketAddr,
    acts: &[(usize, Act)],
) -> io::Result<()> {
    let mut streams = Vec::new(alloc);
    do_acts(rt, alloc, address, &mut streams, acts)
}

/// Opens a session so, which sends request 1 and then loses its connection.
fn asks_once<R: Net>(
    rt: &R,
    alloc: Global,
    address: SocketAddr,
    opening: Act,
    (ask, answer): (Ask, Answer),
) -> io::Result<()> {
    let acts = [
        (0, opening),
        (0, Act::CallIn(1, 0, ask, answer)),
        (0, Act::Leave),
    ];
    does(rt, alloc, address, &acts)
}

/// Resumes a session of this token, which sent request 1.
fn resumed(token: u8) -> Act {
    Act::Resume(token, 0, 1)
}

/// A client that resumes a session that is not kept is told so.
fn finds_none<R: Net>(rt: &R, alloc: Global, address: SocketAddr, token: u8) -> io::Result<()> {
    let acts = [(0, Act::Refused(token, true, FaultCode::NoSession))];
    does(rt, alloc, address, &acts)
}

/// Begins all sessions, one after another. Before one that finds no caller it waits, so that the
/// others are old enough to be dropped for it.
fn begins_all<R: Net + Wait + Clock>(rt: &R, alloc: Global, address: SocketAddr) -> io::Result<()> {
    let first = [
        (0, Act::Connect),
        (0, Act::Call(1, Ask::Insert(b"x"), Answer::Added)),
        (0, Act::Leave),
    ];
    does(rt, alloc, address, &first)?;
    let full = (Ask::Insert(b"y"), Answer::Fault(FaultCode::Full));
    asks_once(rt, alloc, address, Act::Begin(PENDING), full)?;
    for token in 1..=LAST {
        if token > 1 && token as u64 % (CALLERS - 1) == 1 {
            thread::sleep(rt, Duration::from_millis(1_200));
        }
        let present = (Ask::Insert(b"x"), Answer::Present);
        asks_once(rt, alloc, address, Act::Begin(token), present)?;
    }
    Ok(())
}

/// Resumes all sessions, one after another. The oldest were dropped, also the one whose insert
/// found the store full, so that it does not act once there is room.
fn resumes_all<R: Net>(rt: &R, alloc: Global, address: SocketAddr) -> io::Result<()> {
    for token in PENDING..=LAST {
        if token <= LAST_DROPPED {
            finds_none(rt, alloc, address, token)?;
        } else {
            let present = (Ask::Insert(b"x"), Answer::Present);
            asks_once(rt, alloc, address, resumed(token), present)?;
        }
    }
    let room = [
        (0, resumed(LAST)),
        (0, Act::CallIn(2, 1, Ask::Remove(b"x"), Answer::Removed)),
        (0, Act::CallIn(3, 2, Ask::Retrieve, Answer::Values(&[]))),
        (0, Act::Close),
        (0, Act::Closed),
        (0, Act::End),
    ];
    does(rt, alloc, address, &room)
}

/// Begins all sessions and resumes them.
fn begins_and_resumes<R: Net + Wait + Clock>(
    rt: &R,
    alloc: Global,
    address: SocketAddr,
) -> io::Result<()> {
    begins_all(rt, alloc, address)?;
    resumes_all(rt, alloc, address)
}

/// The line for each connection.
fn lines(alloc: Global) -> Result<String, AllocError> {
    let mut lines = String::new(alloc);
    for number in 0..404u32 {
        let is_refused = (202..339).contains(&number);
        let line = if is_refused {
            format!(in alloc; "connection {number} malformed 14\n")?
        } else {
            format!(in alloc; "connection {number} ended\n")?
        };
        lines.push_str(&line)?;
    }
    Ok(lines)
}

/// Two hundred sessions and one with a pending request lose their connections on a server of 64
/// callers.
#[test]
fn old_sessions_are_dropped_in_order(rt: HostRuntime) -> Result<(), Fail> {
    let alloc = rt.alloc();
    let lines = lines(alloc)?;
    let size = Size {
        callers: CALLERS,
        room: 1,
        ..SMALL
    };
    let pipe = io::pipe(&rt)?;
    let played = stay_beside(&rt, alloc, (size, keeping(1)), &Discard, pipe, |at| {
        begins_and_resumes(&rt, alloc, at.frames)
    });
    check!(&rt; look_at(alloc, played, lines.as_str()) == Some(GOOD));
    drop(lines);
    Ok(())
}
