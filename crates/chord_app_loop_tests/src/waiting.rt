//! Connections whose requests wait, beside others.

use crate::checks::check;
use crate::parties::{AMPLE, House, Silent, beside, connect, rules};
use chord_app_loop::Loops;
use chord_app_sockets::{Clients, Ended};
use chord_serve::Served;
use chord_serve_testkit::{expect, expect_end};
use std::alloc::Global;
use std::io::{self, Read, Write};
use std::net::{Net, TcpListener, TcpStream};
use std::sync::Wait;
use std::thread::Threads;
use std::time::{Clock, Duration};

/// What a request is told that got no answer.
const NO_ANSWER: &[u8] = b"-TRYAGAIN no answer in time, it may have acted\r\n";

/// Whether nothing came to a client.
fn is_unanswered(client: &mut TcpStream) -> io::Result<bool> {
    client.set_read_timeout(Some(Duration::from_millis(1)))?;
    let mut more = [0u8; 1];
    let is_none = client.read(&mut more).is_err();
    client.set_read_timeout(Some(Duration::from_secs(20)))?;
    Ok(is_none)
}

/// One client waits for an answer that does not come, and another asks beside it. Says whether the
/// first still waited once the other had its answers.
fn ask_beside<R: Threads + Wait + Clock + Net<Listener = TcpListener, Stream = TcpStream> + Sync>(
    rt: &R,
    alloc: Global,
) -> io::Result<bool> {
    let (clients, source) = (Clients::new(alloc), Silent);
    let house = House::new(rt, alloc, &clients, &source, u32::MAX, AMPLE);
    let loops = Loops::open(rt, alloc, rules(2_000), 1)?;
    let asked = beside(rt, &house, &loops, || {
        let mut first = connect(&house, &loops, 0)?;
        let mut second = connect(&house, &loops, 1)?;
        first.write_all(b"SADD late m\r\nPING\r\n")?;
        for _ in 0..200u64 {
            second.write_all(b"SADD k m\r\n")?;
            expect(alloc, &mut second, b":1\r\n")?;
        }
        let waited = is_unanswered(&mut first)?;
        expect(alloc, &mut first, NO_ANSWER)?;
        expect(alloc, &mut first, b"+PONG\r\n")?;
        drop((first, second));
        Ok(waited)
    });
    drop(loops);
    drop(house);
    drop(clients);
    asked
}

#[test]
fn nobody_waits_for_another(rt: HostRuntime) {
    check!(&rt; ask_beside(&rt, rt.alloc()).is_ok_and(|waited| waited));
}

/// How three connections end that are told to: of a client that is silent, of one that sent a
/// command in part, and of one whose request waits, which is told that it has no answer.
fn ends_when_told<
    R: Threads + Wait + Clock + Net<Listener = TcpListener, Stream = TcpStream> + Sync,
>(rt: &R, alloc: Global) -> io::Result<[Option<Ended>; 3]> {
    let (clients, source) = (Clients::new(alloc), Silent);
    let house = House::new(rt, alloc, &clients, &source, u32::MAX, AMPLE);
    let loops = Loops::open(rt, alloc, rules(60_000), 1)?;
    let told = beside(rt, &house, &loops, || {
        let mut silent = connect(&house, &loops, 0)?;
        let mut part = connect(&house, &loops, 1)?;
        let mut waiting = connect(&house, &loops, 2)?;
        part.write_all(b"PING\r\nSADD")?;
        expect(alloc, &mut part, b"+PONG\r\n")?;
        waiting.write_all(b"PING\r\nSADD late m\r\n")?;
        expect(alloc, &mut waiting, b"+PONG\r\n")?;
        clients.tell_to_end();
        loops.wake();
        expect_end(&mut silent)?;
        expect_end(&mut part)?;
        expect(alloc, &mut waiting, NO_ANSWER)?;
        expect_end(&mut waiting)?;
        drop((silent, part, waiting));
        Ok(())
    });
    let ends = [house.end_of(0), house.end_of(1), house.end_of(2)];
    drop(loops);
    drop(house);
    drop(clients);
    told.map(|()| ends)
}

#[test]
fn connections_end_when_they_are_told_to(rt: HostRuntime) {
    let ends = ends_when_told(&rt, rt.alloc());
    check!(&rt; ends.is_ok_and(|ends| ends
        == [
            Some(Ended::Served(Served::Ended)),
            Some(Ended::Served(Served::Truncated)),
            Some(Ended::Served(Served::Ended)),
        ]));
}
