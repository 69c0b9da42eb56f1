//! How much all connections may hold.

use crate::checks::check;
use crate::parties::{House, Silent, beside, connect, rules};
use chord_app_loop::Loops;
use chord_app_sockets::{Clients, Ended};
use chord_serve::Served;
use chord_serve_testkit::expect;
use std::alloc::{AllocError, Global};
use std::io::{self, Read, Write};
use std::net::{Net, TcpListener, TcpStream};
use std::sync::Wait;
use std::thread::{self, Threads};
use std::time::{Clock, Duration};

/// How often a test looks whether the server holds what it should, with 5 ms between.
const LOOKS: u32 = 2_000;

/// A value of a command, as its client sends it.
const VALUE_BYTES: u64 = 4_096;

/// The head of a command that adds 30 values, and of one that adds 60.
const THIRTY: &[u8] = b"*32\r\n$4\r\nSADD\r\n$1\r\nk\r\n";

const SIXTY: &[u8] = b"*62\r\n$4\r\nSADD\r\n$1\r\nk\r\n";

/// The head of a command, and this many of its values, of 4,096 bytes each.
fn begun(alloc: Global, head: &[u8], values: u64) -> Result<Vec<u8>, AllocError> {
    let mut bytes = Vec::new(alloc);
    bytes.extend_from_slice(head)?;
    for _ in 0..values {
        bytes.extend_from_slice(b"$4096\r\n")?;
        bytes.resize(bytes.len().saturating_add(VALUE_BYTES as usize), b'x')?;
        bytes.extend_from_slice(b"\r\n")?;
    }
    Ok(bytes)
}

/// Whether the connections of a house come to hold more than these values' bytes.
fn come_to_hold<R: Wait + Clock>(rt: &R, house: &House<'_, R>, values: u64) -> bool {
    for _ in 0..LOOKS {
        if house.held() >= values.saturating_mul(VALUE_BYTES) {
            return true;
        }
        thread::sleep(rt, Duration::from_millis(5));
    }
    false
}

/// Reads until the connection is ended or cut.
fn read_to_end(client: &mut TcpStream) {
    let mut buffer = [0u8; 64];
    for _ in 0..LOOKS {
        match client.read(&mut buffer) {
            Ok(0) | Err(_) => return,
            Ok(_) => {}
        }
    }
}

/// What was seen of a server whose connections may hold 200,000 bytes. Its client 0 sends 29 of 30
/// values, which it may hold alone, then client 1 sends 59 of 60, and client 2 asks beside them.
/// When client 1 was ended, client 0 sends its last value.
#[derive(Clone, Copy, Debug, PartialEq, Eq)]
struct Seen {
    is_begun: bool,
    ends: [Option<Ended>; 3],
    held: u64,
}

fn crowd<R: Threads + Wait + Clock + Net<Listener = TcpListener, Stream = TcpStream> + Sync>(
    rt: &R,
    alloc: Global,
) -> io::Result<Seen> {
    let (clients, source) = (Clients::new(alloc), Silent);
    let house = House::new(rt, alloc, &clients, &source, 0, 200_000);
    let loops = Loops::open(rt, alloc, rules(1_000), 1)?;
    let played = beside(rt, &house, &loops, || {
        let mut first = connect(&house, &loops, 0)?;
        let mut second = connect(&house, &loops, 1)?;
        let mut small = connect(&house, &loops, 2)?;
        first.write_all(&begun(alloc, THIRTY, 29)?)?;
        let is_begun = come_to_hold(rt, &house, 29);
        second.write_all(&begun(alloc, SIXTY, 59)?)?;
        small.write_all(b"SADD k m\r\n")?;
        expect(alloc, &mut small, b":1\r\n")?;
        read_to_end(&mut second);
        first.write_all(&begun(alloc, b"", 1)?)?;
        expect(alloc, &mut first, b":30\r\n")?;
        drop((first, second, small));
        Ok(is_begun)
    });
    let seen = played.map(|is_begun| Seen {
        is_begun,
        ends: [house.end_of(0), house.end_of(1), house.end_of(2)],
        held: house.held(),
    });
    drop(loops);
    drop(house);
    drop(clients);
    seen
}

/// Above the limit the client that holds the most is ended, and the others are served.
#[test]
fn who_holds_the_most_is_ended(rt: HostRuntime) {
    let ended = Some(Ended::Served(Served::Ended));
    let wanted = Seen {
        is_begun: true,
        ends: [ended, Some(Ended::Served(Served::Memory)), ended],
        held: 0,
    };
    let seen = crowd(&rt, rt.alloc());
    check!(&rt; seen.is_ok_and(|seen| seen == wanted));
}

/// How a client's connection ends that sends 59 of 60 values to a server whose connections may hold
/// this many bytes and that is told to end once 50 came or the connection was ended, and what is
/// held then.
fn end_of_one<R: Threads + Wait + Clock + Net<Listener = TcpListener, Stream = TcpStream> + Sync>(
    rt: &R,
    alloc: Global,
    most_bytes: u64,
) -> io::Result<(Option<Ended>, u64)> {
    let (clients, source) = (Clients::new(alloc), Silent);
    let house = House::new(rt, alloc, &clients, &source, 0, most_bytes);
    let loops = Loops::open(rt, alloc, rules(1_000), 1)?;
    let played = beside(rt, &house, &loops, || {
        let mut client = connect(&house, &loops, 0)?;
        client.write_all(&begun(alloc, SIXTY, 59)?)?;
        for _ in 0..LOOKS {
            if house.end_of(0).is_some() || house.held() >= 50 * VALUE_BYTES {
                break;
            }
            thread::sleep(rt, Duration::from_millis(5));
        }
        clients.tell_to_end();
        loops.wake();
        read_to_end(&mut client);
        drop(client);
        Ok(())
    });
    let seen = played.map(|()| (house.end_of(0), house.held()));
    drop(loops);
    drop(house);
    drop(clients);
    seen
}

/// Above twice the limit a client is ended at once that holds more than 65,536 bytes.
#[test]
fn nobody_holds_twice_the_limit(rt: HostRuntime) {
    let far_over = end_of_one(&rt, rt.alloc(), 40_000);
    check!(&rt; far_over.is_ok_and(|seen| seen == (Some(Ended::Served(Served::Memory)), 0)));
    let within = end_of_one(&rt, rt.alloc(), 300_000);
    check!(&rt; within.is_ok_and(|seen| seen == (Some(Ended::Served(Served::Truncated)), 0)));
}
