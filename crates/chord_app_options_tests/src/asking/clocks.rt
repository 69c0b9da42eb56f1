//! How long a load took, by a clock that its server sets.

use crate::asking::serving::{bound, client_of, end_waiting, load_of};
use crate::checks::check;
use chord_app_ask::{ClientOptions, Kind, Load, Tokens, run_load};
use chord_app_text::Finish;
use chord_testkit::Text;
use std::alloc::Global;
use std::io::{self, Read, Write};
use std::net::{Net, SocketAddr, TcpListener, TcpStream};
use std::str::from_utf8;
use std::sync::Wait;
use std::sync::atomic::{AtomicU64, Ordering};
use std::thread;
use std::thread::Threads;
use std::time::{Clock, Duration};

/// A handle whose clock shows what was stored last, in milliseconds.
#[derive(Drop)]
struct SetClock<'a, R> {
    host: &'a R,
    shows: &'a AtomicU64,
}

impl<R: Wait> Wait for SetClock<'_, R> {}

impl<R: Threads> Threads for SetClock<'_, R> {}

impl<R> Clock for SetClock<'_, R> {
    fn monotonic(&self) -> io::Result<Duration> {
        Ok(Duration::from_millis(self.shows.load(Ordering::SeqCst)))
    }

    fn since_1970(&self) -> io::Result<Duration> {
        self.monotonic()
    }
}

impl<R: Net<Listener = TcpListener, Stream = TcpStream>> Net for SetClock<'_, R> {
    type Stream = TcpStream;

    type Listener = TcpListener;

    fn bind(&self, addr: SocketAddr) -> io::Result<TcpListener> {
        self.host.bind(addr)
    }

    fn connect(&self, addr: SocketAddr) -> io::Result<TcpStream> {
        self.host.connect(addr)
    }
}

/// What a server reads and answers.
#[derive(Clone, Copy)]
struct Turn {
    /// How many bytes the frame has.
    asked: usize,
    answer: &'static [u8],
}

/// What the clock shows when the load begins.
const BEGINS: u64 = 500;

/// A session of two retrieves, which find nothing.
const TURNS: [Turn; 4] = [
    Turn {
        asked: 39,
        answer: b"\x00\x00\x00\x1a\x01\x84\x00\x00\x00\x00\x00\x00\x00\x00\x00\x00\x00\x00\x00\x00\x00\x00\x00\x00\x00\x00\x00\x00\x00\x00",
    },
    Turn {
        asked: 28,
        answer: b"\x00\x00\x00\x0e\x01\x82\x00\x00\x00\x00\x00\x00\x00\x01\x00\x00\x00\x00",
    },
    Turn {
        asked: 28,
        answer: b"\x00\x00\x00\x0e\x01\x82\x00\x00\x00\x00\x00\x00\x00\x02\x00\x00\x00\x00",
    },
    Turn {
        asked: 22,
        answer: b"\x00\x00\x00\x0a\x01\x85\x00\x00\x00\x00\x00\x00\x00\x00",
    },
];

/// What the clock shows once each frame was read, before it is answered.
type Times = [u64; TURNS.len()];

/// Takes one connection, and answers its frames at these times. From then on nobody can connect.
fn take_turns(listener: TcpListener, clock: &AtomicU64, times: &Times) -> io::Result<()> {
    let (mut stream, _) = listener.accept()?;
    drop(listener);
    let mut frame = [0u8; 64];
    for (turn, shows) in TURNS.iter().zip(times) {
        let most = turn.asked.min(frame.len());
        stream.read_exact(&mut frame[..most])?;
        clock.store(*shows, Ordering::SeqCst);
        stream.write_all(turn.answer)?;
    }
    Ok(())
}

/// The times of loads that begin at 500, and the table of each, on one line. A load lasts until its
/// connection has ended, and tells the longest time without a reply.
const LOADS: &[(Times, &str)] = &[
    // The first retrieve took from 1,000 to 1,200, and the second to 1,700. The load had waited
    // longest for its first reply.
    (
        [1_000, 1_200, 1_700, 2_000],
        "requests 2|milliseconds 1500|still 700|a second 1|p50 204799 us|p90 507903 us|p99 507903 us|p99.9 507903 us|faults 0|empty sets 2|resumed 0|",
    ),
    // It stands still between two replies.
    (
        [600, 700, 5_700, 6_000],
        "requests 2|milliseconds 5500|still 5000|a second 0|",
    ),
    // It stands still behind the last one.
    (
        [500, 501, 502, 1_500],
        "requests 2|milliseconds 1000|still 998|a second 2|",
    ),
];

/// The lines of a table, without the spaces between a name and its number.
fn on_one_line(table: &[u8]) -> Text {
    let mut text = Text::of("");
    for line in from_utf8(table).unwrap_or("?").lines() {
        let (name, number) = line.split_at_checked(13).unwrap_or((line, ""));
        text = text.and_str(name.trim(), 16).and_str(" ", 1);
        text = text.and_str(number.trim(), 24).and_str("|", 1);
    }
    text
}

/// How a load of two retrieves ended at that server, and its table.
fn loaded<R: Threads + Wait + Clock + Net<Listener = TcpListener, Stream = TcpStream> + Sync>(
    rt: &R,
    alloc: Global,
    tokens: Tokens,
    times: &Times,
) -> Option<(Result<Finish, Finish>, Text)> {
    let (listener, port) = bound(rt)?;
    let client = ClientOptions {
        port,
        ..client_of(2, 1, 3, Some(tokens))
    };
    let load = Load {
        in_flight: 1,
        drops: None,
        ..load_of(client, Kind::Retrieve, 2)
    };
    let shows = AtomicU64::new(BEGINS);
    let host = SetClock {
        host: rt,
        shows: &shows,
    };
    let mut table: Vec<u8> = Vec::new(alloc);
    let (served, ended) = thread::join(
        rt,
        || take_turns(listener, &shows, times),
        || {
            let ended = run_load(&host, alloc, load, None::<Vec<u8>>, &mut table);
            end_waiting(&host, port, 1);
            ended
        },
    );
    let shown = on_one_line(&table);
    drop(table);
    served.ok()?;
    Some((ended, shown))
}

#[test]
fn loads_by_a_set_clock(rt: HostRuntime) {
    let tokens = Tokens::new(&rt).expect(&rt, "random bytes");
    for (times, wanted) in LOADS {
        let loaded = loaded(&rt, rt.alloc(), tokens, times);
        let (ended, table) = loaded.expect(&rt, "a load");
        check!(&rt; ended == Ok(Finish::Done), wanted);
        check!(&rt; table.as_str().starts_with(*wanted), wanted);
    }
}
