//! Bytes of Redis's clients that are cut off, that pass a limit, or whose answers nobody reads.

use crate::checks::check;
use chord_app_serve_testkit::{
    Ending, GOOD, SMALL, Size, Speech, WAITS, expect, expect_end, leave, look_at, serve_beside,
    stay_beside,
};
use log::sink::Discard;
use std::alloc::{AllocError, Global};
use std::io::{self, Read, Write};
use std::net::{Net, OpenStream, SocketAddr, TcpStream};
use std::test::Fail;

/// Some of what a client sends.
#[derive(Clone, Copy)]
enum Sent {
    Once(&'static [u8]),
    /// These bytes, repeated this often.
    Often(&'static [u8], usize),
}

impl Sent {
    fn send<S: Write>(self, alloc: Global, stream: &mut S) -> io::Result<()> {
        match self {
            Sent::Once(bytes) => stream.write_all(bytes),
            Sent::Often(bytes, times) => {
                let mut all = Vec::new(alloc);
                for _ in 0..times {
                    all.extend_from_slice(bytes)?;
                }
                stream.write_all(&all)
            }
        }
    }
}

/// How a connection ends.
#[derive(Clone, Copy)]
enum End {
    /// The client leaves behind a whole command.
    Whole,
    /// The client leaves within a command.
    Cut,
    /// The server ends it.
    Protocol,
}

impl End {
    fn word(self) -> &'static str {
        match self {
            End::Whole => "ended",
            End::Cut => "truncated",
            End::Protocol => "protocol",
        }
    }

    fn expect<S: Read + OpenStream>(self, stream: &mut S) -> io::Result<()> {
        match self {
            End::Whole | End::Cut => leave(stream),
            End::Protocol => expect_end(stream),
        }
    }
}

/// What a client sends, all that it hears, and how its connection ends.
#[derive(Clone, Copy)]
struct Client {
    sent: &'static [Sent],
    heard: &'static [u8],
    end: End,
}

impl Client {
    fn act<R: Net>(&self, rt: &R, alloc: Global, redis: SocketAddr) -> io::Result<()> {
        let mut stream = TcpStream::connect(rt, redis)?;
        for part in self.sent {
            part.send(alloc, &mut stream)?;
        }
        expect(alloc, &mut stream, self.heard)?;
        self.end.expect(&mut stream)
    }
}

/// Where SADD of two words and an inline PING are cut: behind each of their fields, and within
/// each.
const CUTS: &[&[u8]] = &[
    b"*",
    b"*3",
    b"*3\r",
    b"*3\r\n",
    b"*3\r\n$",
    b"*3\r\n$4",
    b"*3\r\n$4\r",
    b"*3\r\n$4\r\n",
    b"*3\r\n$4\r\nSA",
    b"*3\r\n$4\r\nSADD",
    b"*3\r\n$4\r\nSADD\r",
    b"*3\r\n$4\r\nSADD\r\n",
    b"*3\r\n$4\r\nSADD\r\n$1\r\na\r\n$1\r\nx\r",
    b"PI",
    b"PING\r",
];

/// A client that is refused for a line that is too long.
const TOO_LONG: Client = Client {
    sent: &[],
    heard: b"-ERR Protocol error: too big inline request\r\n",
    end: End::Protocol,
};

/// A client that is refused for the length of a word.
const BAD_LENGTH: Client = Client {
    heard: b"-ERR Protocol error: invalid bulk length\r\n",
    ..TOO_LONG
};

/// Clients that pass a limit, and some that just keep it.
const LIMITS: &[Client] = &[
    Client {
        sent: &[Sent::Once(b"*1048577\r\n")],
        heard: b"-ERR Protocol error: invalid multibulk length\r\n",
        ..TOO_LONG
    },
    Client {
        sent: &[Sent::Once(b"*"), Sent::Often(b"0", 33)],
        ..TOO_LONG
    },
    Client {
        sent: &[Sent::Once(b"*1\r\nPING\r\n")],
        heard: b"-ERR Protocol error: expected '$', got 'P'\r\n",
        ..TOO_LONG
    },
    Client {
        sent: &[Sent::Once(b"*1\r\n$1048577\r\n")],
        ..BAD_LENGTH
    },
    Client {
        sent: &[Sent::Once(b"*1\r\n$"), Sent::Often(b"0", 33)],
        ..TOO_LONG
    },
    Client {
        sent: &[Sent::Once(b"*1\r\n$4\r\nPINGS\r\n")],
        ..BAD_LENGTH
    },
    // A member of 1 MiB is read to its end and refused, and so is one of 4,097 bytes.
    Client {
        sent: &[
            Sent::Once(b"*3\r\n$4\r\nSADD\r\n$1\r\na\r\n$1048576\r\n"),
            Sent::Often(b"0123456789abcdef", 65_536),
            Sent::Once(b"\r\nSADD a "),
            Sent::Often(b"x", 4_097),
            Sent::Once(b"\r\nSCARD a\r\n"),
        ],
        heard: b"-ERR member is longer than 4096 bytes\r\n-ERR member is longer than 4096 bytes\r\n:0\r\n",
        end: End::Whole,
    },
    // 1,024 words and one more.
    Client {
        sent: &[
            Sent::Once(b"*1024\r\n$6\r\nEXISTS\r\n"),
            Sent::Often(b"$1\r\na\r\n", 1_023),
            Sent::Once(b"EXISTS"),
            Sent::Often(b" a", 1_024),
            Sent::Once(b"\r\n"),
        ],
        heard: b":0\r\n-ERR Protocol error: too big inline request\r\n",
        end: End::Protocol,
    },
    // A line that never ends: it is refused at its 65,537th byte, and what follows is dropped.
    Client {
        sent: &[Sent::Once(b"PING\r\nPING "), Sent::Often(b"x", 200_000)],
        heard: b"+PONG\r\n-ERR Protocol error: too big inline request\r\n",
        end: End::Protocol,
    },
    // None of the clients before did anything that another can see.
    Client {
        sent: &[Sent::Once(b"SMEMBERS a\r\n")],
        heard: b"*0\r\n",
        end: End::Whole,
    },
];

/// All of these clients, one after another.
fn each_in_turn<R: Net>(rt: &R, alloc: Global, redis: SocketAddr) -> io::Result<()> {
    for bytes in CUTS {
        let mut stream = TcpStream::connect(rt, redis)?;
        stream.write_all(bytes)?;
        End::Cut.expect(&mut stream)?;
    }
    for client in LIMITS {
        client.act(rt, alloc, redis)?;
    }
    Ok(())
}

/// The lines of a server of these clients, in their order.
fn lines(alloc: Global) -> Result<String, AllocError> {
    let mut text = String::new(alloc);
    let cuts = CUTS.iter().map(|_| End::Cut);
    let limits = LIMITS.iter().map(|client| client.end);
    for (number, end) in cuts.chain(limits).enumerate() {
        let word = end.word();
        let line = format!(in alloc; "connection {number} {word}\n")?;
        text.push_str(line.as_str())?;
    }
    Ok(text)
}

/// Each field cut, and each limit passed. Each client has a caller of its own.
#[test]
fn hostile_bytes_of_redis_clients(rt: HostRuntime) -> Result<(), Fail> {
    let alloc = rt.alloc();
    let lines = lines(alloc)?;
    let size = Size {
        callers: 64,
        speech: Speech::Redis,
        ..SMALL
    };
    let ending = Ending::Connections(CUTS.len() + LIMITS.len());
    let played = serve_beside(&rt, alloc, size, &Discard, ending, |at| {
        each_in_turn(&rt, alloc, at.redis)
    });
    check!(&rt; look_at(alloc, played, lines.as_str()) == Some(GOOD));
    drop(lines);
    Ok(())
}

/// Adds 32 members of 4,096 bytes to the set k.
fn fill<S: Read + Write>(alloc: Global, stream: &mut S) -> io::Result<()> {
    stream.write_all(b"*34\r\n$4\r\nSADD\r\n$1\r\nk\r\n")?;
    for number in 0..32u8 {
        let member = vec![in alloc; number; 4_096]?;
        stream.write_all(b"$4096\r\n")?;
        stream.write_all(&member)?;
        stream.write_all(b"\r\n")?;
    }
    expect(alloc, stream, b":32\r\n")
}

/// Asks 224 times for all of them in one write, which the server reads at once, and reads only the
/// beginning of the first answer. The answers have 28 MiB together, which is more than a connection
/// can hold.
const MUCH: Sent = Sent::Often(b"SMEMBERS k\r\n", 224);

/// One client asks for much and does not read; another is served meanwhile, and leaves. Gives the
/// open connection.
fn redis_reads_no_more<R: Net>(rt: &R, alloc: Global, redis: SocketAddr) -> io::Result<R::Stream> {
    let mut silent = TcpStream::connect(rt, redis)?;
    fill(alloc, &mut silent)?;
    MUCH.send(alloc, &mut silent)?;
    expect(alloc, &mut silent, b"*32\r\n$4096\r\n")?;
    let other = Client {
        sent: &[Sent::Once(b"SADD a x\r\nSCARD k\r\n")],
        heard: b":1\r\n:32\r\n",
        end: End::Whole,
    };
    other.act(rt, alloc, redis)?;
    Ok(silent)
}

/// A server of two callers for them, whose stores have room for what they add.
const ROOMY: Size = Size {
    callers: 2,
    room: 1_000,
    speech: Speech::Redis,
    ..SMALL
};

/// A client that does not read holds up no other, and the server ends while it is open.
#[test]
fn a_redis_client_that_does_not_read_is_left(rt: HostRuntime) -> Result<(), Fail> {
    let alloc = rt.alloc();
    let pipe = io::pipe(&rt)?;
    let played = stay_beside(&rt, alloc, (ROOMY, WAITS), &Discard, pipe, |at| {
        redis_reads_no_more(&rt, alloc, at.redis)
    });
    let lines = "connection 1 ended\nconnection 0 write\n";
    check!(&rt; look_at(alloc, played, lines) == Some(GOOD));
    Ok(())
}
