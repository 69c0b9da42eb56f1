//! A command at a scripted server over loopback. Neither waits for the other once that has ended.

use chord_app_ring::{RingCommand, RingLine, run_dump, run_ring};
use chord_app_text::{Fault, Finish};
use std::alloc::Global;
use std::io::{self, ErrorKind, Read, Write};
use std::net::{Ipv4Addr, Net, TcpListener, TcpStream};
use std::sync::Wait;
use std::thread;
use std::thread::Threads;
use std::time::Clock;

/// A command of an operator.
#[derive(Clone, Copy)]
pub enum Command {
    /// This one, done this often.
    Ask(RingCommand, u64),
    Dump,
}

/// What a client must send first, and what it is answered.
pub type Talk<'a> = (&'a [u8], &'a [u8]);

/// How a command ended, and whether it wrote these lines and these errors.
pub type Ran = (Result<Finish, Finish>, bool, bool);

/// Whether the stream's next bytes are these.
fn gets(alloc: Global, stream: &mut TcpStream, wanted: &[u8]) -> io::Result<bool> {
    let mut bytes = vec![in alloc; 0u8; wanted.len()]?;
    let read = stream.read_exact(&mut bytes);
    let is_same = bytes.as_slice() == wanted;
    drop(bytes);
    read?;
    Ok(is_same)
}

/// Answers the next clients, each over a connection of its own, while each sends what it must, and
/// says whether all did. From then on nobody can connect.
fn answer_all(alloc: Global, listener: TcpListener, talks: &[Talk<'_>]) -> io::Result<bool> {
    for ((asked, answer), accepted) in talks.iter().zip(listener.incoming()) {
        let mut stream = accepted?;
        if !gets(alloc, &mut stream, asked)? {
            return Ok(false);
        }
        stream.write_all(answer)?;
        drop(stream);
    }
    drop(listener);
    Ok(true)
}

impl Command {
    /// Does it at a port, where it is to write these lines and these errors.
    fn run<R: Net<Stream = TcpStream> + Clock + Wait>(
        self,
        rt: &R,
        alloc: Global,
        port: u16,
        (wanted, told): (&str, &str),
    ) -> Ran {
        let mut written: Vec<u8> = Vec::new(alloc);
        let mut errors: Vec<u8> = Vec::new(alloc);
        let finish = match self {
            Command::Ask(command, times) => {
                let line = RingLine {
                    port,
                    command,
                    times,
                };
                run_ring(rt, alloc, &line, &mut written, &mut errors)
            }
            Command::Dump => run_dump(rt, alloc, port, &mut written, &mut errors),
        };
        let is_written = written.as_slice() == wanted.as_bytes();
        let is_told = errors.as_slice() == told.as_bytes();
        drop(written);
        drop(errors);
        (finish, is_written, is_told)
    }

    /// Does it, and then ends a server that still waits for a client.
    fn run_and_end<R: Net<Stream = TcpStream> + Clock + Wait>(
        self,
        rt: &R,
        alloc: Global,
        port: u16,
        lines: (&str, &str),
    ) -> Ran {
        let ran = self.run(rt, alloc, port, lines);
        drop(TcpStream::connect(rt, (Ipv4Addr::LOCALHOST, port)));
        ran
    }

    /// Does it at a server with this script. None where not all of that was done.
    pub fn run_at<
        R: Threads + Wait + Clock + Net<Listener = TcpListener, Stream = TcpStream> + Sync,
    >(self, rt: &R, alloc: Global, talks: &[Talk<'_>], lines: (&str, &str)) -> Option<Ran> {
        let (listener, port) = bound(rt)?;
        let (answered, ran) = thread::join(
            rt,
            || answer_all(alloc, listener, talks),
            || self.run_and_end(rt, alloc, port, lines),
        );
        answered.ok()?.then_some(ran)
    }

    /// Does it at a port where nobody listens. Whether that is told, and nothing written.
    pub fn finds_nobody<R: Wait + Clock + Net<Listener = TcpListener, Stream = TcpStream>>(
        self,
        rt: &R,
        alloc: Global,
    ) -> Option<bool> {
        let (listener, port) = bound(rt)?;
        drop(listener);
        let reason = ErrorKind::ConnectionRefused;
        let wanted = Err(Finish::Fault(Fault::Connect { port, reason }));
        Some(self.run(rt, alloc, port, ("", "")) == (wanted, true, true))
    }
}

/// A listener, and its port.
fn bound<R: Net<Listener = TcpListener, Stream = TcpStream>>(rt: &R) -> Option<(TcpListener, u16)> {
    let listener = TcpListener::bind(rt, "127.0.0.1:0").ok()?;
    let port = listener.local_addr().ok()?.port();
    Some((listener, port))
}
