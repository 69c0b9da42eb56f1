//! The connection of an operator, one call at a time.
ghost use Rattle.std.specs.Prelude.{◌≡◌, IfOk};

use super::devices::{PORT, drive};
use super::operators::RingValue;
use crate::checks::check;
use chord_app_operator::{Duplex, OperatorLink, OperatorService};
use std::hash::RandomState;
use std::io::{self, ErrorKind, Read, Write};
use std::test::Fail;

/// A request whose connection ends behind its answer.
const HEALTH: &[u8] = b"GET /health HTTP/1.1\r\nHost: 127.0.0.1:7001\r\nConnection: close\r\n\r\n";

/// Its answer: 200 `ok`.
const OK: &[u8] =
    b"HTTP/1.1 200 OK\r\ncontent-type: text/plain; charset=utf-8\r\ncache-control: no-store\r\ncontent-length: 3\r\nconnection: close\r\n\r\nok\n";

/// A link that reads this.
type Link<R, W> = OperatorLink<RingValue, R, W>;

/// A link over this stream.
fn link_over<R: Read, W: Write>(rt: &HostRuntime, reader: R, writer: W) -> Result<Link<R, W>, Fail>
where
    R: Drop,
    W: Drop,
{
    let alloc = rt.alloc();
    let service = OperatorService::new(alloc, PORT, RingValue::new(alloc))?;
    let stream = Duplex { reader, writer };
    Ok(OperatorLink::new(RandomState::new(rt)?, service, stream))
}

/// What a link says of itself.
#[derive(Clone, Copy, Debug, PartialEq, Eq)]
struct Says {
    wants_read: bool,
    wants_write: bool,
    is_done: bool,
}

fn seen<R: Read, W: Write>(link: &Link<R, W>) -> Says {
    Says {
        wants_read: link.wants_read(),
        wants_write: link.wants_write(),
        is_done: link.is_done(),
    }
}

const READS: Says = Says {
    wants_read: true,
    wants_write: false,
    is_done: false,
};

const WRITES: Says = Says {
    wants_read: false,
    wants_write: true,
    is_done: false,
};

const IS_DONE: Says = Says {
    wants_read: false,
    wants_write: false,
    is_done: true,
};

/// It reads a request, answers it, and writes the answer, which is the last one.
#[test]
fn a_link_reads_answers_and_writes(rt: HostRuntime) -> Result<(), Fail> {
    let mut link = link_over(&rt, HEALTH, Vec::new(rt.alloc()))?;
    check!(&rt; seen(&link) == READS, "it begins by a read");
    check!(&rt; link.read_from()? == HEALTH.len(), "the request comes at once");
    check!(&rt; seen(&link) == READS, "nothing is answered yet");
    link.told();
    link.advance();
    check!(&rt; seen(&link) == WRITES, "the answer is to be written");
    check!(&rt; link.read_from()? == 0, "nothing more is read");
    check!(&rt; drive(&mut link).is_ok(), "it comes to its end");
    check!(&rt; seen(&link) == IS_DONE, "nothing is left to do");
    check!(&rt; link.write_to()? == 0, "nothing more is written");
    let (service, stream) = link.into_parts();
    check!(&rt; stream.writer.as_slice() == OK, "the answer");
    check!(&rt; stream.reader.is_empty(), "all was read");
    check!(&rt; service.into_operator().asked.as_slice() == b"h".as_slice(), "one question");
    Ok(())
}

/// One end of a stream, which moves one byte at each second call, and asks to be called again at
/// the others.
#[derive(Drop)]
struct Slow<T> {
    inner: T,
    is_ready: bool,
}

impl<T> Slow<T> {
    fn turn(&mut self) -> io::Result<()> {
        self.is_ready = !self.is_ready;
        if self.is_ready {
            Ok(())
        } else {
            Err(io::Error::from(ErrorKind::WouldBlock))
        }
    }
}

impl<R: Read> Read for Slow<R> {
    fn read(&mut self, buffer: &mut [u8]) -> io::Result<usize> {
        self.turn()?;
        let most = buffer.len().min(1);
        self.inner.read(&mut buffer[..most])
    }
}

impl<W: Write> Write for Slow<W> {
    fn write(&mut self, bytes: &[u8]) -> io::Result<usize> {
        self.turn()?;
        self.inner.write(&bytes[..bytes.len().min(1)])
    }

    fn flush(&mut self) -> io::Result<()> {
        self.inner.flush()
    }
}

/// A byte at a time comes, and a byte at a time is taken.
#[test]
fn a_slow_stream_gets_the_same_answer_once(rt: HostRuntime) -> Result<(), Fail> {
    let reader = Slow {
        inner: HEALTH,
        is_ready: true,
    };
    let writer = Slow {
        inner: Vec::new(rt.alloc()),
        is_ready: true,
    };
    let mut link = link_over(&rt, reader, writer)?;
    check!(&rt; drive(&mut link).is_ok());
    let (service, stream) = link.into_parts();
    check!(&rt; stream.writer.inner.as_slice() == OK);
    check!(&rt; service.into_operator().asked.as_slice() == b"h".as_slice());
    drop(stream);
    Ok(())
}

/// One end of a stream that fails so, or moves nothing.
#[derive(Drop)]
struct Broken {
    kind: Option<ErrorKind>,
}

impl Broken {
    fn moves(&self) -> io::Result<usize>
        ensures { IfOk result (λ count. count ≡ 0) }
    {
        match self.kind {
            Some(kind) => Err(io::Error::from(kind)),
            None => Ok(0),
        }
    }
}

impl Read for Broken {
    fn read(&mut self, _buffer: &mut [u8]) -> io::Result<usize> {
        self.moves()
    }
}

impl Write for Broken {
    fn write(&mut self, _bytes: &[u8]) -> io::Result<usize> {
        self.moves()
    }

    fn flush(&mut self) -> io::Result<()> {
        Ok(())
    }
}

/// How a stream fails, and what a link says behind that: one that is to be called again goes on.
const FAILURES: &[(Option<ErrorKind>, bool)] = &[
    (None, true),
    (Some(ErrorKind::BrokenPipe), true),
    (Some(ErrorKind::ConnectionReset), true),
    (Some(ErrorKind::WouldBlock), false),
    (Some(ErrorKind::Interrupted), false),
];

#[test]
fn a_failing_write_ends_a_link(rt: HostRuntime) -> Result<(), Fail> {
    for (kind, is_over) in FAILURES {
        let mut link = link_over(&rt, HEALTH, Broken { kind: *kind })?;
        link.read_from()?;
        link.advance();
        let written = link.write_to().map_err(|error| error.kind());
        check!(&rt; written.err() == *kind, "the writer's error");
        let wanted = if *is_over { IS_DONE } else { WRITES };
        check!(&rt; seen(&link) == wanted);
        link.advance();
        let (service, stream) = link.into_parts();
        check!(&rt; service.into_operator().asked.as_slice() == b"h".as_slice());
        drop(stream);
    }
    Ok(())
}

/// Without a request the end of the input ends a link too, which writes nothing then.
#[test]
fn a_failing_read_ends_a_link(rt: HostRuntime) -> Result<(), Fail> {
    for (kind, is_over) in FAILURES {
        let mut link = link_over(&rt, Broken { kind: *kind }, Vec::new(rt.alloc()))?;
        let read = link.read_from().map_err(|error| error.kind());
        check!(&rt; read.err() == *kind, "the reader's error");
        link.advance();
        let wanted = if *is_over { IS_DONE } else { READS };
        check!(&rt; seen(&link) == wanted);
        let (service, stream) = link.into_parts();
        check!(&rt; stream.writer.is_empty() && service.into_operator().asked.is_empty());
        drop(stream);
    }
    Ok(())
}
