//! A connection in memory: what a client sent, and what it got.

use super::operators::RingValue;
use chord_app_operator::{Duplex, OperatorLink, OperatorService};
use std::alloc::Global;
use std::hash::RandomState;
use std::io::{self, ErrorKind, Read, Write};
use std::test::Fail;

/// The port of all tests.
pub const PORT: u16 = 7001;

pub const CONFLICT: &str = "409 Conflict";

pub const NOT_FOUND: &str = "404 Not Found";

/// What a client got, and what the operator was asked.
#[derive(Drop)]
pub struct Exchange {
    pub got: Vec<u8>,
    pub operator: RingValue,
}

impl Exchange {
    /// Whether the client got exactly this.
    pub fn got_text(&self, text: &str) -> bool {
        self.got.as_slice() == text.as_bytes()
    }

    /// Whether what the client got begins with this.
    pub fn begins(&self, text: &str) -> bool {
        self.got.starts_with(text.as_bytes())
    }

    /// Whether what the client got ends with this.
    pub fn ends(&self, text: &str) -> bool {
        self.got.ends_with(text.as_bytes())
    }

    /// Whether the client was refused with this status, by this name.
    pub fn is_refused(&self, alloc: Global, status: &str, name: &str) -> Result<bool, Fail> {
        Ok(self.has_status(alloc, status)? && self.has_name(alloc, name)?)
    }

    fn has_status(&self, alloc: Global, status: &str) -> Result<bool, Fail> {
        let head = format!(in alloc; "HTTP/1.1 {status}\r\n")?;
        let begins = self.begins(&head);
        drop(head);
        Ok(begins)
    }

    fn has_name(&self, alloc: Global, name: &str) -> Result<bool, Fail> {
        let end = format!(in alloc; "\r\n\r\n{{\"refused\":\"{name}\"}}")?;
        let ends = self.ends(&end);
        drop(end);
        Ok(ends)
    }

    /// Whether the operator was asked for these calls and no others, by their letters.
    pub fn asked(&self, letters: &[u8]) -> bool {
        self.operator.asked.as_slice() == letters
    }
}

/// Serves one connection, whose client sends this text and then no more.
pub fn serve_text(rt: &HostRuntime, operator: RingValue, sent: &str) -> Result<Exchange, Fail> {
    serve_bytes(rt, operator, sent.as_bytes())
}

/// The same for bytes.
pub fn serve_bytes(rt: &HostRuntime, operator: RingValue, sent: &[u8]) -> Result<Exchange, Fail> {
    let alloc = rt.alloc();
    let service = OperatorService::new(alloc, PORT, operator)?;
    let stream = Duplex {
        reader: sent,
        writer: Vec::new(alloc),
    };
    let mut link = OperatorLink::new(RandomState::new(rt)?, service, stream);
    let driven = drive(&mut link);
    let (service, stream) = link.into_parts();
    let exchange = Exchange {
        got: stream.writer,
        operator: service.into_operator(),
    };
    driven?;
    Ok(exchange)
}

/// Reads, answers and writes until the link is done. Fails if that does not come.
pub fn drive<R: Read, W: Write>(link: &mut OperatorLink<RingValue, R, W>) -> io::Result<()> {
    for _ in 0..100_000u64 {
        link.advance();
        if link.is_done() {
            return Ok(());
        }
        let moved = if link.wants_write() {
            link.write_to()
        } else {
            link.read_from()
        };
        let _ = moved.is_ok();
    }
    Err(io::Error::from(ErrorKind::TimedOut))
}

/// A request to the port's own host.
fn request(alloc: Global, line: &str, fields: &str, body: &str) -> Result<String, Fail> {
    let len = body.len();
    Ok(format!(in alloc;
        "{line} HTTP/1.1\r\nHost: 127.0.0.1:7001\r\n{fields}Content-Length: {len}\r\n\r\n{body}"
    )?)
}

/// Serves one request of a plain client.
pub fn ask(
    rt: &HostRuntime,
    operator: RingValue,
    line: &str,
    body: &str,
) -> Result<Exchange, Fail> {
    match request(rt.alloc(), line, "", body) {
        Ok(sent) => {
            let seen = serve_text(rt, operator, &sent);
            drop(sent);
            seen
        }
        Err(fail) => {
            drop(operator);
            Err(fail)
        }
    }
}

/// Serves one request that has these fields and no body.
pub fn ask_with_fields(rt: &HostRuntime, line: &str, fields: &str) -> Result<Exchange, Fail> {
    let sent = request(rt.alloc(), line, fields, "")?;
    let seen = serve_text(rt, RingValue::new(rt.alloc()), &sent);
    drop(sent);
    seen
}
