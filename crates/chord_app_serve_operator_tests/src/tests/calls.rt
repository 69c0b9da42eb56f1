//! What an operator asks for, as lines of text, each with the answer that is due.

use std::alloc::{AllocError, Global};
use std::io::{self, Read, Write};
use std::net::{Net, SocketAddr, TcpStream};
use std::thread;
use std::time::{Clock, Duration};

/// The server is stopped.
pub const STOPS: &str = "POST /stop > 202 Accepted";

/// A line `METHOD PATH | FIELD | {BODY} > STATUS | HAS`. Field and body may be left out, and so may
/// what the answer has somewhere, in which `\r` and `\n` stand for these bytes. Behind `!` stands
/// what it does not have.
#[derive(Clone, Copy)]
struct Call {
    line: &'static str,
    field: &'static str,
    body: &'static str,
    status: &'static str,
    has: &'static str,
    /// Whether the answer does not have that.
    is_without: bool,
}

impl Call {
    /// None of a line of another form.
    fn of(text: &'static str) -> Option<Call> {
        let (asked, due) = text.split_once(" > ")?;
        let (status, told) = due.split_once(" | ").unwrap_or((due, ""));
        let is_without = told.starts_with("!");
        let mut parts = asked.split(" | ");
        let mut call = Call {
            line: parts.next()?,
            field: "",
            body: "",
            status,
            has: told.strip_prefix("!").unwrap_or(told),
            is_without,
        };
        for part in parts {
            if part.starts_with('{') {
                call.body = part;
            } else {
                call.field = part;
            }
        }
        Some(call)
    }

    /// What the answer has, with the bytes for which `\r` and `\n` stand.
    fn wanted(self, alloc: Global) -> Result<Vec<u8>, AllocError> {
        let mut wanted = Vec::new(alloc);
        for (place, part) in self.has.split('\\').enumerate() {
            let rest = match (place, part.as_bytes()) {
                (1.., [b'r', rest @ ..]) => {
                    wanted.push(b'\r')?;
                    rest
                }
                (1.., [b'n', rest @ ..]) => {
                    wanted.push(b'\n')?;
                    rest
                }
                (_, rest) => rest,
            };
            wanted.extend_from_slice(rest)?;
        }
        Ok(wanted)
    }

    /// The answer to a call.
    fn answer(
        self,
        alloc: Global,
        stream: &mut (impl Read + Write),
        port: u16,
    ) -> io::Result<Vec<u8>> {
        let Call {
            line,
            field,
            body,
            ..
        } = self;
        let len = body.len();
        let end = if field.is_empty() { "" } else { "\r\n" };
        let head = format!(in alloc; "{line} HTTP/1.1\r\nHost: 127.0.0.1:{port}\r\n{field}{end}")?;
        let rest = format!(in alloc; "Connection: close\r\nContent-Length: {len}\r\n\r\n{body}")?;
        stream.write_all(head.as_bytes())?;
        stream.write_all(rest.as_bytes())?;
        let mut got = Vec::new(alloc);
        stream.read_to_end(&mut got)?;
        Ok(got)
    }

    /// Whether the call is answered as is due.
    fn is_answered<R: Net>(self, rt: &R, alloc: Global, address: SocketAddr) -> io::Result<bool> {
        let mut stream = TcpStream::connect(rt, address)?;
        let got = self.answer(alloc, &mut stream, address.port())?;
        let status = self.status;
        let begins = format!(in alloc; "HTTP/1.1 {status}\r\n")?;
        let has = self.wanted(alloc)?;
        Ok(
            got.starts_with(begins.as_bytes())
                && (has.is_empty()
                    || got.windows(has.len()).any(|part| part == has.as_slice())
                        != self.is_without),
        )
    }
}

/// Calls until the answer is what is due, as once the ring has settled.
fn is_answered_soon<R: Net + Clock>(
    rt: &R,
    alloc: Global,
    address: SocketAddr,
    call: Call,
) -> io::Result<bool> {
    for _ in 0..2_000u64 {
        if call.is_answered(rt, alloc, address)? {
            return Ok(true);
        }
        thread::sleep(rt, Duration::from_millis(5));
    }
    Ok(false)
}

/// The first of these lines that is not answered as is due, even after some time. One that begins
/// with `#` says what comes.
pub fn unanswered<R: Net + Clock>(
    rt: &R,
    alloc: Global,
    address: SocketAddr,
    calls: &'static str,
) -> io::Result<Option<&'static str>> {
    let lines = calls.lines();
    for line in lines.filter(|line| !line.is_empty() && !line.starts_with('#')) {
        let is_answered = match Call::of(line) {
            Some(call) => is_answered_soon(rt, alloc, address, call)?,
            None => false,
        };
        if !is_answered {
            return Ok(Some(line));
        }
    }
    Ok(None)
}

/// Expects that each of these lines is answered as is due, at once or after some time.
pub fn each_is_answered<R: Net + Clock>(
    rt: &R,
    alloc: Global,
    address: SocketAddr,
    calls: &'static str,
) -> io::Result<()> {
    match unanswered(rt, alloc, address, calls)? {
        None => Ok(()),
        Some(_) => Err(io::Error::from(io::ErrorKind::InvalidData)),
    }
}
