//! Clients of a server, over loopback.

use chord_map::{Bytes, Reply, Request, Values};
use chord_wire::{
    FaultCode, is_writable, write_fault, write_reply, write_request, write_request_2,
};
use std::alloc::{AllocError, Global};
use std::io::{self, Read, Write};
use std::net::{Net, OpenStream, Shutdown, SocketAddr, TcpListener, TcpStream};

/// A listener at a port of its own, and its address.
pub fn bound<R: Net<Listener = TcpListener, Stream = TcpStream>>(
    rt: &R,
) -> Option<(TcpListener, SocketAddr)> {
    let listener = TcpListener::bind(rt, "127.0.0.1:0").ok()?;
    let address = listener.local_addr().ok()?;
    Some((listener, address))
}

/// An insert of this value; all requests have the key abc.
pub fn insert(alloc: Global, value: &[u8]) -> Result<Box<Request>, AllocError> {
    Ok(Box::new(alloc, Request::insert(alloc, b"abc", value)?)?)
}

pub fn remove(alloc: Global, value: &[u8]) -> Result<Box<Request>, AllocError> {
    Ok(Box::new(alloc, Request::remove(alloc, b"abc", value)?)?)
}

pub fn retrieve(alloc: Global) -> Result<Box<Request>, AllocError> {
    Ok(Box::new(alloc, Request::retrieve(alloc, b"abc")?)?)
}

/// The frame of a request.
pub fn request_frame(alloc: Global, number: u64, request: &Request) -> io::Result<Vec<u8>> {
    match request.check() {
        Ok(()) => Ok(write_request(alloc, number, request)?),
        Err(_) => Err(io::Error::from(io::ErrorKind::InvalidInput)),
    }
}

/// The frame of a request of a session.
pub fn session_request_frame(
    alloc: Global,
    number: u64,
    floor: u64,
    request: &Request,
) -> io::Result<Vec<u8>> {
    match request.check() {
        Ok(()) if floor < number && number - floor <= 16 => {
            Ok(write_request_2(alloc, number, floor, request)?)
        }
        _ => Err(io::Error::from(io::ErrorKind::InvalidInput)),
    }
}

/// The frame of a reply.
pub fn reply_frame(alloc: Global, number: u64, reply: &Reply) -> io::Result<Vec<u8>> {
    if is_writable(reply) {
        Ok(write_reply(alloc, number, reply)?)
    } else {
        Err(io::Error::from(io::ErrorKind::InvalidInput))
    }
}

/// The frame of a fault.
pub fn fault_frame(alloc: Global, number: u64, code: FaultCode) -> io::Result<Vec<u8>> {
    if code == FaultCode::Memory {
        Err(io::Error::from(io::ErrorKind::InvalidInput))
    } else {
        Ok(write_fault(alloc, number, code)?)
    }
}

/// Expects these bytes next.
pub fn expect<S: Read>(alloc: Global, stream: &mut S, wanted: &[u8]) -> io::Result<()> {
    let mut got = vec![in alloc; 0u8; wanted.len()]?;
    stream.read_exact(&mut got)?;
    if got.as_slice() == wanted {
        Ok(())
    } else {
        Err(io::Error::from(io::ErrorKind::InvalidData))
    }
}

/// Expects no more bytes.
pub fn expect_end<S: Read>(stream: &mut S) -> io::Result<()> {
    let mut more = [0u8; 1];
    if stream.read(&mut more)? == 0 {
        Ok(())
    } else {
        Err(io::Error::from(io::ErrorKind::InvalidData))
    }
}

/// Sends the request, and expects this reply.
pub fn ask<S: Read + Write>(
    alloc: Global,
    stream: &mut S,
    number: u64,
    request: &Request,
    reply: &Reply,
) -> io::Result<()> {
    stream.write_all(&request_frame(alloc, number, request)?)?;
    expect(alloc, stream, &reply_frame(alloc, number, reply)?)
}

/// Adds 32 values of 4,096 bytes, 128 KiB together, by requests 1 to 32.
pub fn fill<S: Read + Write>(alloc: Global, stream: &mut S) -> io::Result<()> {
    for number in 0..32u8 {
        let value = vec![in alloc; number; 4_096]?;
        let request = insert(alloc, &value)?;
        ask(alloc, stream, number as u64 + 1, &request, &Reply::Added)?;
    }
    Ok(())
}

/// A reply of these values.
pub fn values_of(alloc: Global, all: &[&[u8]]) -> Result<Reply, AllocError> {
    let mut values = Values::new(alloc);
    for value in all {
        values.push(Bytes::from_slice(alloc, value)?)?;
    }
    Ok(Reply::Values(values.share()?))
}

/// Closes the client's sending side, and expects the server to close the connection.
pub fn leave<S: Read + OpenStream>(stream: &mut S) -> io::Result<()> {
    stream.shutdown(Shutdown::Write)?;
    expect_end(stream)
}
