//! One request and its answer over a stream.

use crate::command::RingCommand;
use crate::fault::RingFault;
use crate::inbox::{Answer, Inbox, Turn};
use crate::request::{pairs_bytes, request_bytes};
use chord_app_operator::PairsRequest;
use http1::{Client, Limits};
use std::alloc::{AllocError, Global};
use std::io::{ErrorKind, Read, Write};

/// How many bytes are read at once at most.
const CHUNK: usize = 4096;

/// Sends all bytes.
fn send<S: Write>(stream: &mut S, bytes: &[u8]) -> Result<(), RingFault> {
    if stream.write_all(bytes).is_err() || stream.flush().is_err() {
        return Err(RingFault::Lost);
    }
    Ok(())
}

/// Reads what comes next. At the end of the stream the answer ends or is lost. A read that a signal
/// interrupts is tried again.
fn read_more<S: Read>(stream: &mut S, inbox: &mut Inbox) -> Result<Turn, RingFault> {
    let mut chunk = [0u8; CHUNK];
    let count = match stream.read(&mut chunk) {
        Ok(count) => count,
        Err(error) if error.kind() == ErrorKind::Interrupted => return Ok(Turn::Again),
        Err(_) => return Err(RingFault::Lost),
    };
    if count == 0 {
        return inbox.end();
    }
    inbox.put(&chunk[..count])?;
    Ok(Turn::Again)
}

/// Reads until the answer is whole.
fn receive<S: Read>(stream: &mut S, inbox: &mut Inbox) -> Result<(), RingFault> {
    for _ in 0..u64::MAX {
        let turn = match inbox.turn()? {
            Turn::Read => read_more(stream, inbox)?,
            turn => turn,
        };
        if turn == Turn::Done {
            return Ok(());
        }
    }
    Err(RingFault::NotUnderstood)
}

/// Sends a request of this client, and takes its answer.
fn talk<S: Read + Write>(
    stream: &mut S,
    client: Client,
    request: Result<Vec<u8>, AllocError>,
) -> Result<Answer, RingFault> {
    let request = match request {
        Ok(request) => request,
        Err(refused) => {
            drop(client);
            return Err(RingFault::from(refused));
        }
    };
    let mut inbox = Inbox::new(*request.allocator(), client);
    let sent = send(stream, &request);
    drop(request);
    sent?;
    receive(stream, &mut inbox)?;
    Ok(inbox.into_answer())
}

/// Asks the server with this port for one thing over the stream to it, and takes its answer.
pub fn exchange<S: Read + Write>(
    alloc: Global,
    stream: &mut S,
    port: u16,
    command: &RingCommand,
) -> Result<Answer, RingFault> {
    let mut client = Client::new(Limits::default());
    let request = request_bytes(alloc, &mut client, port, command);
    talk(stream, client, request)
}

/// Asks the server with this port for a page of pairs, and takes its answer.
pub fn exchange_pairs<S: Read + Write>(
    alloc: Global,
    stream: &mut S,
    port: u16,
    request: PairsRequest,
) -> Result<Answer, RingFault> {
    let mut client = Client::new(Limits::default());
    let request = pairs_bytes(alloc, &mut client, port, request);
    talk(stream, client, request)
}
