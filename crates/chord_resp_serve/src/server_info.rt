//! The server of a connection, and what it tells beside the answers to commands.
ghost use Rattle.chord_resp_serve.specs.Connections.{TellsProtocol};

use chord_resp::{ProtocolError, Refusal, put_refusal};
use chord_serve::{Due, Served};
use std::alloc::Global;

/// The server of a connection: the connection's number, and what INFO and TIME are answered.
#[derive_where(Clone, Copy)]
pub struct ServerInfo<'i, I> {
    pub number: u64,
    pub source: &'i I,
}

/// Tells that the bytes are no command, unless they are of another protocol: whoever made a browser
/// write those is told nothing.
pub(crate) fn tell_error(alloc: Global, due: &mut Due, error: ProtocolError) -> Served
    ensures { TellsProtocol error result due.old due.new }
{
    if error == ProtocolError::Foreign {
        return Served::Foreign;
    }
    match put_refusal(alloc, &mut due.bytes, &Refusal::Protocol(error)) {
        Ok(()) => Served::Protocol,
        Err(_) => Served::Memory,
    }
}
