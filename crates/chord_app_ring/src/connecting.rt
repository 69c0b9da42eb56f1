//! Connections to an operator's port.

use crate::fault::RingFault;
use std::net::{Ipv4Addr, Net, TcpStream};
use std::time::Duration;

/// For how many seconds the server may be silent.
const SILENCE_SECONDS: u64 = 10;

/// A connection to the server with this operator's port.
pub fn connect<R: Net<Stream = TcpStream>>(rt: &R, port: u16) -> Result<TcpStream, RingFault> {
    match TcpStream::connect(rt, (Ipv4Addr::LOCALHOST, port)) {
        Ok(stream) => {
            let silence = Some(Duration::from_secs(SILENCE_SECONDS));
            let _ = stream.set_read_timeout(silence).is_ok();
            let _ = stream.set_write_timeout(silence).is_ok();
            Ok(stream)
        }
        Err(error) => Err(RingFault::Connect(error.kind())),
    }
}
