//! A client's connection, and the session that may go on over others.

use crate::ask::tokens::Tokens;
use chord_app_text::{Fault, Finish};
use chord_serve::{BeginFault, CallFault, OpenFault, ResumeFault, WireClient};
use chord_wire::Token;
use std::alloc::Global;
use std::net::{Ipv4Addr, Net, Shutdown, TcpStream};
use std::thread;
use std::time::{Clock, Duration};

/// How many reads are made for one answer at most: the most bytes that its frame may have.
pub const READS: u64 = 4_194_304;

/// How long to wait before each try to resume a session, in milliseconds.
const WAITS: [u64; 3] = [50, 200, 800];

/// Whether a connection can still be used.
#[derive(Clone, Copy, Debug, PartialEq, Eq)]
pub enum LinkState {
    Open,
    Broken,
    /// The server has no caller for it, and did nothing.
    CallersSpent,
}

/// Where a server is, and how it is asked.
#[derive(Clone, Copy, Debug)]
pub struct ClientOptions {
    /// Its port on 127.0.0.1.
    pub port: u16,
    /// The version of the protocol.
    pub version: u8,
    pub window: u64,
    /// How many times a request is sent at most.
    pub tries: u32,
    /// The tokens of its sessions, which are of version 2; without them it has none.
    pub tokens: Option<Tokens>,
}

/// A connection, and the requests in flight on it.
#[derive(Drop)]
pub struct Link {
    pub stream: TcpStream,
    pub client: WireClient,
    port: u16,
    /// That of its session, if it has one.
    token: Option<Token>,
    /// Whether the server had no caller for it.
    is_spent: bool,
    /// How many tries to resume there were in a row, with no answer between them.
    tries: usize,
}

/// A connection to the server at this port.
fn connect<R: Net<Stream = TcpStream>>(rt: &R, port: u16) -> Result<TcpStream, Finish> {
    match TcpStream::connect(rt, (Ipv4Addr::LOCALHOST, port)) {
        Ok(stream) => {
            let _ = stream.set_nodelay(true).is_ok();
            Ok(stream)
        }
        Err(error) => {
            let reason = error.kind();
            Err(Finish::Fault(Fault::Connect { port, reason }))
        }
    }
}

impl Link {
    /// A new connection, whose numbers begin at 1, and the session of this token.
    pub fn open<R: Net<Stream = TcpStream>>(
        rt: &R,
        alloc: Global,
        client_options: ClientOptions,
        token: Option<Token>,
    ) -> Result<Link, Finish> {
        let Some(client) = WireClient::new(alloc, client_options.version, client_options.window)
        else {
            return Err(Finish::BadCommandLine);
        };
        let port = client_options.port;
        let stream = match connect(rt, port) {
            Ok(stream) => stream,
            Err(finish) => {
                drop(client);
                return Err(finish);
            }
        };
        let mut link = Link {
            stream,
            client,
            port,
            token,
            is_spent: false,
            tries: 0,
        };
        match link.begin() {
            Ok(()) => Ok(link),
            Err(finish) => {
                drop(link);
                Err(finish)
            }
        }
    }

    /// Begins its session, if it has one.
    fn begin(&mut self) -> Result<(), Finish> {
        let Some(token) = self.token else {
            return Ok(());
        };
        let mut reader = &self.stream;
        let mut writer = &self.stream;
        match self.client.begin(&mut reader, &mut writer, token, READS) {
            Ok(()) => Ok(()),
            Err(BeginFault::Open(OpenFault::CallersSpent)) => {
                self.is_spent = true;
                Ok(())
            }
            Err(BeginFault::Open(OpenFault::Call(CallFault::Memory))) => Err(Finish::OutOfMemory),
            Err(_) => Err(Finish::Fault(Fault::NoSession { port: self.port })),
        }
    }

    /// Whether the server had no caller for it.
    pub fn is_spent(&self) -> bool {
        self.is_spent
    }

    /// Takes note that an answer came.
    pub fn note_answer(&mut self) {
        self.tries = 0;
    }

    /// Goes on with its session over another connection, in three tries at most. Says whether it
    /// does: not without a session, nor with one that the server no longer keeps.
    pub fn resume<R: Net<Stream = TcpStream> + Clock>(&mut self, rt: &R) -> Result<bool, Finish> {
        let Some(token) = self.token else {
            return Ok(false);
        };
        let _ = self.stream.shutdown(Shutdown::Both).is_ok();
        for place in self.tries..WAITS.len() {
            self.tries = place + 1;
            thread::sleep(rt, Duration::from_millis(WAITS[place]));
            let Ok(stream) = connect(rt, self.port) else {
                continue;
            };
            self.stream = stream;
            let mut reader = &self.stream;
            let mut writer = &self.stream;
            match self.client.resume(&mut reader, &mut writer, token, READS) {
                Ok(()) => return Ok(true),
                Err(ResumeFault::Memory)
                | Err(ResumeFault::Open(OpenFault::Call(CallFault::Memory))) => {
                    return Err(Finish::OutOfMemory);
                }
                Err(ResumeFault::Open(OpenFault::NoSession)) => return Ok(false),
                Err(_) => {}
            }
        }
        Ok(false)
    }

    /// Ends its session, if nothing is awaited, and the connection. Waits at most a second for each
    /// read of the server's answer.
    pub fn close(self) {
        if self.token.is_some() && !self.is_spent {
            let wait = Some(Duration::from_secs(1));
            let _ = self.stream.set_read_timeout(wait).is_ok();
            let mut reader = &self.stream;
            let mut writer = &self.stream;
            let _ = self.client.close(&mut reader, &mut writer, READS).is_ok();
        }
        drop(self);
    }
}
