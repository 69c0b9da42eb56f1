//! When a server ends.
ghost use Rattle.std.specs.Prelude.{◌≡◌, true};
ghost use Rattle.chord_app_sockets.specs.Until.{most_of, turns_of, read_size, idle_of, session_seconds, buffers_of, can_be_stopped};

use crate::stop::Stop;
use chord_serve::ReadSize;
use std::net::Net;
use std::time::Clock;

/// How many reads a connection makes at most, if the server ends after some connections.
const TURNS: u64 = 65_536;

/// For how many seconds a session without a connection is kept, if the server ends after some
/// connections.
const SESSION_SECONDS: u64 = 600;

/// How many bytes the connections of a server hold at most that ends after some of them.
const BUFFER_BYTES: u64 = 268_435_456;

/// What clients of a server that stays are allowed.
#[derive(Clone, Copy, Debug, PartialEq, Eq)]
pub struct ClientLimits {
    /// For how many seconds one may be idle.
    pub idle: u64,
    /// For how many seconds its session is kept that has no connection, though its caller is
    /// needed. For 0 none is kept.
    pub keep: u64,
    /// How many bytes all connections may hold, of requests that are not answered and of answers
    /// that are not written.
    pub buffers: u64,
}

/// When a server takes no more connections.
#[derive(Clone, Copy)]
pub enum Until<'a> {
    /// After this many. Each has a caller of its own.
    Connections(usize),
    /// Once `stop` is stopped. Callers serve one connection after another.
    Stopped {
        stop: &'a Stop,
        limits: ClientLimits,
    },
}

impl<'a> Until<'a> {
    pub fn most(self) -> u64
        ensures { result ≡ most_of self.entry }
    {
        match self {
            Until::Connections(connections) => connections as u64,
            Until::Stopped { .. } => u64::MAX,
        }
    }

    pub fn turns(self) -> u64
        ensures { result ≡ turns_of self.entry }
    {
        match self {
            Until::Connections(_) => TURNS,
            Until::Stopped { .. } => u64::MAX,
        }
    }

    /// How many bytes one read of a connection takes at most.
    pub fn read_size(self) -> ReadSize
        ensures { result ≡ read_size self.entry }
    {
        match self {
            Until::Connections(_) => ReadSize::Small,
            Until::Stopped { .. } => ReadSize::Large,
        }
    }

    /// Whether a caller serves further connections.
    pub fn keeps_callers(self) -> bool
        ensures { result ≡ can_be_stopped self.entry }
    {
        matches!(self, Until::Stopped { .. })
    }

    /// For how many seconds a client may be idle, if there is a limit.
    pub fn idle(self) -> Option<u64>
        ensures { result ≡ idle_of self.entry }
    {
        match self {
            Until::Connections(_) => None,
            Until::Stopped { limits, .. } => Some(limits.idle),
        }
    }

    /// For how many seconds a session without a connection is kept, and longer while nobody needs
    /// its caller. For 0 none is kept.
    pub fn session_seconds(self) -> u64
        ensures { result ≡ session_seconds self.entry }
    {
        match self {
            Until::Connections(_) => SESSION_SECONDS,
            Until::Stopped { limits, .. } => limits.keep,
        }
    }

    /// How many bytes all connections may hold.
    pub fn buffers(self) -> u64
        ensures { result ≡ buffers_of self.entry }
    {
        match self {
            Until::Connections(_) => BUFFER_BYTES,
            Until::Stopped { limits, .. } => limits.buffers,
        }
    }

    /// Whether the server was stopped.
    pub fn is_stopped(self) -> bool
        ensures { result ≡ true → can_be_stopped self.entry ≡ true }
    {
        match self {
            Until::Connections(_) => false,
            Until::Stopped { stop, .. } => stop.is_stopped(),
        }
    }

    /// Stops the server, if it is one that can be stopped and that was not.
    pub fn stop<R: Net + Clock>(self, rt: &R) {
        match self {
            Until::Connections(_) => {}
            Until::Stopped { stop, .. } => {
                if !stop.is_stopped() {
                    stop.stop(rt);
                }
            }
        }
    }
}
