//! A server of a ring of two nodes, and who asks it, each on a thread of its own.

use crate::plans::two_stores;
use chord_app_plan::Plan;
use chord_app_serve::{WholeRing, serve, stay};
use chord_app_sockets::{ClientLimits, Doors, Host, OperatorPort, ServerSetup};
use chord_app_text::Finish;
use chord_serve_testkit::{Addresses, bound};
use log::Log;
use std::alloc::{AllocError, Global};
use std::hash::RandomState;
use std::io::{self, PipeReader};
use std::net::{Net, TcpListener, TcpStream};

/// What clients speak at the doors of a server.
#[derive(Clone, Copy, Debug, PartialEq, Eq)]
pub enum Speech {
    Frames,
    Redis,
    Both,
}

/// How large a server is, and at which ports it listens.
#[derive(Clone, Copy)]
pub struct Size {
    pub callers: u64,
    /// How many pairs the store of each of the two nodes has room for.
    pub room: u64,
    /// How many nodes there may be at once beside the two of the plan.
    pub joining: usize,
    /// How often a request is sent at most. Each sending is waited for a tenth of a second.
    pub tries: u64,
    pub speech: Speech,
    /// The keys of the operator's port, if it has one.
    pub operator: Option<RandomState>,
}

/// A server of one caller, for clients that speak in frames.
pub const SMALL: Size = Size {
    callers: 1,
    room: 4,
    joining: 0,
    tries: 100,
    speech: Speech::Frames,
    operator: None,
};

/// When a server ends.
#[derive(Drop)]
pub enum Ending {
    /// After this many connections.
    Connections(usize),
    /// Once this input ends. Clients may be silent for these seconds.
    Input(PipeReader, ClientLimits),
}

impl Ending {
    /// How many connections it waits for, if that ends it.
    pub fn connections(&self) -> usize {
        match self {
            Ending::Connections(connections) => *connections,
            Ending::Input(..) => 0,
        }
    }
}

/// Where a server can listen.
#[derive(Drop)]
pub struct Listeners {
    frames: TcpListener,
    redis: TcpListener,
    operator: TcpListener,
}

/// Listeners at ports of their own, and their addresses.
pub fn all_bound<R: Net<Listener = TcpListener, Stream = TcpStream>>(
    rt: &R,
) -> Option<(Listeners, Addresses)> {
    let (frames, frames_at) = bound(rt)?;
    let (redis, redis_at) = bound(rt)?;
    let (operator, operator_at) = bound(rt)?;
    let listeners = Listeners {
        frames,
        redis,
        operator,
    };
    let addresses = Addresses {
        frames: frames_at,
        redis: redis_at,
        operator: operator_at,
    };
    Some((listeners, addresses))
}

impl Listeners {
    /// The operator's port, if it has these keys.
    fn operator_port(&self, keys: Option<RandomState>) -> Option<OperatorPort<'_>> {
        match keys {
            Some(keys) => Some(OperatorPort {
                listener: &self.operator,
                keys,
                process: None,
            }),
            None => None,
        }
    }

    fn doors(&self, speech: Speech) -> Doors<'_> {
        match speech {
            Speech::Frames => Doors::Frames(&self.frames),
            Speech::Redis => Doors::Redis(&self.redis),
            Speech::Both => Doors::Both {
                frames: &self.frames,
                redis: &self.redis,
            },
        }
    }
}

/// Serves until its end, and gives what was written. It counts as a bad plan where the ring had not
/// a caller for each of its connections, as long as it may have any, or more than that for a server
/// that stays.
fn serve_on<'a, R: Host, L: Log + Sync>(
    rt: &R,
    alloc: Global,
    plan: &'a Plan,
    size: Size,
    listeners: &'a Listeners,
    ending: Ending,
    notes: &'a L,
) -> Result<Vec<u8>, Finish> {
    let mut written: Vec<u8> = Vec::new(alloc);
    let stores = two_stores(alloc, size.room)?;
    let doors = listeners.doors(size.speech);
    let operator = listeners.operator_port(size.operator);
    let mut settings = plan.settings_with(Some(size.joining.saturating_add(2)), None);
    settings.tries = size.tries;
    let setup = ServerSetup {
        alloc,
        plan,
        settings,
        doors,
        operator,
        journal: None,
        notes,
    };
    let has_its_callers = match ending {
        Ending::Connections(connections) => {
            let callers = connections.min(settings.callers);
            serve(rt, &setup, stores, connections, &mut written)?
                == (WholeRing { nodes: 2, callers })
        }
        Ending::Input(input, seconds) => {
            let ring = stay(rt, &setup, stores, seconds, Some(input), &mut written)?;
            2 <= ring.nodes && ring.callers <= settings.callers
        }
    };
    if !has_its_callers {
        drop(written);
        return Err(Finish::BadPlan);
    }
    Ok(written)
}

/// Serves until its end, and gives what was written. From then on nobody can connect.
pub fn serve_at<R: Host, L: Log + Sync>(
    rt: &R,
    alloc: Global,
    plan: &Plan,
    size: Size,
    listeners: Listeners,
    ending: Ending,
    notes: &L,
) -> Result<Vec<u8>, Finish> {
    let written = serve_on(rt, alloc, plan, size, &listeners, ending, notes);
    drop(listeners);
    written
}

/// Ends a server that still waits for clients, of which it takes this many.
pub fn end_waiting<R: Net<Stream = TcpStream>>(rt: &R, at: Addresses, connections: usize) {
    for _ in 0..connections {
        drop(TcpStream::connect(rt, at.frames));
        drop(TcpStream::connect(rt, at.redis));
    }
}

/// What a server wrote.
#[derive(Drop)]
pub struct Written {
    at: Addresses,
    speech: Speech,
    is_operated: bool,
    pub written: Result<Vec<u8>, Finish>,
}

impl Written {
    /// What a server of this size wrote, at these addresses.
    pub fn of(size: Size, at: Addresses, written: Result<Vec<u8>, Finish>) -> Written {
        Written {
            at,
            speech: size.speech,
            is_operated: size.operator.is_some(),
            written,
        }
    }

    /// The lines that tell where it listens, and then these.
    fn lines(&self, alloc: Global, rest: &str) -> Result<String, AllocError> {
        let Addresses {
            frames,
            redis,
            operator,
        } = self.at;
        let mut text = match self.speech {
            Speech::Frames => format!(in alloc; "listening on {frames}\n")?,
            Speech::Redis => format!(in alloc; "redis on {redis}\n")?,
            Speech::Both => format!(in alloc; "listening on {frames}\nredis on {redis}\n")?,
        };
        if self.is_operated {
            let line = format!(in alloc; "operator on {operator}\n")?;
            text.push_str(line.as_str())?;
        }
        text.push_str(rest)?;
        Ok(text)
    }

    /// Whether it wrote where it listens, and then these lines.
    pub fn has(&self, alloc: Global, rest: &str) -> bool {
        let wanted = self.lines(alloc, rest);
        let is_so = match (&self.written, &wanted) {
            (Ok(written), Ok(wanted)) => written.as_slice() == wanted.as_bytes(),
            _ => false,
        };
        drop(wanted);
        is_so
    }
}

/// What a test finds.
#[derive(Clone, Copy, Debug, PartialEq, Eq)]
pub struct Found {
    /// Whether each was answered as it expects.
    pub is_answered: bool,
    /// Whether the server's lines are right.
    pub is_written: bool,
}

/// All is as it should be.
pub const GOOD: Found = Found {
    is_answered: true,
    is_written: true,
};

/// What a test finds once server and clients are done. `lines` are those that the server must write
/// after the ones that tell where it listens.
pub fn look_at<T: Drop>(
    alloc: Global,
    played: Option<(Written, io::Result<T>)>,
    lines: &str,
) -> Option<Found> {
    let (written, told) = played?;
    let found = Found {
        is_answered: told.is_ok(),
        is_written: written.has(alloc, lines),
    };
    drop(told);
    drop(written);
    Some(found)
}
