//! Who takes part in a test: clients, their connections, and event loops.
ghost use Rattle.std.specs.Prelude.{◌≡◌};

use crate::askers::LateAsker;
use chord_app_loop::{Budget, Guest, Loops, Met, Owner, Rules, Socket};
use chord_app_sockets::{Clients, Ended};
use chord_resp_serve::{CommandProtocol, Informs, Moment, ServerInfo};
use chord_serve::{Link, Marks, ReadSize, Served};
use std::alloc::{AllocError, Global};
use std::net::{Net, TcpListener, TcpStream};
use std::os::fd::AsRawFd;
use std::sync::{Arc, Mutex, Wait};
use std::thread::Threads;
use std::time::{Clock, Duration};
use std::{io, thread};

/// A server that tells nothing of itself.
#[derive(Drop)]
pub struct Silent;

impl Informs for Silent {
    ghost tells = { λ _ _. Unit {0} };

    fn info(&self, alloc: Global) -> Result<Vec<u8>, AllocError> {
        Ok(Vec::new(alloc))
    }

    fn time(&self) -> Moment {
        Moment {
            seconds: 0,
            micros: 0,
        }
    }
}

/// What the clients of a test speak with.
pub type Commands<'t> = CommandProtocol<'t, LateAsker, Silent>;

/// What the connections of a test share.
#[derive(Drop)]
pub struct House<'t, R> {
    pub rt: &'t R,
    pub alloc: Global,
    pub clients: &'t Clients,
    source: &'t Silent,
    /// How often requests of keys that begin with `late` are tried in vain.
    pub misses: u32,
    /// How connections ended.
    ends: Mutex<Vec<(u64, Ended)>>,
    budget: Budget,
}

impl<'t, R: Wait> House<'t, R> {
    pub fn new(
        rt: &'t R,
        alloc: Global,
        clients: &'t Clients,
        source: &'t Silent,
        misses: u32,
        most_bytes: u64,
    ) -> House<'t, R> {
        House {
            rt,
            alloc,
            clients,
            source,
            misses,
            ends: Mutex::new(Vec::new(alloc)),
            budget: Budget::new(most_bytes),
        }
    }

    /// How many bytes its connections hold.
    pub fn held(&self) -> u64 {
        self.budget.held()
    }

    /// How the connection of this number ended, if it did.
    pub fn end_of(&self, number: u64) -> Option<Ended> {
        let ends = self.ends.lock(self.rt);
        ends.iter().find(|end| end.0 == number).map(|end| end.1)
    }
}

impl<R> Marks for House<'_, R> {
    ghost tells = { λ _ mark. mark ≡ 0 };

    fn mark(&self) -> u64 {
        0
    }
}

impl<'t, R: Wait> Owner<Commands<'t>, Socket<'t>> for House<'t, R> {
    fn meet(&self, guest: &Guest<Socket<'t>>) -> Met<Commands<'t>, Socket<'t>> {
        let Ok(stream) = Arc::try_clone(&guest.stream) else {
            return Met::Ended(Ended::Served(Served::Memory));
        };
        let server = ServerInfo {
            number: guest.number,
            source: self.source,
        };
        let asker = LateAsker::new(self.alloc, self.misses);
        let protocol = CommandProtocol::new(self.alloc, server, asker);
        Met::Begins(Link::new(self.alloc, protocol, Socket::new(stream, self.clients)))
    }

    fn hear_end(&self, number: u64, ended: &Ended, protocol: Option<Commands<'t>>) {
        drop(protocol);
        drop(self.ends.lock(self.rt).push((number, *ended)));
    }

    fn hear_close(&self, number: u64) {
        self.clients.forget(self.rt, number);
    }

    fn wants_end(&self) -> bool {
        self.clients.are_told_to_end()
    }

    fn budget(&self) -> &Budget {
        &self.budget
    }
}

/// No test holds this many bytes unless it is about that.
pub const AMPLE: u64 = 268_435_456;

/// The rules of a server that stays: requests wait for `patience` milliseconds.
pub fn rules(patience: u64) -> Rules {
    Rules {
        read_size: ReadSize::Large,
        turns: u64::MAX,
        idle: Some(60),
        longest_pause: Duration::from_millis(20),
        patience: Duration::from_millis(patience),
    }
}

/// Has a client connect, and gives its connection this number.
pub fn connect<'t, R: Wait + Net<Listener = TcpListener, Stream = TcpStream>>(
    house: &House<'t, R>,
    loops: &Loops<Commands<'t>, Socket<'t>>,
    number: u64,
) -> io::Result<TcpStream> {
    let listener = TcpListener::bind(house.rt, "127.0.0.1:0")?;
    let client = TcpStream::connect(house.rt, listener.local_addr()?)?;
    let (stream, _) = listener.accept()?;
    drop(listener);
    client.set_nodelay(true)?;
    client.set_read_timeout(Some(Duration::from_secs(20)))?;
    stream.set_nodelay(true)?;
    stream.set_nonblocking(true)?;
    let stream = Arc::new(house.alloc, stream)?;
    house.clients.add(house.rt, number, &stream)?;
    let socket = Socket::new(Arc::try_clone(&stream)?, house.clients);
    loops.add(house.rt, Guest::new(house.alloc, number, stream, socket));
    Ok(client)
}

/// Runs two event loops while this is done, and until all connections are closed.
pub fn beside<'t, R, T, F>(
    rt: &R,
    house: &House<'t, R>,
    loops: &Loops<Commands<'t>, Socket<'t>>,
    act: F,
) -> T
where
    R: Threads + Wait + Clock + Net + Sync,
    T: Drop + Send,
    F: FnOnce() -> T + Send,
    requires { (f : _) → F.pre f }
{
    let (_, (_, done)) = thread::join(
        rt,
        || loops.run(rt, house.alloc, house, 0),
        ||
            requires { (f : _) → F.pre f }
        {
            thread::join(
                rt,
                || loops.run(rt, house.alloc, house, 1),
                ||
                    requires { (f : _) → F.pre f }
                {
                    let done = act();
                    house.clients.wait_for_all(rt);
                    loops.end();
                    done
                },
            )
        },
    );
    done
}
