//! How operators are served, and how their connections end.

use crate::checks::check;
use chord_app_loop::{OperatorGate, OperatorLimits, OperatorLoop, Reception};
use chord_app_operator::{
    CrashRefusal, CrashRequest, HealthSight, Holder, JoinRefusal, JoinRequest, LeaveRefusal,
    Operator, OperatorService, PairsPage, PairsRequest, RescueRefusal, RingSight,
};
use chord_app_sockets::Stop;
use chord_ident::Id;
use chord_serve_testkit::{expect, expect_end};
use std::alloc::{AllocError, Global};
use std::hash::RandomState;
use std::io::{self, ErrorKind, Read, Write};
use std::net::{Net, SocketAddr, TcpListener, TcpStream};
use std::sync::Wait;
use std::test::Fail;
use std::thread;
use std::thread::Threads;
use std::time::{Clock, Duration, Instant};

/// The operator of no ring: all is well, and nothing can be done.
#[derive(Drop)]
struct Nobody;

impl Operator for Nobody {
    ghost answers = { λ _ _ _ _. Unit {0} };

    fn sight(&mut self, _alloc: Global) -> Result<RingSight, AllocError> {
        Err(AllocError)
    }

    fn health(&mut self) -> HealthSight {
        HealthSight {
            has_node: true,
            has_caller: true,
            is_stopped: false,
        }
    }

    fn join(&mut self, _request: JoinRequest) -> Result<u64, JoinRefusal> {
        Err(JoinRefusal::Stopped)
    }

    fn leave(&mut self, _node: u64) -> Result<(), LeaveRefusal> {
        Err(LeaveRefusal::NoSuchNode)
    }

    fn crash(&mut self, _request: CrashRequest) -> Result<(), CrashRefusal> {
        Err(CrashRefusal::NoSuchNode)
    }

    fn rescue(&mut self, _node: u64) -> Result<(), RescueRefusal> {
        Err(RescueRefusal::NoSuchNode)
    }

    fn holder(&mut self, _id: Id) -> Holder {
        Holder::Moved
    }

    fn pairs(&mut self, _alloc: Global, _request: PairsRequest) -> Result<PairsPage, AllocError> {
        Err(AllocError)
    }

    fn stop(&mut self) {}
}

/// The port of all tests, as its operators name it.
const PORT: u16 = 7001;

/// Who receives operators.
#[derive(Drop)]
struct House {
    alloc: Global,
}

impl Reception<Nobody> for House {
    fn receive(&self) -> Option<OperatorService<Nobody>> {
        OperatorService::new(self.alloc, PORT, Nobody).ok()
    }
}

/// A door for operators, and what ends it.
#[derive(Drop)]
struct Door {
    listener: TcpListener,
    address: SocketAddr,
    keys: RandomState,
    stop: Stop,
    limits: OperatorLimits,
}

/// Limits that no client of a test reaches unless that is what it tries.
const AMPLE: OperatorLimits = OperatorLimits {
    connections: 64,
    seconds: 30,
};

impl Door {
    fn open<R: Net<Listener = TcpListener, Stream = TcpStream>>(
        rt: &R,
        keys: RandomState,
        limits: OperatorLimits,
    ) -> io::Result<Door> {
        let listener = TcpListener::bind(rt, "127.0.0.1:0")?;
        let address = listener.local_addr()?;
        Ok(Door {
            listener,
            address,
            keys,
            stop: Stop::new(address),
            limits,
        })
    }

    /// Serves operators, until it is stopped.
    fn serve<R: Net<Listener = TcpListener, Stream = TcpStream> + Clock>(
        &self,
        rt: &R,
        alloc: Global,
    ) {
        let house = House { alloc };
        let gate = OperatorGate {
            listener: &self.listener,
            keys: self.keys,
            stop: &self.stop,
            limits: self.limits,
        };
        if let Ok(serving) = OperatorLoop::open(rt, alloc, gate, &house) {
            serving.run();
        }
    }

    /// A client. It waits for no answer for longer than 20 seconds.
    fn connect<R: Net<Stream = TcpStream>>(&self, rt: &R) -> io::Result<TcpStream> {
        let client = TcpStream::connect(rt, self.address)?;
        client.set_nodelay(true)?;
        client.set_read_timeout(Some(Duration::from_secs(20)))?;
        Ok(client)
    }
}

/// Serves operators at a door while this is done, and stops then.
fn beside<R, T, F>(rt: &R, alloc: Global, door: &Door, act: F) -> T
where
    R: Threads + Wait + Clock + Net<Listener = TcpListener, Stream = TcpStream> + Sync,
    T: Drop + Send,
    F: FnOnce() -> T + Send,
    requires { (f : _) → F.pre f }
{
    let (_, done) = thread::join(
        rt,
        || door.serve(rt, alloc),
        ||
            requires { (f : _) → F.pre f }
        {
            let done = act();
            door.stop.stop(rt);
            done
        },
    );
    done
}

/// A request, and its answer: 200 `ok`.
const HEALTH: &[u8] = b"GET /health HTTP/1.1\r\nHost: 127.0.0.1:7001\r\n\r\n";

const OK: &[u8] =
    b"HTTP/1.1 200 OK\r\ncontent-type: text/plain; charset=utf-8\r\ncache-control: no-store\r\ncontent-length: 3\r\n\r\nok\n";

/// The same behind which the connection ends.
const LAST: &[u8] = b"GET /health HTTP/1.1\r\nHost: 127.0.0.1:7001\r\nConnection: close\r\n\r\n";

const LAST_OK: &[u8] =
    b"HTTP/1.1 200 OK\r\ncontent-type: text/plain; charset=utf-8\r\ncache-control: no-store\r\ncontent-length: 3\r\nconnection: close\r\n\r\nok\n";

/// The first part of a request.
const PART: &[u8] = b"GET /health HTTP/1.1\r\nHo";

/// Asks, and expects the answer.
fn asks(alloc: Global, client: &mut TcpStream) -> io::Result<()> {
    client.write_all(HEALTH)?;
    expect(alloc, client, OK)
}

/// Three requests over one connection, the last with much behind it, which nobody reads.
fn ask_three<R: Net<Stream = TcpStream>>(rt: &R, alloc: Global, door: &Door) -> io::Result<()> {
    let mut client = door.connect(rt)?;
    asks(alloc, &mut client)?;
    asks(alloc, &mut client)?;
    client.write_all(LAST)?;
    client.write_all(&[0u8; 65_536])?;
    expect(alloc, &mut client, LAST_OK)?;
    expect_end(&mut client)
}

/// Three clients where there may be two: the first one, which is silent for the longest time, goes.
fn crowd_out<R: Net<Stream = TcpStream>>(rt: &R, alloc: Global, door: &Door) -> io::Result<()> {
    let mut first = door.connect(rt)?;
    asks(alloc, &mut first)?;
    let mut second = door.connect(rt)?;
    asks(alloc, &mut second)?;
    asks(alloc, &mut first)?;
    let mut third = door.connect(rt)?;
    asks(alloc, &mut third)?;
    expect_end(&mut second)?;
    asks(alloc, &mut first)?;
    asks(alloc, &mut third)
}

/// Sends a byte at a time of a request without end, until the connection is ended. Gives how long
/// that took.
fn trickle<R: Net<Stream = TcpStream> + Clock>(rt: &R, door: &Door) -> io::Result<Duration> {
    let begun = Instant::now(rt)?;
    let mut client = door.connect(rt)?;
    client.set_read_timeout(Some(Duration::from_millis(50)))?;
    client.write_all(PART)?;
    for _ in 0..400u64 {
        let _ = client.write(b"o").is_ok();
        match client.read(&mut [0u8; 1]) {
            Err(error) if error.kind() == ErrorKind::WouldBlock => {}
            _ => return begun.elapsed(rt),
        }
    }
    Err(io::Error::from(ErrorKind::TimedOut))
}

fn door_of(rt: &HostRuntime, limits: OperatorLimits) -> Result<Door, Fail> {
    Ok(Door::open(rt, RandomState::new(rt)?, limits)?)
}

#[test]
fn an_operator_is_answered_again_and_again(rt: HostRuntime) -> Result<(), Fail> {
    let door = door_of(&rt, AMPLE)?;
    let done = beside(&rt, rt.alloc(), &door, || ask_three(&rt, rt.alloc(), &door));
    check!(&rt; done.is_ok());
    Ok(())
}

#[test]
fn the_most_silent_operator_goes_for_another(rt: HostRuntime) -> Result<(), Fail> {
    let two = OperatorLimits {
        connections: 2,
        ..AMPLE
    };
    let door = door_of(&rt, two)?;
    let done = beside(&rt, rt.alloc(), &door, || crowd_out(&rt, rt.alloc(), &door));
    check!(&rt; done.is_ok());
    Ok(())
}

/// An operator that asks for nothing is ended after a second, though bytes come.
#[test]
fn bytes_that_trickle_extend_nothing(rt: HostRuntime) -> Result<(), Fail> {
    let short = OperatorLimits {
        seconds: 1,
        ..AMPLE
    };
    let door = door_of(&rt, short)?;
    let done = beside(&rt, rt.alloc(), &door, || trickle(&rt, &door));
    let time = done.unwrap_or(Duration::ZERO);
    check!(&rt; time >= Duration::from_millis(900) && time < Duration::from_secs(10));
    Ok(())
}

/// A client that was answered and sends nothing more, until the door is stopped.
fn be_stopped<R: Net<Stream = TcpStream> + Clock>(
    rt: &R,
    alloc: Global,
    door: &Door,
) -> io::Result<()> {
    let mut client = door.connect(rt)?;
    asks(alloc, &mut client)?;
    door.stop.stop(rt);
    expect_end(&mut client)
}

#[test]
fn a_stop_ends_an_operator(rt: HostRuntime) -> Result<(), Fail> {
    let door = door_of(&rt, AMPLE)?;
    let done = beside(
        &rt,
        rt.alloc(),
        &door,
        || be_stopped(&rt, rt.alloc(), &door),
    );
    check!(&rt; done.is_ok());
    Ok(())
}
