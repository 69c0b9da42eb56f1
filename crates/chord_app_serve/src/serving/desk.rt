//! What the operators of a server share.
ghost use Rattle.std.specs.Prelude.{◌≡◌};
ghost use Rattle.chord_app_serve.specs.Shown.{store_of};

use crate::serving::process::process_sight;
use crate::serving::shown::store_shown;
use chord_app_operator::{ProcessSight, StoreKind};
use chord_app_plan::Plan;
use chord_app_sockets::{OperatorPort, ProcessFiles, ServerSetup, Stop};
use std::hash::RandomState;
use std::io;
use std::net::TcpListener;
use std::sync::atomic::AtomicU64;
use std::time::{Clock, Instant};

/// Where operators come in.
#[derive(Drop)]
pub struct OperatorDoor<'s> {
    pub listener: &'s TcpListener,
    pub port: u16,
    pub keys: RandomState,
    pub process: Option<&'s ProcessFiles>,
    /// Tells who serves them that the server ends.
    pub stop: Stop,
}

impl<'s> OperatorDoor<'s> {
    fn new(port: OperatorPort<'s>) -> io::Result<OperatorDoor<'s>> {
        let address = port.listener.local_addr()?;
        Ok(OperatorDoor {
            listener: port.listener,
            port: address.port(),
            keys: port.keys,
            process: port.process,
            stop: Stop::new(address),
        })
    }
}

/// The plan of a server, since when it runs, and where its operators come in, if there is a port
/// for them.
#[derive(Drop)]
pub struct Desk<'s> {
    pub plan: &'s Plan,
    /// None if the clock could not be read.
    began: Option<Instant>,
    /// How many identifiers were drawn for nodes that joined without one.
    pub draws: AtomicU64,
    pub door: Option<OperatorDoor<'s>>,
}

impl<'s> Desk<'s> {
    pub fn new<R: Clock, L>(rt: &R, setup: &ServerSetup<'s, L>) -> io::Result<Desk<'s>> {
        let door = match setup.operator {
            Some(port) => Some(OperatorDoor::new(port)?),
            None => None,
        };
        Ok(Desk {
            plan: setup.plan,
            began: Instant::now(rt).ok(),
            draws: AtomicU64::new(0),
            door,
        })
    }

    /// For how many milliseconds the server has run.
    pub fn uptime_ms<R: Clock>(&self, rt: &R) -> u64 {
        let Some(began) = &self.began else {
            return 0;
        };
        match began.elapsed(rt) {
            Ok(passed) => u64::try_from(passed.as_millis()).unwrap_or(u64::MAX),
            Err(_) => 0,
        }
    }

    /// What the system tells of the process.
    pub fn process(&self) -> ProcessSight {
        match &self.door {
            Some(door) => process_sight(door.process),
            None => ProcessSight::default(),
        }
    }

    /// The kind of a node's store.
    pub fn store_of(&self, node: u64) -> StoreKind
        ensures { result ≡ store_of self.now.plan.now node }
    {
        match self.plan.nodes.get(node as usize) {
            Some(node) => store_shown(node.store),
            None => store_shown(self.plan.spare),
        }
    }
}
