//! The connections of operators.

use crate::serving::desk::OperatorDoor;
use crate::serving::made_store::MadeStore;
use crate::serving::operator::RingOperator;
use crate::serving::server::Server;
use chord_app_loop::{OperatorGate, OperatorLimits, OperatorLoop, Reception};
use chord_app_operator::OperatorService;
use chord_app_sockets::Host;
use chord_app_text::Finish;
use chord_store::EntryStore;
use chord_table::Naming;
use log::{Log, warn};
use std::io::Write;
use std::net::Net;
use std::sync::Wait;
use std::thread::Scope;
use std::time::Clock;

/// How many operators there may be at once, and for how long one may be silent.
const LIMITS: OperatorLimits = OperatorLimits {
    connections: 64,
    seconds: 10,
};

/// Receives the operators of a server.
#[derive(Drop)]
struct OperatorHouse<'t, 's, 'r, J: Naming, S: EntryStore, R, L, W> {
    server: &'t Server<'s, 'r, J, S, R, L, W>,
    port: u16,
}

impl<'t, 's, 'r, J: Naming, S: MadeStore, R: Wait + Clock + Net, L: Log, W: Write> Reception<
    RingOperator<'t, 's, 'r, J, S, R>,
> for OperatorHouse<'t, 's, 'r, J, S, R, L, W> {
    fn receive(&self) -> Option<OperatorService<RingOperator<'t, 's, 'r, J, S, R>>> {
        let server = self.server;
        OperatorService::new(server.service.alloc, self.port, server.operator()).ok()
    }
}

impl<'s, 'r, J: Naming, S: EntryStore, R: Wait + Clock + Net, L: Log, W: Write> Server<
    's,
    'r,
    J,
    S,
    R,
    L,
    W,
> {
    /// An operator of the server's ring.
    fn operator<'t>(&'t self) -> RingOperator<'t, 's, 'r, J, S, R> {
        RingOperator {
            rt: self.service.rt,
            alloc: self.service.alloc,
            ring: self.service.ring,
            pool: &self.pool,
            clients: &self.clients,
            sessions: &self.sessions,
            tally: &self.tally,
            requests: self.service.requests,
            until: self.until,
            desk: &self.desk,
        }
    }
}

impl<'s, 'r, J: Naming, S: MadeStore, R: Host, L: Log, W: Write> Server<'s, 'r, J, S, R, L, W> {
    /// Serves operators, until the server ends.
    fn operate(&self, door: &OperatorDoor<'_>) {
        let house = OperatorHouse {
            server: self,
            port: door.port,
        };
        let gate = OperatorGate {
            listener: door.listener,
            keys: door.keys,
            stop: &door.stop,
            limits: LIMITS,
        };
        match OperatorLoop::open(self.service.rt, self.service.alloc, gate, &house) {
            Ok(serving) => serving.run(),
            Err(_) =>
                warn!(self.notes; target: "chord", "operators are not served: the process has too little memory or too few files"),
        }
    }

    /// Ends the connections of operators, and takes no more.
    pub fn end_operators(&self) {
        if let Some(door) = &self.desk.door {
            door.stop.stop(self.service.rt);
        }
    }

    /// Writes the address at which operators are served, and starts the thread that serves them, if
    /// there is a port for them.
    pub fn start_operators<'t, E: 't>(&'t self, scope: &'t Scope<'t, E>) -> Result<(), Finish>
    where
        J: Send + Sync + 't,
        S: Send + 't,
        L: Sync + 't,
        W: Send + 't,
    {
        let Some(door) = &self.desk.door else {
            return Ok(());
        };
        self.lines.begin_operator(self.service.rt, door.listener)?;
        match scope.spawn(move || self.operate(door)) {
            Ok(_) => Ok(()),
            Err(_) => Err(Finish::OutOfMemory),
        }
    }
}
