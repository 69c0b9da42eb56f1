//! Clients that speak Redis's protocol. Event loops serve them.

use crate::serving::info::Told;
use crate::serving::server::Server;
use crate::serving::trying::TryingAsker;
use chord_app_loop::{Budget, Guest, Met, Owner, Socket};
use chord_app_sockets::Ended;
use chord_resp_serve::{CommandProtocol, ServerInfo};
use chord_serve::{Link, Marks, Served};
use chord_store::EntryStore;
use chord_table::Naming;
use log::Log;
use std::io::Write;
use std::net::Net;
use std::sync::Wait;
use std::time::Clock;

/// What such a client is told whose connection finds no caller.
const SPENT: &[u8] = b"-ERR max number of clients reached\r\n";

/// What such a client speaks with.
pub type RingCommands<'t, 'r, J, S, R> = CommandProtocol<
    't,
    TryingAsker<'r, J, S, R>,
    Told<'t, J, S, R>,
>;

/// Serves clients that speak Redis's protocol.
#[derive(Drop)]
pub struct RedisHouse<'t, 's, 'r, J: Naming, S: EntryStore, R, L, W> {
    pub server: &'t Server<'s, 'r, J, S, R, L, W>,
    pub told: &'t Told<'t, J, S, R>,
}

impl<J: Naming, S: EntryStore, R, L, W> Marks for RedisHouse<'_, '_, '_, J, S, R, L, W> {
    ghost tells = { λ _ _. Unit {0} };

    fn mark(&self) -> u64 {
        self.server.mark()
    }
}

impl<'t, 's, 'r, J: Naming, S: EntryStore, R: Wait + Clock + Net, L: Log, W: Write> Owner<
    RingCommands<'t, 'r, J, S, R>,
    Socket<'t>,
> for RedisHouse<'t, 's, 'r, J, S, R, L, W> {
    fn meet(&self, guest: &Guest<Socket<'t>>) -> Met<RingCommands<'t, 'r, J, S, R>, Socket<'t>> {
        let server = self.server;
        let idle = match server.caller_of(guest.number) {
            Ok(idle) => idle,
            Err(none) => {
                if none == Ended::CallersSpent {
                    let mut writer = server.clients.counted(&*guest.stream);
                    let _ = writer.write_all(SPENT).is_ok();
                }
                return Met::Ended(none);
            }
        };
        let info = ServerInfo {
            number: guest.number,
            source: self.told,
        };
        let via = server.via(guest.number);
        let protocol = server.service.meet_redis(idle, via, info);
        match server.socket_of(&guest.stream) {
            Some(socket) => Met::Begins(Link::new(server.service.alloc, protocol, socket)),
            None => {
                server.take_back(protocol.into_asker());
                Met::Ended(Ended::Served(Served::Memory))
            }
        }
    }

    fn hear_end(
        &self,
        number: u64,
        ended: &Ended,
        protocol: Option<RingCommands<'t, 'r, J, S, R>>,
    ) {
        if let Some(protocol) = protocol {
            if protocol.shuts_down() {
                self.server.until.stop(self.server.service.rt);
            }
            self.server.take_back(protocol.into_asker());
        }
        self.server.tell(number, ended);
    }

    fn hear_close(&self, number: u64) {
        self.server.clients.forget(self.server.service.rt, number);
    }

    fn wants_end(&self) -> bool {
        self.server.clients.are_told_to_end()
    }

    fn budget(&self) -> &Budget {
        &self.server.budget
    }

    fn settle(&self, mark: u64) -> u64 {
        self.server.settle(mark)
    }
}
