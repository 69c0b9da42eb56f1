//! What Redis's clients are told of the server.
ghost use Rattle.std.specs.Prelude.{};

use chord_app_operator::Rows;
use chord_app_sockets::Clients;
use chord_live_ring::Ring;
use chord_resp_serve::{Informs, Moment};
use chord_sight::NodeSight;
use chord_store::EntryStore;
use chord_table::Naming;
use std::alloc::{AllocError, Global};
use std::sync::Wait;
use std::time::{Clock, SystemTime, UNIX_EPOCH};

/// Adds the line of a node.
fn add_node(alloc: Global, text: &mut Vec<u8>, sight: &NodeSight) -> Result<(), AllocError> {
    let (number, pairs, segments) = (sight.number, sight.pairs, sight.segments.len());
    let phase = sight.phase.word();
    let line = format!(in alloc;
        "node{number}:phase={phase},pairs={pairs},segments={segments}\r\n"
    )?;
    text.extend_from_slice(line.as_bytes())
}

/// What Redis's clients are told of: the connections of clients, and the nodes of a ring.
#[derive(Drop)]
pub struct Told<'a, J: Naming, S: EntryStore, R> {
    pub rt: &'a R,
    pub ring: &'a Ring<J, S>,
    pub clients: &'a Clients,
}

impl<J: Naming, S: EntryStore, R: Wait + Clock> Informs for Told<'_, J, S, R> {
    ghost tells = { λ _ _. Unit {0} };

    /// The server, its clients, and each node that is not gone by one look under its lock.
    fn info(&self, alloc: Global) -> Result<Vec<u8>, AllocError> {
        let clients = self.clients.count(self.rt);
        let head = format!(in alloc;
            "# Server\r\nserver:chord\r\nprotocol:2\r\n# Clients\r\nconnected_clients:{clients}\r\n# Nodes\r\n"
        )?;
        let mut text = Vec::from_slice(alloc, head.as_bytes())?;
        for slot in 0..self.ring.slot_count() {
            let Some(number) = self.ring.number_at(slot) else {
                continue;
            };
            if let Some(sight) = self.ring.sight(self.rt, alloc, number)? {
                if Rows::Present.has(sight.phase) {
                    add_node(alloc, &mut text, &sight)?;
                }
            }
        }
        Ok(text)
    }

    /// By the system's clock; where that stands before 1970, the begin of 1970.
    fn time(&self) -> Moment {
        let passed = match SystemTime::now(self.rt) {
            Ok(now) => now.duration_since(UNIX_EPOCH).ok(),
            Err(_) => None,
        };
        match passed {
            Some(passed) => Moment {
                seconds: passed.as_secs(),
                micros: passed.subsec_micros(),
            },
            None => Moment {
                seconds: 0,
                micros: 0,
            },
        }
    }
}
