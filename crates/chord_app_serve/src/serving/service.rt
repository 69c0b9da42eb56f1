//! A running ring, shared by the connections of a server.
ghost use Rattle.std.specs.Prelude.{◌≡◌, ◌%◌, [], None, Some, false};
ghost use Rattle.chord_app_serve.specs.Tried.{first_trying};
ghost use Rattle.chord_resp.specs.Machine.{start};
ghost use Rattle.chord_resp_serve.specs.Connections.{first_standing};
ghost use Rattle.chord_resp_serve.specs.Waiting.{CommandIdles};
ghost use Rattle.chord_serve.specs.Framing.{FrameIdles};
ghost use Rattle.chord_session.specs.Session.{first_state};

use crate::nodes::Workers;
use crate::serving::idle::IdleCaller;
use crate::serving::request_tally::RequestTally;
use crate::serving::trying::TryingAsker;
use chord_app_plan::PlanNode;
use chord_app_sockets::Protocol;
use chord_app_text::Finish;
use chord_live_ring::Ring;
use chord_resp_serve::{CommandProtocol, Informs, ServerInfo};
use chord_serve::{ClientSession, FrameProtocol};
use chord_store::EntryStore;
use chord_table::Naming;
use chord_wire::SessionFrames;
use std::alloc::Global;
use std::sync::Wait;
use std::thread::{Scope, Threads};
use std::time::Clock;

/// A ring, and where its requests are counted.
#[derive(Drop)]
pub struct Service<'r, J: Naming, S: EntryStore, R> {
    pub rt: &'r R,
    pub alloc: Global,
    pub ring: &'r Ring<J, S>,
    pub requests: &'r RequestTally,
}

/// The node at which a connection asks: its number modulo the number of nodes that were admitted.
pub fn node_of(number: u64, nodes: u64) -> u64
    ensures { result ≡ number % nodes }
{
    if nodes == 0 { number } else { number % nodes }
}

impl<'r, J: Naming, S: EntryStore, R: Wait + Clock> Service<'r, J, S, R> {
    /// Starts the nodes of a plan, and the thread of their upkeep.
    pub fn start<'s, E: 's>(
        &'s self,
        scope: &'s Scope<'s, E>,
        nodes: &[PlanNode],
        stores: Vec<S>,
    ) -> Result<(), Finish>
    where
        J: Send + Sync + 's,
        S: Send + 's,
        R: Threads + Sync + 's,
    {
        let (rt, ring) = (self.rt, self.ring);
        Workers { rt, ring, scope }.start_nodes(nodes, stores)?;
        match scope.spawn(move || Workers { rt, ring, scope }.tick_in_turn()) {
            Ok(_) => Ok(()),
            Err(_) => Err(Finish::OutOfMemory),
        }
    }

    /// What a client speaks with whose connection begins without an open, and with these bytes.
    /// Each request is asked of this caller, at the node `via`, in order, and answered by what it
    /// was told: a link of it promises that (`chord_serve::laws::links_are_served`).
    pub fn meet_frames(
        &self,
        idle: IdleCaller<'r, J, S>,
        via: u64,
        frames: SessionFrames,
    ) -> FrameProtocol<TryingAsker<'r, J, S, R>>
        ensures frames { result.frames ≡ frames }
        ensures version { result.client.version ≡ None }
        ensures numbers { result.client.numbers ≡ first_state }
        ensures asker { result.client.asker ≡ first_trying idle.entry.caller via }
        ensures opened { result.is_opened ≡ false }
        ensures over { result.is_over ≡ false }
        ensures idle { FrameIdles result }
    {
        let tally = self.requests.of(Protocol::Frames);
        let asker = TryingAsker::new(self.rt, idle, via, tally);
        FrameProtocol::new(
            frames,
            ClientSession::of_connection(self.alloc, asker),
            false,
        )
    }

    /// A session that begins, by this caller at the node `via`. A link of it promises the same.
    pub fn meet_session(
        &self,
        idle: IdleCaller<'r, J, S>,
        via: u64,
    ) -> ClientSession<TryingAsker<'r, J, S, R>>
        ensures version { result.version ≡ Some 2 }
        ensures numbers { result.numbers ≡ first_state }
        ensures asker { result.asker ≡ first_trying idle.entry.caller via }
    {
        let tally = self.requests.of(Protocol::Frames);
        ClientSession::new(self.alloc, TryingAsker::new(self.rt, idle, via, tally))
    }

    /// What a client speaks Redis's protocol with, by this caller at the node `via`. Each request
    /// of a command is asked of this caller, in order, and answered by what it was told: a link of
    /// it promises that (`chord_resp_serve::laws::links_are_answered`).
    pub fn meet_redis<'i, N: Informs>(
        &self,
        idle: IdleCaller<'r, J, S>,
        via: u64,
        server: ServerInfo<'i, N>,
    ) -> CommandProtocol<'i, TryingAsker<'r, J, S, R>, N>
        ensures commands { result.commands ≡ record { state = start; bytes = [] } }
        ensures standing { result.standing ≡ first_standing }
        ensures server { result.server ≡ server.entry }
        ensures asker { result.asker ≡ first_trying idle.entry.caller via }
        ensures idle { CommandIdles result }
    {
        let tally = self.requests.of(Protocol::Redis);
        let asker = TryingAsker::new(self.rt, idle, via, tally);
        CommandProtocol::new(self.alloc, server, asker)
    }
}
