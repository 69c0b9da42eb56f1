//! Clients that speak in frames, in a session that outlives the connection or without one. Event
//! loops serve them.

use crate::serving::server::Server;
use crate::serving::trying::TryingAsker;
use chord_app_loop::{Budget, Guest, Met, Owner, Socket};
use chord_app_sockets::Ended;
use chord_serve::{
    BeginRefusal, ClientSession, FrameProtocol, Link, Marks, Parted, Resumed, Served,
    first_opening, tell_callers_spent, tell_no_session, tell_opened, tell_session_known,
};
use chord_store::EntryStore;
use chord_table::Naming;
use chord_wire::{FaultCode, Opening, SessionFrames, Token};
use log::Log;
use std::io::Write;
use std::net::Net;
use std::sync::Wait;
use std::time::Clock;

/// What such a client speaks with.
pub type RingFrames<'r, J, S, R> = FrameProtocol<TryingAsker<'r, J, S, R>>;

/// The session of such a client.
pub type RingSession<'r, J, S, R> = ClientSession<TryingAsker<'r, J, S, R>>;

/// What becomes of a connection of such a client.
type MetFrames<'t, 'r, J, S, R> = Met<RingFrames<'r, J, S, R>, Socket<'t>>;

/// Serves clients that speak in frames.
#[derive(Drop)]
pub struct FramesHouse<'t, 's, 'r, J: Naming, S: EntryStore, R, L, W> {
    pub server: &'t Server<'s, 'r, J, S, R, L, W>,
}

impl<'t, 's, 'r, J: Naming, S: EntryStore, R: Wait + Clock + Net, L: Log, W: Write> FramesHouse<
    't,
    's,
    'r,
    J,
    S,
    R,
    L,
    W,
> {
    /// Tells a client that no caller is left, if that is why its connection ends so.
    fn refuse(&self, guest: &Guest<Socket<'t>>, none: Ended) -> MetFrames<'t, 'r, J, S, R> {
        if none == Ended::CallersSpent {
            let mut writer = self.server.clients.counted(&*guest.stream);
            let _ = tell_callers_spent(self.server.service.alloc, &mut writer).is_ok();
        }
        Met::Ended(none)
    }

    /// Tells a client why its connection has no session.
    fn refuse_session(
        &self,
        guest: &Guest<Socket<'t>>,
        code: FaultCode,
    ) -> MetFrames<'t, 'r, J, S, R> {
        let alloc = self.server.service.alloc;
        let mut writer = self.server.clients.counted(&*guest.stream);
        let told = if code == FaultCode::SessionKnown {
            tell_session_known(alloc, &mut writer)
        } else {
            tell_no_session(alloc, &mut writer)
        };
        let _ = told.is_ok();
        Met::Ended(Ended::Served(Served::Malformed(code)))
    }

    /// Serves a client whose session ends with its connection. The bytes that came are answered
    /// first.
    fn begin_plain(
        &self,
        guest: &Guest<Socket<'t>>,
        frames: SessionFrames,
    ) -> MetFrames<'t, 'r, J, S, R> {
        let server = self.server;
        let idle = match server.caller_of(guest.number) {
            Ok(idle) => idle,
            Err(none) => {
                drop(frames);
                return self.refuse(guest, none);
            }
        };
        let alloc = server.service.alloc;
        let via = server.via(guest.number);
        let protocol = server.service.meet_frames(idle, via, frames);
        match server.socket_of(&guest.stream) {
            Some(socket) => Met::Begins(Link::new(alloc, protocol, socket)),
            None => {
                server.take_back(protocol.into_parted().into_asker());
                Met::Ended(Ended::Served(Served::Memory))
            }
        }
    }

    /// Serves a client in its session, which is told to it.
    fn go_on(
        &self,
        guest: &Guest<Socket<'t>>,
        frames: SessionFrames,
        client: RingSession<'r, J, S, R>,
    ) -> MetFrames<'t, 'r, J, S, R> {
        let server = self.server;
        let alloc = server.service.alloc;
        let mut writer = server.clients.counted(&*guest.stream);
        let told = tell_opened(alloc, &mut writer, &client);
        let protocol = FrameProtocol::new(frames, client, true);
        match server.socket_of(&guest.stream) {
            Some(socket) if told.is_ok() => Met::Begins(Link::new(alloc, protocol, socket)),
            other => {
                drop(other);
                self.part(guest.number, protocol);
                Met::Ended(Ended::Served(Served::Write))
            }
        }
    }

    /// Begins a session, unless another one has the token.
    fn begin(
        &self,
        guest: &Guest<Socket<'t>>,
        frames: SessionFrames,
        token: Token,
    ) -> MetFrames<'t, 'r, J, S, R> {
        let server = self.server;
        let rt = server.service.rt;
        let idle = match server.caller_of(guest.number) {
            Ok(idle) => idle,
            Err(none) => {
                drop(frames);
                return self.refuse(guest, none);
            }
        };
        match server.sessions.begin(rt, token, guest.number) {
            Ok(()) => {
                let client = server.service.meet_session(idle, server.via(guest.number));
                self.go_on(guest, frames, client)
            }
            Err(fault) => {
                drop(frames);
                server.pool.give_back(rt, idle.into_caller());
                match fault {
                    BeginRefusal::Known => self.refuse_session(guest, FaultCode::SessionKnown),
                    BeginRefusal::Memory => Met::Ended(Ended::Served(Served::Memory)),
                }
            }
        }
    }

    /// Goes on with a session over this connection, if it is kept. An older connection that has it
    /// still is ended first, and waited for.
    fn resume(
        &self,
        guest: &Guest<Socket<'t>>,
        frames: SessionFrames,
        token: Token,
    ) -> MetFrames<'t, 'r, J, S, R> {
        let server = self.server;
        let rt = server.service.rt;
        let refused = match server.sessions.resume(rt, token, guest.number) {
            Resumed::Here(client) => {
                server.release(guest.number);
                server.pool.go_on();
                server.tally.resume(rt);
                return self.go_on(guest, frames, client);
            }
            Resumed::Elsewhere(older) => {
                server.clients.end_one(rt, older);
                if self.wants_end() {
                    Met::Ended(Ended::Served(Served::Ended))
                } else {
                    Met::Waits
                }
            }
            Resumed::Unknown => self.refuse_session(guest, FaultCode::NoSession),
            Resumed::Memory => Met::Ended(Ended::Served(Served::Memory)),
        };
        drop(frames);
        refused
    }

    /// Keeps what a connection left of its session, if it had one that can go on, or takes its
    /// caller back.
    fn part(&self, number: u64, protocol: RingFrames<'r, J, S, R>) {
        let server = self.server;
        let rt = server.service.rt;
        let parted = protocol.into_parted();
        let Some(token) = server.sessions.token_of(rt, number) else {
            server.take_back(parted.into_asker());
            return;
        };
        server.pool.pause();
        let asker = match parted {
            Parted::Kept(client) => {
                let now = server.desk.uptime_ms(rt);
                server.sessions.part(rt, token, now, client)
            }
            Parted::Over(asker) => {
                server.sessions.end(rt, token);
                Some(asker)
            }
        };
        if let Some(asker) = asker {
            server.pool.add(rt, asker.into_caller());
        }
        server.drop_surplus();
    }

    /// What becomes of a connection of which the first frame has not come.
    fn meet_silent(
        &self,
        guest: &Guest<Socket<'t>>,
        frames: SessionFrames,
    ) -> MetFrames<'t, 'r, J, S, R> {
        if guest.is_ended {
            return self.begin_plain(guest, frames);
        }
        drop(frames);
        match self.server.reserve(guest.number, guest.is_late) {
            Ok(()) => Met::Reads,
            Err(none) => self.refuse(guest, none),
        }
    }
}

impl<J: Naming, S: EntryStore, R, L, W> Marks for FramesHouse<'_, '_, '_, J, S, R, L, W> {
    ghost tells = { λ _ _. Unit {0} };

    fn mark(&self) -> u64 {
        self.server.mark()
    }
}

impl<'t, 's, 'r, J: Naming, S: EntryStore, R: Wait + Clock + Net, L: Log, W: Write> Owner<
    RingFrames<'r, J, S, R>,
    Socket<'t>,
> for FramesHouse<'t, 's, 'r, J, S, R, L, W> {
    fn meet(&self, guest: &Guest<Socket<'t>>) -> MetFrames<'t, 'r, J, S, R> {
        let mut frames = SessionFrames::new(self.server.service.alloc);
        if frames.feed(&guest.heard).is_err() {
            drop(frames);
            return Met::Ended(Ended::Served(Served::Memory));
        }
        match first_opening(&mut frames) {
            Ok(None) => self.meet_silent(guest, frames),
            Ok(Some(None)) => self.begin_plain(guest, frames),
            Ok(Some(Some(Opening { token, resumes }))) if resumes => {
                self.resume(guest, frames, token)
            }
            Ok(Some(Some(Opening { token, resumes: _ }))) => self.begin(guest, frames, token),
            Err(served) => {
                drop(frames);
                Met::Ended(Ended::Served(served))
            }
        }
    }

    fn hear_end(&self, number: u64, ended: &Ended, protocol: Option<RingFrames<'r, J, S, R>>) {
        match protocol {
            Some(protocol) => self.part(number, protocol),
            None => self.server.release(number),
        }
        self.server.tell(number, ended);
    }

    fn hear_close(&self, number: u64) {
        self.server.clients.forget(self.server.service.rt, number);
    }

    fn wants_end(&self) -> bool {
        self.server.clients.are_told_to_end()
    }

    fn budget(&self) -> &Budget {
        &self.server.budget
    }

    fn settle(&self, mark: u64) -> u64 {
        self.server.settle(mark)
    }
}
