//! The server of both forms of `serve`.
ghost use Rattle.std.specs.Prelude.{◌≡◌, IfOk};
ghost use Rattle.chord_app_serve.specs.Whole.{StandsWhole};

use crate::serving::caller_pool::CallerPool;
use crate::serving::desk::Desk;
use crate::serving::frames::{FramesHouse, RingFrames};
use crate::serving::idle::IdleCaller;
use crate::serving::info::Told;
use crate::serving::journal::ServerJournal;
use crate::serving::made_store::MadeStore;
use crate::serving::redis::{RedisHouse, RingCommands};
use crate::serving::request_tally::RequestTally;
use crate::serving::reserved::Reserved;
use crate::serving::service::{Service, node_of};
use crate::serving::sessions::Sessions;
use crate::serving::tally::Tally;
use crate::serving::trying::TryingAsker;
use crate::serving::whole_ring::WholeRing;
use chord_app_loop::{Budget, Guest, Loops, Owner, Rules, Socket};
use chord_app_sockets::{
    Clients, Door, Doors, Ended, Host, Lines, OncePerSecond, Protocol, ServerSetup, Until,
};
use chord_app_text::Finish;
use chord_live_ring::{Ring, RingParts};
use chord_serve::{Protocol as ProtocolOfLink, Served, Stream};
use chord_store::EntryStore;
use chord_table::{CallerSeat, Naming};
use log::{Log, info, warn};
use std::alloc::Global;
use std::io::{self, Write};
use std::net::{Net, TcpStream};
use std::os::fd::AsRawFd;
use std::sync::atomic::{AtomicU64, Ordering};
use std::sync::{Arc, Wait};
use std::thread;
use std::thread::Scope;
use std::time::{Clock, Duration};

/// For how many milliseconds a door rests where a connection could not be accepted.
const REST_MILLISECONDS: u64 = 10;

/// What all connections of a server share.
#[derive(Drop)]
pub struct Server<'s, 'r, J: Naming, S: EntryStore, R, L, W> {
    pub service: &'s Service<'r, J, S, R>,
    /// Where it logs how connections end.
    pub notes: &'s L,
    pub pool: CallerPool<'r, J, S>,
    pub reserved: Reserved<'r, J, S>,
    pub sessions: Sessions<'r, J, S, R>,
    pub tally: Tally,
    pub clients: Clients,
    pub lines: &'s Lines<W>,
    pub until: Until<'s>,
    /// How many connections of clients got a number, at all doors.
    numbers: AtomicU64,
    pub desk: Desk<'s>,
    /// Of connections that wrote what a web page can make a browser write.
    foreign_warnings: OncePerSecond,
    /// Of connections that could not be accepted.
    accept_warnings: OncePerSecond,
    /// How much all connections may hold.
    pub budget: Budget,
    pub journal: Option<ServerJournal<'r, J, S>>,
}

/// The event loops of clients that speak in frames.
type FramesLoops<'c, 'r, J, S, R> = Loops<RingFrames<'r, J, S, R>, Socket<'c>>;

/// Those of clients that speak Redis's protocol.
type RedisLoops<'c, 'r, J, S, R> = Loops<RingCommands<'c, 'r, J, S, R>, Socket<'c>>;

impl<J: Naming, S: EntryStore, R, L, W> Server<'_, '_, J, S, R, L, W> {
    /// Up to where there are changes in the journal; 0 without one.
    pub fn mark(&self) -> u64 {
        match &self.journal {
            Some(journal) => journal.mark(),
            None => 0,
        }
    }
}

impl<'s, 'r, J: Naming, S: EntryStore, R: Wait + Clock + Net, L: Log, W: Write> Server<
    's,
    'r,
    J,
    S,
    R,
    L,
    W,
> {
    /// Writes and syncs what the journal still has to be written.
    fn end_journal(&self) -> Result<(), Finish> {
        let Some(journal) = &self.journal else {
            return Ok(());
        };
        journal.end(self.service.rt);
        if journal.conclude(self.service.rt) {
            return Ok(());
        }
        warn!(self.notes; target: "chord", "fault journal: it is not whole");
        Err(Finish::Refused)
    }

    /// Writes the journal, and has event loops look whose answers wait for that. If it cannot be
    /// done any more, the server stops.
    fn write_journal<'c>(
        &self,
        journal: &ServerJournal<'r, J, S>,
        frames: &FramesLoops<'c, 'r, J, S, R>,
        redis: &RedisLoops<'c, 'r, J, S, R>,
    ) {
        for _ in self.service.rt.forever() {
            if !journal.rest(self.service.rt) {
                break;
            }
            if journal.round(self.service.rt) {
                frames.wake();
                redis.wake();
            }
        }
        if journal.is_lost() {
            warn!(self.notes; target: "chord", "fault journal: it cannot be synced");
            self.until.stop(self.service.rt);
        }
    }

    /// Has the journal written up to this mark, and says up to where its changes may be shown.
    pub fn settle(&self, mark: u64) -> u64 {
        match &self.journal {
            Some(journal) => journal.settle(self.service.rt, mark),
            None => u64::MAX,
        }
    }

    /// Warns that a connection was ended since it wrote what a web page can make a browser write.
    fn warn_of_foreign(&self, number: u64) {
        warn!(self.notes; target: "chord", "connection {number} sent HTTP or a byte 0 to the port of Redis's protocol: a web page may have tried to reach the store");
    }

    /// Notes and logs how a connection ended, and warns of one that may be a web page's, at most
    /// once a second.
    pub fn tell(&self, number: u64, ended: &Ended) {
        let rt = self.service.rt;
        info!(self.notes; target: "chord", "connection {number} {ended}");
        if *ended == Ended::Served(Served::Foreign)
            && self.foreign_warnings.passes(self.desk.uptime_ms(rt))
        {
            self.warn_of_foreign(number);
        }
        self.tally.end(self.service.rt, ended);
        let _ = self.lines.tell(self.service.rt, number, ended);
    }

    /// How event loops serve connections. A request is tried for as long as a blocking call of it
    /// would take.
    fn rules(&self) -> Rules {
        let ring = self.service.ring;
        let wait = ring.wait_of_try();
        let tries = u32::try_from(ring.tries()).unwrap_or(u32::MAX);
        Rules {
            read_size: self.until.read_size(),
            turns: self.until.turns(),
            idle: self.until.idle(),
            longest_pause: wait,
            patience: wait.saturating_mul(tries),
        }
    }

    /// The node at which the connection of this number asks.
    pub fn via(&self, number: u64) -> u64 {
        node_of(number, self.service.ring.node_count())
    }

    /// A stream, for a link or to be read. None if memory ran out.
    pub fn socket_of(&self, stream: &Arc<TcpStream>) -> Option<Socket<'_>> {
        Some(Socket::new(Arc::try_clone(stream).ok()?, &self.clients))
    }

    /// A caller of the pool, or else that of a session without a connection, which is dropped.
    fn caller_for(&self) -> Result<IdleCaller<'r, J, S>, Ended> {
        let rt = self.service.rt;
        let none = match self.pool.take(rt) {
            Ok(idle) => return Ok(idle),
            Err(none) => none,
        };
        let now = self.desk.uptime_ms(rt);
        let Some(asker) = self.sessions.drop_oldest(rt, now) else {
            return Err(none);
        };
        self.tally.drop_session(rt);
        self.pool.add(rt, asker.into_caller());
        self.pool.take(rt)
    }

    /// A caller for the connection of this number: the one that is reserved for it, or another.
    pub fn caller_of(&self, number: u64) -> Result<IdleCaller<'r, J, S>, Ended> {
        match self.reserved.take(self.service.rt, number) {
            Some(idle) => Ok(idle),
            None => self.caller_for(),
        }
    }

    /// Reserves a caller for a connection that begins, if each connection has one of its own. Says
    /// how the connection ends if it is late and no caller can be had.
    pub fn reserve(&self, number: u64, is_late: bool) -> Result<(), Ended> {
        let rt = self.service.rt;
        if self.until.keeps_callers() && !is_late || self.reserved.has(rt, number) {
            return Ok(());
        }
        match self.pool.take(rt) {
            Ok(idle) if self.until.keeps_callers() => {
                self.pool.give_back(rt, idle.into_caller());
                Ok(())
            }
            Ok(idle) => match self.reserved.keep(rt, number, idle) {
                Ok(()) => Ok(()),
                Err(idle) => {
                    self.pool.give_back(rt, idle.into_caller());
                    Err(Ended::Served(Served::Memory))
                }
            },
            Err(none) if is_late && !self.sessions.can_drop(rt, self.desk.uptime_ms(rt)) => {
                Err(none)
            }
            Err(_) => Ok(()),
        }
    }

    /// Takes the caller back that is reserved for this connection, if one is.
    pub fn release(&self, number: u64) {
        let rt = self.service.rt;
        if let Some(idle) = self.reserved.take(rt, number) {
            self.pool.give_back(rt, idle.into_caller());
        }
    }

    /// Takes the caller of a connection back.
    pub fn take_back(&self, asker: TryingAsker<'r, J, S, R>) {
        self.pool.give_back(self.service.rt, asker.into_caller());
    }

    /// Drops the oldest sessions without a connection, while their answers take too much memory.
    pub fn drop_surplus(&self) {
        let rt = self.service.rt;
        for _ in 0..u64::MAX {
            let Some(asker) = self.sessions.drop_surplus(rt) else {
                return;
            };
            self.tally.drop_session(rt);
            self.pool.add(rt, asker.into_caller());
        }
    }

    /// Drops all sessions without a connection, and takes their callers back.
    fn drop_sessions(&self) {
        let rt = self.service.rt;
        for _ in 0..u64::MAX {
            let Some(asker) = self.sessions.drop_first(rt) else {
                return;
            };
            self.pool.add(rt, asker.into_caller());
        }
    }

    /// Whether the server takes one more connection.
    fn takes_more(&self) -> bool {
        !self.until.is_stopped() && self.numbers.load(Ordering::SeqCst) < self.until.most()
    }

    /// The number of a connection that was accepted, if the server takes it.
    fn next_number(&self) -> Option<u64> {
        if self.until.is_stopped() {
            return None;
        }
        let number = self.numbers.fetch_add(1, Ordering::SeqCst);
        if number < self.until.most() {
            Some(number)
        } else {
            None
        }
    }

    /// A connection that begins. None if memory ran out.
    pub fn guest(&self, number: u64, stream: TcpStream) -> Option<Guest<Socket<'_>>> {
        let _ = stream.set_nodelay(true).is_ok();
        let _ = stream.set_nonblocking(true).is_ok();
        let alloc = self.service.alloc;
        let stream = Arc::new(alloc, stream).ok()?;
        self.clients.add(self.service.rt, number, &stream).ok()?;
        let socket = self.socket_of(&stream)?;
        Some(Guest::new(alloc, number, stream, socket))
    }

    /// Gives an accepted connection to event loops, or notes that it could not be accepted, or ends
    /// it if there is no memory for it.
    fn admit<'c, P: ProtocolOfLink + Drop>(
        &'c self,
        loops: &Loops<P, Socket<'c>>,
        number: u64,
        accepted: io::Result<TcpStream>,
    ) {
        match accepted {
            Ok(stream) => match self.guest(number, stream) {
                Some(guest) => loops.add(self.service.rt, guest),
                None => {
                    self.tell(number, &Ended::Served(Served::Memory));
                    self.clients.forget(self.service.rt, number);
                }
            },
            Err(_) => {
                self.tell(number, &Ended::NotAccepted);
                thread::sleep(self.service.rt, Duration::from_millis(REST_MILLISECONDS));
            }
        }
    }

    /// Lets a door rest where a connection could not be accepted, as for want of descriptors. Warns
    /// at most once a second.
    fn rest(&self) {
        let rt = self.service.rt;
        if self.accept_warnings.passes(self.desk.uptime_ms(rt)) {
            warn!(self.notes; target: "chord", "a connection could not be accepted: the process may have too few files (ulimit -n)");
        }
        thread::sleep(rt, Duration::from_millis(REST_MILLISECONDS));
    }

    /// Accepts connections at a door, as long as the server takes any. A server that stays tries
    /// again where that fails; of one that serves a number of them it is one that ended.
    fn accept<'c, P: ProtocolOfLink + Drop>(
        &'c self,
        loops: &Loops<P, Socket<'c>>,
        door: Door<'_>,
    ) {
        for _ in 0..u64::MAX {
            if !self.takes_more() {
                return;
            }
            let accepted = door.listener.accept().map(|(stream, _)| stream);
            if accepted.is_err() && self.until.keeps_callers() {
                self.rest();
                continue;
            }
            let Some(number) = self.next_number() else {
                drop(accepted);
                return;
            };
            self.admit(loops, number, accepted);
        }
    }
}

/// Starts event loops, each in a thread of its own.
fn start<
    't,
    E: 't,
    P: ProtocolOfLink + Drop + Send + 't,
    S: Stream + AsRawFd + Drop + Send + 't,
    O: Owner<P, S> + Sync + 't,
    R: Host,
>(
    rt: &'t R,
    alloc: Global,
    scope: &'t Scope<'t, E>,
    loops: &'t Loops<P, S>,
    owner: &'t O,
) -> Result<(), Finish> {
    for number in 0..loops.count() {
        if scope
            .spawn(move || loops.run(rt, alloc, owner, number))
            .is_err()
        {
            return Err(Finish::OutOfMemory);
        }
    }
    Ok(())
}

impl<
    't,
    'c: 't,
    's: 'c,
    'r: 's,
    J: Naming + Send + Sync + 'r,
    S: MadeStore + Send + 'r,
    R: Host,
    L: Log + Sync + 's,
    W: Write + Send + 's,
> Server<'s, 'r, J, S, R, L, W> {
    /// Accepts connections at the second door, and then wakes the first.
    fn accept_second(
        &'c self,
        redis: &RedisLoops<'c, 'r, J, S, R>,
        doors: Doors<'_>,
        door: Door<'_>,
    ) {
        self.accept(redis, door);
        doors.first().wake(self.service.rt);
    }

    /// Accepts connections at each door. The one that gets the last connection wakes the other.
    fn accept_at<E: 't>(
        &'c self,
        scope: &'t Scope<'t, E>,
        frames: &'t FramesLoops<'c, 'r, J, S, R>,
        redis: &'t RedisLoops<'c, 'r, J, S, R>,
        doors: Doors<'t>,
    ) -> Result<(), Finish> {
        let first = doors.first();
        let Some(second) = doors.second() else {
            match first.protocol {
                Protocol::Frames => self.accept(frames, first),
                Protocol::Redis => self.accept(redis, first),
            }
            return Ok(());
        };
        let Ok(beside) = scope.spawn(move || self.accept_second(redis, doors, second)) else {
            return Err(Finish::OutOfMemory);
        };
        self.accept(frames, first);
        second.wake(self.service.rt);
        beside.join(self.service.rt);
        Ok(())
    }

    /// Starts the event loops.
    fn start_loops<E: 't>(
        &'c self,
        scope: &'t Scope<'t, E>,
        frames: &'t FramesLoops<'c, 'r, J, S, R>,
        frames_house: &'t FramesHouse<'c, 's, 'r, J, S, R, L, W>,
        redis: &'t RedisLoops<'c, 'r, J, S, R>,
        redis_house: &'t RedisHouse<'c, 's, 'r, J, S, R, L, W>,
    ) -> Result<(), Finish> {
        let (rt, alloc) = (self.service.rt, self.service.alloc);
        start(rt, alloc, scope, frames, frames_house)?;
        start(rt, alloc, scope, redis, redis_house)
    }

    /// Writes lines as they come. If writing fails, the server goes on without them.
    fn write_lines(&self) {
        if !self.lines.write_on(self.service.rt) {
            warn!(self.notes; target: "chord", "standard output can't be written: no more lines are");
        }
    }

    /// Loads the journal, if there is one, and has it written from then on.
    fn start_journal<E: 't>(
        &'c self,
        setup: &'t ServerSetup<'t, L>,
        scope: &'t Scope<'t, E>,
        frames: &'t FramesLoops<'c, 'r, J, S, R>,
        redis: &'t RedisLoops<'c, 'r, J, S, R>,
    ) -> Result<(), Finish> {
        let (Some(journal), Some(of)) = (&self.journal, &setup.journal) else {
            return Ok(());
        };
        if let Err(fault) = journal.load(self.service.rt, of, &self.pool, self.notes) {
            warn!(self.notes; target: "chord", "fault journal: {fault}");
            return Err(Finish::Refused);
        }
        match scope.spawn(move || self.write_journal(journal, frames, redis)) {
            Ok(_) => Ok(()),
            Err(_) => Err(Finish::OutOfMemory),
        }
    }

    /// Starts the nodes, loads the journal, writes the addresses at which clients are served, and
    /// serves them.
    fn start_and_accept<E: 't>(
        &'c self,
        setup: &'t ServerSetup<'t, L>,
        scope: &'t Scope<'t, E>,
        frames: &'t FramesLoops<'c, 'r, J, S, R>,
        redis: &'t RedisLoops<'c, 'r, J, S, R>,
        stores: Vec<S>,
    ) -> Result<(), Finish> {
        let server: &'t Server<'s, 'r, J, S, R, L, W> = self;
        server
            .service
            .start(scope, setup.plan.nodes.as_slice(), stores)?;
        self.start_journal(setup, scope, frames, redis)?;
        server.lines.begin(server.service.rt, setup.doors)?;
        if scope.spawn(move || server.write_lines()).is_err() {
            return Err(Finish::OutOfMemory);
        }
        server.start_operators(scope)?;
        self.accept_at(scope, frames, redis, setup.doors)
    }

    /// Serves by these event loops, and then stops the ring. The handle starts the threads.
    fn serve_by_loops(
        &'c self,
        starter: &R,
        frames: &'t FramesLoops<'c, 'r, J, S, R>,
        frames_house: &'t FramesHouse<'c, 's, 'r, J, S, R, L, W>,
        redis: &'t RedisLoops<'c, 'r, J, S, R>,
        redis_house: &'t RedisHouse<'c, 's, 'r, J, S, R, L, W>,
        setup: &'t ServerSetup<'t, L>,
        stores: Vec<S>,
    ) -> Result<(), Finish> {
        thread::scope(thread::scope_env(), starter, |scope| {
            let ended = match self.start_loops(scope, frames, frames_house, redis, redis_house) {
                Ok(()) => self.start_and_accept(setup, scope, frames, redis, stores),
                Err(finish) => {
                    drop(stores);
                    Err(finish)
                }
            };
            if let Until::Stopped { .. } = self.until {
                self.service.ring.stop();
                self.clients.tell_to_end();
                frames.wake();
                redis.wake();
                self.clients.end_all(self.service.rt);
            }
            self.clients.wait_for_all(self.service.rt);
            frames.end();
            redis.end();
            self.lines.end(self.service.rt);
            self.end_operators();
            self.service.ring.stop();
            let written = self.end_journal();
            ended?;
            written
        })
    }
}

/// Lets event loops go, none of which runs.
fn close<P: ProtocolOfLink + Drop, S: Stream + Drop>(loops: Loops<P, S>) {
    drop(loops);
}

/// Serves the connections of these owners, by event loops.
fn serve_houses<
    'c,
    's: 'c,
    'r: 's,
    J: Naming + Send + Sync,
    S: MadeStore + Send,
    R: Host,
    L: Log + Sync,
    W: Write + Send,
>(
    server: &'c Server<'s, 'r, J, S, R, L, W>,
    frames_house: &FramesHouse<'c, 's, 'r, J, S, R, L, W>,
    redis_house: &RedisHouse<'c, 's, 'r, J, S, R, L, W>,
    setup: &ServerSetup<'_, L>,
    stores: Vec<S>,
) -> Result<(), Finish> {
    let (rt, alloc, rules) = (server.service.rt, server.service.alloc, server.rules());
    let frames: FramesLoops<'c, 'r, J, S, R> = match Loops::for_processors(rt, alloc, rules) {
        Ok(loops) => loops,
        Err(_) => {
            drop(stores);
            return Err(Finish::OutOfMemory);
        }
    };
    let redis: RedisLoops<'c, 'r, J, S, R> = match Loops::for_processors(rt, alloc, rules) {
        Ok(loops) => loops,
        Err(_) => {
            close(frames);
            drop(stores);
            return Err(Finish::OutOfMemory);
        }
    };
    let served = server.serve_by_loops(
        rt,
        &frames,
        frames_house,
        &redis,
        redis_house,
        setup,
        stores,
    );
    close(redis);
    close(frames);
    served
}

/// Serves clients of both protocols.
fn serve_clients<
    'c,
    's: 'c,
    'r: 's,
    J: Naming + Send + Sync,
    S: MadeStore + Send,
    R: Host,
    L: Log + Sync,
    W: Write + Send,
>(
    server: &'c Server<'s, 'r, J, S, R, L, W>,
    told: &'c Told<'c, J, S, R>,
    setup: &ServerSetup<'_, L>,
    stores: Vec<S>,
) -> Result<(), Finish> {
    let frames = FramesHouse { server };
    let redis = RedisHouse { server, told };
    serve_houses(server, &frames, &redis, setup, stores)
}

/// Ends the ring. One look at all its nodes and callers proves that they are a reachable world,
/// each as the threads held it. Only memory that ran out can keep a seat back.
fn conclude<J: Naming, S: EntryStore>(
    ring: Ring<J, S>,
    callers: Vec<CallerSeat<J>>,
) -> Result<WholeRing, Finish>
    ensures { IfOk result (λ ring. StandsWhole ring) }
{
    let count = callers.len();
    let closed = ring.close_with(callers);
    if closed.is_whole {
        Ok(WholeRing {
            nodes: closed.nodes,
            callers: count,
        })
    } else {
        Err(Finish::OutOfMemory)
    }
}

/// What a server serves with: a store for each node of the plan, until when, where it writes how
/// connections ended, and where it counts requests.
#[derive(Drop)]
pub struct Serving<'a, S: EntryStore, R, L, W> {
    pub rt: &'a R,
    pub setup: &'a ServerSetup<'a, L>,
    pub stores: Vec<S>,
    pub until: Until<'a>,
    pub lines: &'a Lines<W>,
    pub requests: &'a RequestTally,
}

impl<S: MadeStore + Send, R: Host, L: Log + Sync, W: Write + Send> Serving<'_, S, R, L, W> {
    /// Serves with this ring, and gives the callers that served.
    fn serve_with<J: Naming + Send + Sync>(
        self,
        ring: &Ring<J, S>,
    ) -> Result<Vec<CallerSeat<J>>, Finish> {
        let Serving {
            rt,
            setup,
            stores,
            until,
            lines,
            requests,
        } = self;
        let service = Service {
            rt,
            alloc: setup.alloc,
            ring,
            requests,
        };
        let pool = CallerPool::new(setup.alloc, ring, until.keeps_callers())?;
        let desk = Desk::new(rt, setup)?;
        let journal = match &setup.journal {
            Some(journal) => Some(ServerJournal::new(setup.alloc, ring, journal).ok_or(
                Finish::OutOfMemory,
            )?),
            None => None,
        };
        let server = Server {
            service: &service,
            notes: setup.notes,
            pool,
            reserved: Reserved::new(setup.alloc),
            sessions: Sessions::new(setup.alloc, until.session_seconds()),
            tally: Tally::new(),
            clients: Clients::new(setup.alloc),
            lines,
            until,
            numbers: AtomicU64::new(0),
            desk,
            foreign_warnings: OncePerSecond::new(),
            accept_warnings: OncePerSecond::new(),
            budget: Budget::new(until.buffers()),
            journal,
        };
        let told = Told {
            rt,
            ring,
            clients: &server.clients,
        };
        let served = serve_clients(&server, &told, setup, stores);
        server.drop_sessions();
        let callers = server.pool.into_callers(setup.alloc);
        served?;
        Ok(callers?)
    }

    /// Gives the ring its name, and serves. Then the ring ends by a look at the whole of it.
    pub fn serve_named<J: Naming + Send + Sync>(self, parts: RingParts) -> Result<WholeRing, Finish>
        requires { parts.name ≡ J.name }
        ensures { IfOk result (λ ring. StandsWhole ring) }
    {
        let ring = match parts.assemble::<J, S>() {
            Ok(ring) => ring,
            Err(_) => {
                drop(self);
                return Err(Finish::OutOfMemory);
            }
        };
        match self.serve_with(&ring) {
            Ok(callers) => conclude(ring, callers),
            Err(finish) => {
                ring.close();
                Err(finish)
            }
        }
    }
}
