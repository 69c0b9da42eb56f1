//! One who asks a ring.
ghost use Rattle.std.specs.Prelude.{◌≡◌, ◌≤◌, ◌<◌, [], ◌∷◌, Ok, Err, None, true, IfOk, IfErr, IfSome, OnErr};
ghost use Rattle.chord_caller.specs.Answers.{PendingIs, is_pending};
ghost use Rattle.chord_caller.specs.Caller.{floor_of, next_number};
ghost use Rattle.chord_live_steps.specs.Asking.{CallIs, GaveUpSome, GiveUpIs, RetryIs};
ghost use Rattle.chord_live_steps.specs.Begun.{BeginIs, IsCallOf, Submitted};
ghost use Rattle.chord_live_steps.specs.Ending.{Ended};
ghost use Rattle.chord_live_types.specs.declared.caller.AskFault.TheVariants as AskFault;
ghost use Rattle.chord_live_types.specs.declared.caller.BeginFault.TheVariants as BeginFault;
ghost use Rattle.chord_live_types.specs.declared.caller.RetryFault.TheVariants as RetryFault;
ghost use Rattle.chord_table.specs.Shown.{CallerShown};

use crate::guesses::Guesses;
use crate::last_key::LastKey;
use crate::route::{Route, Way};
use chord_caller::ClientCore;
use chord_ident::Id;
use chord_live_ring::{Carried, Ring};
use chord_live_steps::{AskingCore, Keyed, SeatedCore, Target};
use chord_live_types::{AskFault, BeginFault, RetryFault, WaitFault};
use chord_map::{Reply, Request};
use chord_store::EntryStore;
use chord_table::{CallerSeat, Envelope, Naming, Witness};
use std::marker::Model;
use std::sync::Wait;
use std::time::{Clock, Duration, Instant};

/// How long a call that is carried waits before it is sent again, at first.
const FIRST_PAUSE_US: u64 = 200;

/// How often it is sent within a try at most: the pauses double, so that the longest try, of 60
/// seconds, has 20.
const MOST_SENDS: u64 = 32;

/// The longest sleep of a wait. A ring that is stopped is seen behind it.
const LONGEST_SLEEP_MS: u64 = 50;

/// One who asks a ring, which it borrows. Contracts see what its seat shows: the whole caller,
/// which is data of the proof alone where the core stores less.
#[derive(Drop)]
pub struct RingCaller<'a, J: Naming, S: EntryStore, C: AskingCore> {
    pub(crate) ring: &'a Ring<J, S>,
    pub(crate) own: SeatedCore<J, C>,
    number: u64,
    guesses: Guesses,
    last_key: LastKey,
}

/// A caller that holds each request until it hands out the reply, and no replies.
pub type RingClient<'a, J, S> = RingCaller<'a, J, S, ClientCore>;

impl<'a, J: Naming, S: EntryStore, C: AskingCore> Model for RingCaller<'a, J, S, C> {
    ghost use Rattle.std.specs.Prelude.{◌≡◌, ◌<◌};
    ghost use Rattle.chord_table.specs.Views.{CallerSight};

    ghost Value = { CallerSight };

    ghost view = { λ a. a.own };

    ghost invariant = { λ a. a.number < J.name.callers };
}

impl<'a, J: Naming, S: EntryStore, C: AskingCore> RingCaller<'a, J, S, C> {
    /// The core and the seat of a caller that the ring admitted.
    pub(crate) fn new(ring: &'a Ring<J, S>, core: C, seat: CallerSeat<J>) -> RingCaller<'a, J, S, C>
        requires core { C.is_core_of core seat.caller }
        requires number { seat.caller.number < J.name.callers }
        ensures same { result ≡ seat }
        ensures shown { CallerShown result }
    {
        let number = core.number();
        let own = SeatedCore::new(core, seat);
        let mut caller = RingCaller {
            ring,
            own,
            number,
            guesses: Guesses::new(),
            last_key: LastKey::new(),
        };
        caller.look();
        caller
    }

    /// The greatest number such that it and all below it are settled: taken or given up.
    pub fn floor(&self) -> u64
        ensures { result ≡ floor_of self.now.caller }
    {
        self.own.floor()
    }

    /// The least pending number. With none pending, the next request has the number after the
    /// floor.
    pub fn pending(&self) -> Option<u64>
        ensures { PendingIs self.now.caller result }
    {
        self.own.pending()
    }

    /// Whether the request of this number waits for its reply.
    pub fn is_pending(&self, number: u64) -> bool
        ensures { result ≡ is_pending number self.now.caller }
    {
        self.own.is_pending(number)
    }

    /// Gives the request of this number up, and tells whether it was pending: it is then settled
    /// without a reply, and a reply to it that comes later is not taken. What was sent of it may
    /// have acted, or may still act, once.
    pub fn give_up(&mut self, number: u64) -> bool
        ensures { GiveUpIs number self.old result self.new }
    {
        self.own.give_up(self.ring.table(), number)
    }

    /// Gives up all requests that are pending.
    pub fn give_up_all(&mut self)
        ensures idle { PendingIs self.new.caller None }
        ensures given { GaveUpSome self.old self.new }
    {
        self.own.give_up_all(self.ring.table());
    }

    /// The caller's seat, to be given back to the ring when that ends. Replies that it keeps are
    /// dropped.
    pub fn into_seat(self) -> CallerSeat<J>
        ensures { result ≡ self.entry }
    {
        self.own.into_seat()
    }

    /// A witness of the caller as it is now. One look of joined witnesses proves something of all
    /// their callers in one world.
    pub fn witness(&mut self) -> Witness<J>
        ensures same { self.new ≡ self.old }
        ensures noted { result ≡ self.old.caller ∷ [] }
    {
        self.own.witness(self.ring.table())
    }

    /// Proves that all calls it took or learned by notes are in one legal history.
    pub fn look(&mut self)
        ensures same { self.new ≡ self.old }
        ensures shown { CallerShown self.old }
    {
        self.own.look(self.ring.table());
    }

    /// Submits a request, if the caller takes it and there is such a node. Gives its number and its
    /// envelope.
    fn submit(&mut self, via: u64, request: Request) -> Result<(u64, Envelope<J>), BeginFault>
        ensures number { IfOk result (λ sent. sent.0 ≡ next_number self.old.caller) }
        ensures ok { IfOk result (λ sent. Submitted request self.old self.new) }
        ensures call { IfOk result (λ sent. IsCallOf self.new.caller sent.0 sent.1) }
        ensures err { IfErr result (λ fault. BeginIs request self.old.caller (Err fault) self.new.caller) }
        ensures same { OnErr result (self.new ≡ self.old) }
    {
        if !self.ring.was_admitted(via) {
            let refusal = self.own.refusal(&request);
            drop(request);
            return match refusal {
                Some(fault) => Err(BeginFault::Submit(fault)),
                None => Err(BeginFault::NoSuchNode),
            };
        }
        match self.own.submit(self.ring.table(), request) {
            Ok(sent) => Ok(sent),
            Err(fault) => Err(BeginFault::Submit(fault)),
        }
    }

    /// Submits a request, sends it once, and gives its number without waiting.
    pub fn begin(&mut self, rt: &impl Wait, via: u64, request: Request) -> Result<u64, BeginFault>
        ensures answer { BeginIs request self.old.caller result self.new.caller }
        ensures messages { self.new.messages ≡ self.old.messages }
        ensures shown { CallerShown self.new }
    {
        let begun = match self.submit(via, request) {
            Ok((number, envelope)) => {
                self.ring.post(rt, Target::Node(via), envelope);
                Ok(number)
            }
            Err(fault) => Err(fault),
        };
        self.look();
        begun
    }

    /// Waits for one message, no longer than `limit`. None: none came.
    fn hear<R: Wait + Clock>(
        &mut self,
        rt: &R,
        limit: Duration,
        number: u64,
    ) -> Option<Result<Reply, WaitFault>>
        ensures some { IfSome result (λ heard. Ended C.ends number self.old heard self.new) }
        ensures none { result ≡ None → self.new ≡ self.old }
    {
        let ring = self.ring;
        match ring.hear(rt, self.number, limit) {
            Some(envelope) => Some(self.own.take(ring.table(), envelope, number)),
            None => None,
        }
    }

    /// Waits for the reply to a request, no longer than `limit`.
    pub(crate) fn wait<R: Wait + Clock>(
        &mut self,
        rt: &R,
        number: u64,
        limit: Duration,
    ) -> Result<Reply, WaitFault>
        ensures { Ended C.ends number self.old result self.new }
    {
        let longest = Duration::from_millis(LONGEST_SLEEP_MS);
        let start = Instant::now(rt).ok();
        for _ in 0..u64::MAX {
            let left = self.ring.time_left(rt, &start, limit);
            match self.hear(rt, left.min(longest), number) {
                Some(Err(WaitFault::NoAnswer)) => {}
                Some(ended) => return ended,
                None if left > longest && start.is_some() => {}
                None => return Err(WaitFault::NoAnswer),
            }
        }
        Err(WaitFault::NoAnswer)
    }

    /// Takes in the answer to a carried call. One to another caller is passed on.
    fn take_carried(
        &mut self,
        rt: &impl Wait,
        carried: Carried<J>,
        number: u64,
    ) -> Result<Reply, WaitFault>
        ensures { Ended C.ends number self.old result self.new }
    {
        let ring = self.ring;
        if carried.caller == self.number {
            return self.own.take(ring.table(), carried.envelope, number);
        }
        ring.post(rt, Target::Caller(carried.caller), carried.envelope);
        Err(WaitFault::NoAnswer)
    }

    /// The node that answered last near this identifier, else `via`.
    fn first_node(&self, id: Id, via: u64) -> u64 {
        match self.guesses.guess(id) {
            Some(number) if self.ring.is_live(number) => number,
            _ => via,
        }
    }

    /// Remembers which node answered, or forgets the guess if none did.
    fn remember_node(&mut self, id: Id, node: Option<u64>)
        ensures { self.new ≡ self.old }
    {
        match node {
            Some(number) => self.guesses.remember(id, number),
            None => self.guesses.forget(id),
        }
    }

    /// The envelope with the identifier of its key.
    fn keyed(&mut self, envelope: Envelope<J>) -> Keyed<J>
        ensures envelope { result.envelope ≡ envelope }
        ensures same { self.new ≡ self.old }
    {
        let id = self.last_key.id_in(envelope.message());
        Keyed { envelope, id }
    }

    /// Carries an envelope from node to node, each event under that node's lock, and takes the
    /// reply. It begins at the guessed node; if that leads to no answer, the next time at `via`.
    fn carry(
        &mut self,
        rt: &impl Wait,
        via: u64,
        envelope: Envelope<J>,
        number: u64,
    ) -> Result<Reply, WaitFault>
        requires { IsCallOf self.old.caller number envelope }
        ensures { Ended C.ends number self.old result self.new }
    {
        let keyed = self.keyed(envelope);
        let id = keyed.id;
        match self.ring.carry_keyed(rt, self.first_node(id, via), keyed) {
            Some(carried) => {
                self.remember_node(id, Some(carried.from));
                self.take_carried(rt, carried, number)
            }
            None => {
                self.remember_node(id, None);
                Err(WaitFault::NoAnswer)
            }
        }
    }

    /// Sends an envelope, and waits no longer than `limit` if its reply does not come back at once.
    fn send<R: Wait + Clock>(
        &mut self,
        rt: &R,
        way: Way,
        envelope: Envelope<J>,
        number: u64,
        limit: Duration,
    ) -> Result<Reply, WaitFault>
        requires { IsCallOf self.old.caller number envelope }
        ensures { Ended C.ends number self.old result self.new }
    {
        match way.route {
            Route::Inbox => self.ring.post(rt, Target::Node(way.via), envelope),
            Route::Carried | Route::Tried => match self.carry(rt, way.via, envelope, number) {
                Err(WaitFault::NoAnswer) => {}
                ended => return ended,
            },
        }
        self.wait(rt, number, limit)
    }

    /// Sends a pending request again, and waits no longer than `limit` for its reply.
    fn send_again<R: Wait + Clock>(
        &mut self,
        rt: &R,
        way: Way,
        number: u64,
        limit: Duration,
    ) -> Result<Reply, WaitFault>
        requires { is_pending number self.old.caller ≡ true }
        ensures { Ended C.ends number self.old result self.new }
    {
        match self.own.resend(self.ring.table(), number) {
            Ok(envelope) => self.send(rt, way, envelope, number, limit),
            Err(_) => Err(WaitFault::Memory),
        }
    }

    /// How long it waits for the reply to a request that was sent for the first time.
    fn first_wait(&self, route: Route) -> Duration {
        match route {
            Route::Inbox => self.ring.wait_of_try(),
            Route::Carried => Duration::from_micros(FIRST_PAUSE_US),
            Route::Tried => Duration::ZERO,
        }
    }

    /// How long a try lasts.
    fn limit_of_try(&self, route: Route) -> Duration {
        match route {
            Route::Inbox | Route::Carried => self.ring.wait_of_try(),
            Route::Tried => Duration::ZERO,
        }
    }

    /// How many tries a request has.
    fn tries(&self, route: Route) -> u64
        ensures { 1 ≤ result }
    {
        match route {
            Route::Inbox | Route::Carried => self.ring.tries(),
            Route::Tried => 1,
        }
    }

    /// One more try: sends a pending request again. A call that is carried is sent again within the
    /// try too, after pauses that double, since the key that it is for may move just now.
    fn try_again<R: Wait + Clock>(
        &mut self,
        rt: &R,
        way: Way,
        number: u64,
    ) -> Result<Reply, WaitFault>
        requires { is_pending number self.old.caller ≡ true }
        ensures { Ended C.ends number self.old result self.new }
    {
        let start = Instant::now(rt).ok();
        let mut pause = self.first_wait(way.route);
        for _ in 0..MOST_SENDS {
            let left = self
                .ring
                .time_left(rt, &start, self.limit_of_try(way.route));
            match self.send_again(rt, way, number, left.min(pause)) {
                Err(WaitFault::NoAnswer) if pause < left => {}
                ended => return ended,
            }
            pause = pause.saturating_mul(2);
        }
        Err(WaitFault::NoAnswer)
    }

    /// Tries a pending request again, at most `times` times.
    fn send_repeatedly<R: Wait + Clock>(
        &mut self,
        rt: &R,
        way: Way,
        number: u64,
        times: u64,
    ) -> Result<Reply, WaitFault>
        requires { is_pending number self.old.caller ≡ true }
        ensures { Ended C.ends number self.old result self.new }
    {
        for _ in 0..times {
            match self.try_again(rt, way, number) {
                Err(WaitFault::NoAnswer) if !self.ring.is_stopped() => {}
                ended => return ended,
            }
        }
        Err(WaitFault::NoAnswer)
    }

    /// Sends a new request, as often as the ring's settings allow. A call that is carried has just
    /// begun its first try when it was sent once.
    fn send_until_answered<R: Wait + Clock>(
        &mut self,
        rt: &R,
        way: Way,
        envelope: Envelope<J>,
        number: u64,
    ) -> Result<Reply, WaitFault>
        requires pending { is_pending number self.old.caller ≡ true }
        requires call { IsCallOf self.old.caller number envelope }
        ensures { Ended C.ends number self.old result self.new }
    {
        let tries = self.tries(way.route);
        let limit = self.first_wait(way.route);
        match self.send(rt, way, envelope, number, limit) {
            Err(WaitFault::NoAnswer) => {}
            ended => return ended,
        }
        match way.route {
            Route::Inbox | Route::Tried => self.send_repeatedly(rt, way, number, tries - 1),
            Route::Carried => self.send_repeatedly(rt, way, number, tries),
        }
    }

    /// Submits a request, and sends it until it is answered.
    fn submit_and_send<R: Wait + Clock>(
        &mut self,
        rt: &R,
        way: Way,
        request: Request,
    ) -> Result<Reply, AskFault>
        ensures answer { CallIs C.ends request self.old result self.new }
    {
        let (number, envelope) = match self.submit(way.via, request) {
            Ok(sent) => sent,
            Err(fault) => return Err(AskFault::Begin(fault)),
        };
        match self.send_until_answered(rt, way, envelope, number) {
            Ok(reply) => Ok(reply),
            Err(fault) => Err(AskFault::Wait(fault)),
        }
    }

    /// Sends a pending request again until it is answered, as often as the ring's settings allow.
    fn send_pending<R: Wait + Clock>(
        &mut self,
        rt: &R,
        way: Way,
        number: u64,
    ) -> Result<Reply, RetryFault>
        ensures answer { RetryIs C.ends number self.old result self.new }
    {
        if !self.own.is_pending(number) {
            return Err(RetryFault::Idle);
        }
        if !self.ring.was_admitted(way.via) {
            return Err(RetryFault::NoSuchNode);
        }
        let tries = self.tries(way.route);
        match self.send_repeatedly(rt, way, number, tries) {
            Ok(reply) => Ok(reply),
            Err(fault) => Err(RetryFault::Wait(fault)),
        }
    }

    /// Submits a request and waits for its reply. The calling thread itself does each node's event,
    /// under that node's lock: no worker is needed. It begins at the node that answered last for
    /// identifiers with the same first byte, else at `via`. If no reply comes back, as while a
    /// handover is under way, it is sent again after 0.2 ms, 0.4 ms and so on within a try, as many
    /// tries as the ring's settings say. A request without its reply stays pending.
    pub fn call<R: Wait + Clock>(
        &mut self,
        rt: &R,
        via: u64,
        request: Request,
    ) -> Result<Reply, AskFault>
        ensures answer { CallIs C.ends request self.old result self.new }
        ensures shown { CallerShown self.new }
    {
        let answered = self.submit_and_send(rt, Way::carried(via), request);
        self.look();
        answered
    }

    /// Sends a pending request again, under its number, and waits for its reply as `call` does. It
    /// acts once, however often it is sent: if it was executed before, the holder answers with its
    /// kept reply.
    pub fn call_again<R: Wait + Clock>(
        &mut self,
        rt: &R,
        via: u64,
        number: u64,
    ) -> Result<Reply, RetryFault>
        ensures answer { RetryIs C.ends number self.old result self.new }
        ensures shown { CallerShown self.new }
    {
        let answered = self.send_pending(rt, Way::carried(via), number);
        self.look();
        answered
    }

    /// Submits a request and carries it once, as `call` does, without a wait. One that got no answer
    /// stays pending, for `try_call_again`.
    pub fn try_call<R: Wait + Clock>(
        &mut self,
        rt: &R,
        via: u64,
        request: Request,
    ) -> Result<Reply, AskFault>
        ensures answer { CallIs C.ends request self.old result self.new }
        ensures shown { CallerShown self.new }
    {
        let answered = self.submit_and_send(rt, Way::tried(via), request);
        self.look();
        answered
    }

    /// Carries a pending request once more under its number, or takes what came for it, without a
    /// wait.
    pub fn try_call_again<R: Wait + Clock>(
        &mut self,
        rt: &R,
        via: u64,
        number: u64,
    ) -> Result<Reply, RetryFault>
        ensures answer { RetryIs C.ends number self.old result self.new }
        ensures shown { CallerShown self.new }
    {
        let answered = self.send_pending(rt, Way::tried(via), number);
        self.look();
        answered
    }

    /// Submits a request and waits for its reply. It is sent up to as many times as the ring's
    /// settings say, with a wait after each; a worker of the node has to run.
    pub fn ask<R: Wait + Clock>(
        &mut self,
        rt: &R,
        via: u64,
        request: Request,
    ) -> Result<Reply, AskFault>
        ensures answer { CallIs C.ends request self.old result self.new }
        ensures shown { CallerShown self.new }
    {
        let answered = self.submit_and_send(rt, Way::by_inbox(via), request);
        self.look();
        answered
    }

    /// Sends a pending request again, under its number, and waits for its reply as `ask` does.
    pub fn retry<R: Wait + Clock>(
        &mut self,
        rt: &R,
        via: u64,
        number: u64,
    ) -> Result<Reply, RetryFault>
        ensures answer { RetryIs C.ends number self.old result self.new }
        ensures shown { CallerShown self.new }
    {
        let answered = self.send_pending(rt, Way::by_inbox(via), number);
        self.look();
        answered
    }
}
