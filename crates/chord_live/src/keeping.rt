//! A caller that stores all that it took.
ghost use Rattle.std.specs.Prelude.{◌≡◌, ◌++◌, [], ◌∷◌, IfOk, IfSome, OnErr, Ok, None, true, is_some};
ghost use Rattle.chord_caller.specs.Caller.{known_calls, submission_at};
ghost use Rattle.chord_live_steps.specs.Asking.{CollectIs, MeetIs};
ghost use Rattle.chord_live_steps.specs.Ending.{Ended, IsTaken, WaitIs};
ghost use Rattle.chord_map.specs.History.{done_at};
ghost use Rattle.chord_model.specs.declared.message.Message.TheVariants.{Note as NoteMessage};
ghost use Rattle.chord_table.specs.Shown.{CallerShown};

use crate::ring_caller::RingCaller;
use chord_caller::CallerCore;
use chord_live_steps::NoteEnvelope;
use chord_live_types::{CollectFault, WaitFault};
use chord_map::{Done, Reply};
use chord_store::EntryStore;
use chord_table::Naming;
use std::alloc::AllocError;
use std::sync::Wait;
use std::time::Clock;

/// A caller that stores all that it took, and gives notes of what it knows.
pub type Caller<'a, J, S> = RingCaller<'a, J, S, CallerCore>;

impl<'a, J: Naming, S: EntryStore> RingCaller<'a, J, S, CallerCore> {
    /// The calls whose replies it took, in the order taken.
    pub fn mine(&self) -> &[Done]
        ensures { result.now ≡ self.now.caller.mine }
    {
        self.own.mine()
    }

    /// The calls that it learned by others' notes.
    pub fn told(&self) -> &[Done]
        ensures { result.now ≡ self.now.caller.told }
    {
        self.own.told()
    }

    /// A note of all that the caller knows, for another caller of the same ring to meet.
    pub fn show(&mut self) -> Result<NoteEnvelope<J>, AllocError>
        ensures same { self.new ≡ self.old }
        ensures note { IfOk result (λ shown. shown ≡ record { caller = self.old.caller.number; done = known_calls self.old.caller }) }
    {
        self.own.show(self.ring.table())
    }

    /// Learns the calls of another caller's note that it did not know. A note that it refuses is
    /// lost.
    pub fn meet(&mut self, shown: NoteEnvelope<J>) -> Result<(), AllocError>
        ensures messages { self.new.messages ≡ self.old.messages ++ NoteMessage shown ∷ [] }
        ensures answer { MeetIs shown self.old.caller result self.new.caller }
        ensures shown { CallerShown self.new }
    {
        let met = self.own.meet(self.ring.table(), shown);
        self.look();
        met
    }

    /// Waits for the reply to a pending request as long as `ask` does, and sends nothing.
    fn wait_all_tries<R: Wait + Clock>(&mut self, rt: &R, number: u64) -> Result<Reply, WaitFault>
        ensures { Ended WaitIs number self.old result self.new }
    {
        for _ in 0..self.ring.tries() {
            let limit = self.ring.wait_of_try();
            match self.wait(rt, number, limit) {
                Err(WaitFault::NoAnswer) if !self.ring.is_stopped() => {}
                ended => return ended,
            }
        }
        Err(WaitFault::NoAnswer)
    }

    /// The reply to a submitted request: taken before, or one that comes now.
    fn find_or_wait<R: Wait + Clock>(&mut self, rt: &R, number: u64) -> Result<Reply, CollectFault>
        ensures { CollectIs number self.old result self.new }
    {
        if !self.own.was_submitted(number) {
            return Err(CollectFault::NotBegun);
        }
        match self.own.reply_to(number) {
            Ok(Some(reply)) => return Ok(reply),
            Ok(None) => {}
            Err(_) => return Err(CollectFault::Wait(WaitFault::Memory)),
        }
        match self.wait_all_tries(rt, number) {
            Ok(reply) => Ok(reply),
            Err(fault) => Err(CollectFault::Wait(fault)),
        }
    }

    /// The reply to a request that was submitted before. It waits as long as `ask` does, and sends
    /// nothing.
    pub fn collect<R: Wait + Clock>(&mut self, rt: &R, number: u64) -> Result<Reply, CollectFault>
        ensures answer { CollectIs number self.old result self.new }
        ensures shown { CallerShown self.new }
    {
        let collected = self.find_or_wait(rt, number);
        self.look();
        collected
    }
}
