//! A caller with no pending request.
ghost use Rattle.std.specs.Prelude.{◌≡◌, None};
ghost use Rattle.chord_caller.specs.Answers.{PendingIs};
ghost use Rattle.chord_live_steps.specs.Asking.{GaveUpSome};

use chord_app_sockets::Ended;
use chord_live::{OpenCaller, RingClient};
use chord_live_ring::{OpenClientFault, Ring};
use chord_serve::Served;
use chord_store::EntryStore;
use chord_table::Naming;
use std::sync::Wait;

/// How many requests of a client may be in flight.
const WINDOW: u64 = 16;

/// A caller of which all requests are answered or given up.
#[derive(Drop)]
pub struct IdleCaller<'a, J: Naming, S: EntryStore> {
    caller: RingClient<'a, J, S>,
    ghost idle: { PendingIs caller.caller None },
}

impl<'a, J: Naming, S: EntryStore> IdleCaller<'a, J, S> {
    /// The caller, which gives up all requests that are pending. It waits for nothing.
    pub fn freed(caller: RingClient<'a, J, S>) -> IdleCaller<'a, J, S>
        ensures { GaveUpSome caller.entry result.caller }
    {
        let mut caller = caller;
        caller.give_up_all();
        IdleCaller { caller }
    }

    /// Opens a caller, or says how a connection ends that gets none.
    pub fn open(rt: &impl Wait, ring: &'a Ring<J, S>) -> Result<IdleCaller<'a, J, S>, Ended> {
        match ring.open_client(rt, WINDOW) {
            Ok(caller) => Ok(IdleCaller::freed(caller)),
            Err(OpenClientFault::Memory) => Err(Ended::Served(Served::Memory)),
            Err(_) => Err(Ended::CallersSpent),
        }
    }

    pub fn into_caller(self) -> RingClient<'a, J, S>
        ensures same { result ≡ self.entry.caller }
        ensures idle { PendingIs result.caller None }
    {
        self.caller
    }
}
