//! Opening callers.
ghost use Rattle.std.specs.Prelude.{◌≡◌, ◌≤◌, IfOk};
ghost use Rattle.chord_caller.specs.Answers.{new_caller};
ghost use Rattle.chord_table.specs.Shown.{CallerShown};

use crate::keeping::Caller;
use crate::ring_caller::{RingCaller, RingClient};
use chord_live_ring::{OpenClientFault, OpenFault, Ring};
use chord_store::EntryStore;
use chord_table::Naming;
use std::sync::Wait;

/// Opens callers and clients under the next free number. A ring implements it.
pub trait OpenCaller<J: Naming, S: EntryStore> {
    /// A caller with a window of 1 to 16 requests, which stores all that it takes.
    fn open_caller(&self, rt: &impl Wait, window: u64) -> Result<Caller<'_, J, S>, OpenFault>
        requires some { 1 ≤ window }
        requires small { window ≤ 16 }
        ensures opened { IfOk result (λ caller. caller.caller ≡ new_caller caller.caller.number window) }
        ensures shown { IfOk result (λ caller. CallerShown caller) };

    /// A client with a window of 1 to 16 requests. It has room for those, and holds no more.
    fn open_client(
        &self,
        rt: &impl Wait,
        window: u64,
    ) -> Result<RingClient<'_, J, S>, OpenClientFault>
        requires some { 1 ≤ window }
        requires small { window ≤ 16 }
        ensures opened { IfOk result (λ client. client.caller ≡ new_caller client.caller.number window) }
        ensures shown { IfOk result (λ client. CallerShown client) };
}

impl<J: Naming, S: EntryStore> OpenCaller<J, S> for Ring<J, S> {
    fn open_caller(&self, rt: &impl Wait, window: u64) -> Result<Caller<'_, J, S>, OpenFault> {
        let (core, seat) = self.admit_caller(rt, window)?;
        Ok(RingCaller::new(self, core, seat))
    }

    fn open_client(
        &self,
        rt: &impl Wait,
        window: u64,
    ) -> Result<RingClient<'_, J, S>, OpenClientFault> {
        let (core, seat) = self.admit_client(rt, window)?;
        Ok(RingCaller::new(self, core, seat))
    }
}
