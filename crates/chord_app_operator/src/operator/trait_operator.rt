//! The operator of a ring.
ghost use Rattle.std.specs.Prelude.{};
ghost use Rattle.chord_app_operator.specs.Questions.{Question, Sight, Health, Join, Leave, Crash, Rescue, Hold, ReadPairs, Stop, Answer, Seen, HealthTold, Joined, BeganToLeave, HasCrashed, RescueBegan, Held, PairsRead, Stopping};

use super::holder::Holder;
use super::pairs::PairsPage;
use super::refusals::{CrashRefusal, JoinRefusal, LeaveRefusal, RescueRefusal};
use crate::request::{CrashRequest, JoinRequest, PairsRequest};
use crate::sight::{HealthSight, RingSight};
use chord_ident::Id;
use std::alloc::{AllocError, Global};

/// Does what an operator asks for.
pub trait Operator {
    /// In this state the question may get this answer, which leaves the next state.
    ghost answers: { Self → Question → Answer → Self → Type 0 };

    /// Looks at the ring.
    fn sight(&mut self, alloc: Global) -> Result<RingSight, AllocError>
        ensures { answers self.old Sight (Seen result) self.new };

    /// Whether the server can serve.
    fn health(&mut self) -> HealthSight
        ensures { answers self.old Health (HealthTold result) self.new };

    /// Makes a node join, and tells its number.
    fn join(&mut self, request: JoinRequest) -> Result<u64, JoinRefusal>
        ensures { answers self.old (Join request) (Joined result) self.new };

    /// The node with this number begins to leave.
    fn leave(&mut self, node: u64) -> Result<(), LeaveRefusal>
        ensures { answers self.old (Leave node) (BeganToLeave result) self.new };

    /// The node crashes.
    fn crash(&mut self, request: CrashRequest) -> Result<(), CrashRefusal>
        ensures { answers self.old (Crash request) (HasCrashed result) self.new };

    /// The node with this number, which crashed, begins to be rescued.
    fn rescue(&mut self, node: u64) -> Result<(), RescueRefusal>
        ensures { answers self.old (Rescue node) (RescueBegan result) self.new };

    /// Who holds the identifier.
    fn holder(&mut self, id: Id) -> Holder
        ensures { answers self.old (Hold id) (Held result) self.new };

    /// Reads pairs.
    fn pairs(&mut self, alloc: Global, request: PairsRequest) -> Result<PairsPage, AllocError>
        ensures { answers self.old (ReadPairs request) (PairsRead result) self.new };

    /// The server ends soon, as at the end of its standard input.
    fn stop(&mut self)
        ensures { answers self.old Stop Stopping self.new };
}
