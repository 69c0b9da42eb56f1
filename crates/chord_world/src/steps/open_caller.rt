//! Opening callers.
ghost use Rattle.chord_world.specs.State.{KeepsRing};
ghost use Rattle.chord_world.specs.Steps.{OpenIs, Advances};

use crate::outcome::Outcome;
use crate::refusal::{Refusal, StepFault};
use crate::world::World;
use chord_caller::CallerCore;
use chord_store::EntryStore;

impl<S: EntryStore> World<S> {
    /// Opens a caller under the next number.
    pub(crate) fn open_caller(&mut self, window: u64) -> Result<Outcome, Refusal>
        ensures answer { OpenIs window self.old result self.new }
        ensures step { Advances self.old result self.new }
        ensures ring { KeepsRing self.old self.new }
    {
        if window < 1 || 16 < window {
            return Err(Refusal::Step(StepFault::BadWindow));
        }
        if self.callers.reserve(1).is_err() {
            return Err(Refusal::Memory);
        }
        let number = self.callers.len() as u64;
        self.callers
            .push_reserved(CallerCore::new(self.alloc, number, window));
        Ok(Outcome::Caller(number))
    }
}
