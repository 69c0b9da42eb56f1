//! Giving requests up.
ghost use Rattle.std.specs.Prelude.{◌<◌, length};
ghost use Rattle.chord_world.specs.State.{KeepsRing};
ghost use Rattle.chord_world.specs.Steps.{Advances};
ghost use Rattle.chord_world.specs.Calling.{MayGiveUp, CanGiveUp, GaveUp, GiveUpIs};

use crate::outcome::Outcome;
use crate::refusal::{Refusal, StepFault};
use crate::world::World;
use chord_caller::CallerCore;
use chord_store::EntryStore;

/// The caller at this index gives its pending request of this number up.
fn give_up_at(callers: &mut Vec<CallerCore>, place: usize, number: u64)
    requires place { place < length callers.old.items }
    requires can { CanGiveUp place number callers.old.items }
    ensures { GaveUp place number callers.old.items callers.new.items }
{
    let core = &mut callers[place];
    core.give_up(number);
}

impl<S: EntryStore> World<S> {
    /// Whether the caller may give its request of this number up.
    fn may_give_up(&self, caller: u64, number: u64) -> Result<(), Refusal>
        ensures { MayGiveUp caller number self.now result }
    {
        self.is_caller(caller)?;
        if !self.callers[caller as usize].is_pending(number) {
            return Err(Refusal::Step(StepFault::Idle));
        }
        Ok(())
    }

    /// The caller gives its pending request of this number up.
    pub(crate) fn give_up(&mut self, caller: u64, number: u64) -> Result<Outcome, Refusal>
        ensures answer { GiveUpIs caller number self.old result self.new }
        ensures step { Advances self.old result self.new }
        ensures ring { KeepsRing self.old self.new }
    {
        self.may_give_up(caller, number)?;
        give_up_at(&mut self.callers, caller as usize, number);
        Ok(Outcome::Done)
    }
}
