//! What is proved of callers that took or learned something: it is in one history of one world.
ghost use Rattle.std.specs.Prelude.{◌≡◌, [], ◌∷◌};
ghost use Rattle.chord_table.specs.Shown.{WitnessShown};

use chord_live::{Caller, RingClient};
use chord_live_ring::Ring;
use chord_store::EntryStore;
use chord_table::{Naming, Witness};

/// What both callers took and learned.
pub fn share_a_world<J: Naming, S: EntryStore>(
    ring: &Ring<J, S>,
    zero: &mut Caller<'_, J, S>,
    one: &mut Caller<'_, J, S>,
)
    ensures { WitnessShown (zero.old.caller ∷ one.old.caller ∷ []) }
{
    let mut all = Witness::open(ring.table());
    all.join(ring.table(), zero.witness());
    all.join(ring.table(), one.witness());
    all.look(ring.table());
    drop(all);
}

/// What the client was handed out.
pub fn is_in_a_world<J: Naming, S: EntryStore>(ring: &Ring<J, S>, client: &mut RingClient<'_, J, S>)
    ensures { WitnessShown (client.old.caller ∷ []) }
{
    let mut all = Witness::open(ring.table());
    all.join(ring.table(), client.witness());
    all.look(ring.table());
    drop(all);
}
