//! One world for several callers.
ghost use Rattle.std.specs.Prelude.{◌≡◌, [], ◌∷◌};
ghost use Rattle.chord_table.specs.Shown.{WitnessShown};

use super::{Exchange, FRESH_AND_ADDED, founded, hears, let_go};
use crate::checks::check;
use chord_caller::CallerCore;
use chord_store::CappedStore;
use chord_table::{CallerSeat, Naming, Registrar, Shared, TableParts, Witness};
use std::alloc::Global;
use std::marker::Brand;
use std::test::Fail;

#[test]
fn two_callers_share_a_world(rt: HostRuntime) -> Result<(), Fail> {
    let parts = Registrar::open(rt.alloc(), 2, 2)?;
    let heard = two_share_a_world::<Brand>(rt.alloc(), parts)?;
    check!(&rt; heard == FRESH_AND_ADDED);
    Ok(())
}

/// Proves that what two callers took is in one history of one world, each call once.
fn share_a_world<J: Naming>(
    table: &Shared<J>,
    first: &mut CallerSeat<J>,
    second: &mut CallerSeat<J>,
) -> Witness<J>
    ensures callers { result ≡ first.old.caller ∷ second.old.caller ∷ [] }
    ensures shown { WitnessShown result }
{
    let mut all = Witness::open(table);
    all.join(table, first.witness(table));
    all.join(table, second.witness(table));
    all.look(table);
    all
}

/// A node answers the first of two callers, and then one look proves something of both. Gives what
/// `hears` gives.
fn two_share_a_world<J: Naming>(alloc: Global, parts: TableParts) -> Result<Exchange, Fail>
    requires name { parts ≡ J.name }
    requires slots { parts.slots ≡ 2 }
    requires callers { parts.callers ≡ 2 }
{
    let mut node = founded(alloc, 0, CappedStore::new(alloc, 4))?;
    let (table, mut registrar) = parts.assemble::<J>();
    let mut seat = registrar.admit_node(&table, 0, &node);
    let mut core = CallerCore::new(alloc, 0, 1);
    let mut first = registrar.admit_caller(&table, 0, &core);
    let mut second = registrar.open_caller(&table, 1, 1);
    let heard = hears(alloc, &table, &mut node, &mut seat, &mut core, &mut first);
    drop(share_a_world(&table, &mut first, &mut second));
    drop(second);
    drop(first);
    drop(core);
    let_go(table, registrar, node, seat);
    heard
}
