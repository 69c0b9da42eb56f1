//! One look over the seats of all actors.
ghost use Rattle.std.specs.Prelude.{◌≡◌, [], ◌∷◌};
ghost use Rattle.chord_table.specs.Seen.{OfCaller};
ghost use Rattle.chord_table.specs.Shown.{WholeShown};
ghost use Rattle.chord_table.specs.Views.{as_actor};

use super::founded;
use chord_store::CappedStore;
use chord_table::{CallerSeat, Naming, NodeSeat, Registrar, Shared, TableParts};
use std::alloc::Global;
use std::marker::Brand;
use std::test::Fail;

/// Proves that a node and a caller, the only ones admitted, are a reachable world.
fn are_a_world<J: Naming>(
    table: &Shared<J>,
    registrar: Registrar<J>,
    node: NodeSeat<J>,
    caller: CallerSeat<J>,
) -> Registrar<J>
    requires alone { registrar.taken ≡ [] }
    requires nodes { registrar.register.nodes ≡ node.node.number ∷ [] }
    requires callers { registrar.register.callers ≡ caller.caller.number ∷ [] }
    ensures both { result.taken ≡ as_actor node ∷ record { actor = OfCaller caller.caller; messages = caller.messages } ∷ [] }
    ensures shown { WholeShown result }
{
    let mut all = registrar;
    all.take_node(table, node);
    all.take_caller(table, caller);
    all.look_whole(table);
    all
}

/// Admits a node and a caller, and proves that they are a reachable world.
fn two_are_a_world<J: Naming>(alloc: Global, parts: TableParts) -> Result<(), Fail>
    requires name { parts ≡ J.name }
    requires slots { parts.slots ≡ 1 }
    requires callers { parts.callers ≡ 1 }
{
    let node = founded(alloc, 0, CappedStore::new(alloc, 4))?;
    let (table, mut registrar) = parts.assemble::<J>();
    let first = registrar.admit_node(&table, 0, &node);
    let second = registrar.open_caller(&table, 0, 1);
    drop(are_a_world(&table, registrar, first, second));
    drop(node);
    drop(table);
    Ok(())
}

#[test]
fn a_node_and_a_caller_are_a_world(rt: HostRuntime) -> Result<(), Fail> {
    let parts = Registrar::open(rt.alloc(), 1, 1)?;
    two_are_a_world::<Brand>(rt.alloc(), parts)
}
