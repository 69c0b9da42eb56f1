//! A node that was a principal of the ring, as the register knows it.
ghost use Rattle.std.specs.Prelude.{◌≡◌, ℕ, ◌++◌, [], ◌∷◌, false};
ghost use Rattle.chord_links.specs.NodeLinks.{alone};
ghost use Rattle.chord_model.specs.Node.{founder};

use super::founded;
use chord_store::CappedStore;
use chord_table::{Naming, NodeSeat, Registrar, Shared, TableParts};
use std::alloc::Global;
use std::marker::Brand;
use std::test::Fail;

/// Proves that the only node is a principal, and registers it as one.
fn stands<J: Naming>(table: &Shared<J>, registrar: Registrar<J>, node: NodeSeat<J>) -> Registrar<J>
    requires taken { registrar.taken ≡ [] }
    requires nodes { registrar.register.nodes ≡ 0 ∷ [] }
    requires ids { registrar.register.ids ≡ 5 ∷ [] }
    requires founder { (limit : ℕ) × (node ≡ record { node = founder (alone (record { number = 0; id = record { number = 5 } }) 3) limit; crashed = false; messages = [] }) }
    ensures principals { result.register.principals ≡ registrar.register.principals ++ 0 ∷ [] }
{
    let mut all = registrar;
    all.take_node(table, node);
    all.look_ring(table);
    let mut first = all.stand(table, 0);
    let second = first.again(table);
    drop(first);
    all.heed(table, second);
    all
}

/// Admits a first node, and proves that it is a principal.
fn one_stands<J: Naming>(alloc: Global, parts: TableParts) -> Result<(), Fail>
    requires name { parts ≡ J.name }
    requires slots { parts.slots ≡ 1 }
{
    let node = founded(alloc, 0, CappedStore::new(alloc, 4))?;
    let (table, mut registrar) = parts.assemble::<J>();
    let seat = registrar.admit_node(&table, 0, &node);
    drop(stands(&table, registrar, seat));
    drop(node);
    drop(table);
    Ok(())
}

#[test]
fn a_first_node_is_a_principal(rt: HostRuntime) -> Result<(), Fail> {
    let parts = Registrar::open(rt.alloc(), 1, 0)?;
    one_stands::<Brand>(rt.alloc(), parts)
}
