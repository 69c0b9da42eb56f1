//! The rule of the table.

use crate::view::View;
use atomic_table::TableRule;

/// The seats show a reachable world: one that some list of steps leads to.
pub struct Law;

impl TableRule<u8, View, ()> for Law {
    ghost use Rattle.std.specs.Prelude.{[], true};
    ghost use Rattle.chord_table.specs.Seen.{Admitted};
    ghost use Rattle.chord_table.specs.Views.{IsKept, known_as};

    ghost holds = { λ _. IsKept };

    ghost first = { λ _. Admitted [] [] (known_as [] true []) [] };
}
