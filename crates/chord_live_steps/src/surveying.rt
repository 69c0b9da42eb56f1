//! The seats of all nodes at one moment, for a departure.
ghost use Rattle.std.specs.Prelude.{◌≡◌, ◌≢◌, ◌↔◌, ◌++◌, ◌∷◌, ◌<◌, ℕ, [], true, false, length, map, IsTrue};
ghost use Rattle.chord_live_steps.specs.Departures.{IsAllowed, MayDepart, departed, number_of, rows_among};
ghost use Rattle.chord_live_steps.specs.declared.departure.Departure.TheVariants.{Retire};
ghost use Rattle.chord_ring.specs.Ring.{Members, CanDepart};
ghost use Rattle.chord_table.specs.Rings.{AreMembers};
ghost use Rattle.chord_table.specs.Seen.{OfNode};
ghost use Rattle.chord_table.specs.Views.{HasAllNodes, MayRetire, all_but_last, as_actor, as_node, crashed_in, last_of, node_in, nodes_among};

use crate::departure::Departure;
use crate::numbers::Numbers;
use chord_ring::{MemberRow, can_depart_among};
use chord_table::{Naming, NodeSeat, Registrar, Shared};

/// A node departs, whose seat was taken in with those of all others.
fn depart_now<J: Naming>(registrar: &mut Registrar<J>, table: &Shared<J>, departure: Departure)
    requires whole { HasAllNodes registrar.old }
    requires can { (members : Members) × AreMembers registrar.old members × CanDepart members (number_of departure) }
    requires may { (number : ℕ) → departure ≡ Retire number → MayRetire registrar.old.taken number }
    ensures { registrar.new ≡ record registrar.old { taken = map (departed departure) registrar.old.taken } }
{
    match departure {
        Departure::Crash(number) => registrar.crash(table, number),
        Departure::Retire(number) => registrar.retire(table, number),
    }
}

impl<J: Naming> Numbers<J> {
    /// Takes in a node's seat, where it has fewer than there ever were nodes. That of a node that
    /// is gone may stay for good.
    pub fn take_node(&mut self, table: &Shared<J>, seat: NodeSeat<J>)
        requires some_left { length (nodes_among self.old.taken) < self.old.nodes }
        ensures { self.new ≡ record self.old { taken = self.old.taken ++ as_actor seat ∷ [] } }
    {
        if self.held >= self.ids.len() {
            unreachable!()
        }
        self.registrar.take_node(table, seat);
        self.held += 1;
    }

    /// Gives back the last seat that was taken in, which is that of the node in this slot.
    pub fn give_node(&mut self, table: &Shared<J>, slot: usize) -> NodeSeat<J>
        requires some { self.old.taken ≢ [] }
        requires node { (last_of self.old.taken).actor ≡ OfNode (node_in (last_of self.old.taken).actor) (crashed_in (last_of self.old.taken).actor) }
        requires slot { slot < J.name.slots }
        ensures left { self.new ≡ record self.old { taken = all_but_last self.old.taken } }
        ensures seat { result ≡ as_node (last_of self.old.taken) }
    {
        self.held -= 1;
        self.registrar.give_node(table, slot)
    }

    /// A node departs, if the seats of all nodes were taken in and the ring of the others is safe.
    /// The board has the rows of the members among them.
    pub fn depart(&mut self, table: &Shared<J>, board: &[MemberRow], departure: Departure) -> bool
        requires board { board.now ≡ rows_among self.old.taken }
        requires may { MayDepart departure self.old.taken }
        ensures variant { IsTrue result ↔ IsAllowed departure self.old.nodes self.old.taken }
        ensures done { result ≡ true → self.new ≡ record self.old { taken = map (departed departure) self.old.taken } }
        ensures kept { result ≡ false → self.new ≡ self.old }
    {
        let nodes = self.ids.len();
        if self.held != nodes {
            return false;
        }
        if !can_depart_among(board, nodes as u64, departure.number()) {
            return false;
        }
        self.registrar.look(table);
        depart_now(&mut self.registrar, table, departure);
        true
    }

    /// A node crashes by force: nobody asks the ring, and the premise is gone for good.
    pub fn crash_by_force(&mut self, table: &Shared<J>, seat: NodeSeat<J>) -> NodeSeat<J>
        requires live { seat.crashed ≡ false }
        ensures broken { self.new ≡ record self.old { premise = false } }
        ensures seat { result ≡ record seat { crashed = true } }
    {
        self.premise = false;
        self.registrar.crash_by_force(table, seat)
    }
}
