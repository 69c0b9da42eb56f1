//! The registrar's seat with other seats that it took in: all of them at one moment.
ghost use Rattle.std.specs.Prelude.{◌≡◌, ◌≢◌, ◌<◌, ℕ, IsTrue, Contains, ◌++◌, [], ◌∷◌, true, false, map};
ghost use Rattle.chord_ring.specs.Ring.{Members, CanDepart, IsPrincipal, is_member};
ghost use Rattle.chord_table.specs.Seen.{OfNode, OfCaller};
ghost use Rattle.chord_table.specs.Shown.{AssemblyShown, WholeShown};
ghost use Rattle.chord_table.specs.Rings.{AreMembers, StandsOnRing};
ghost use Rattle.chord_table.specs.Views.{HasAllNodes, IsTrueOfSome, IsWhole, MayRetire, crash_sight, retire_sight, nodes_among, last_of, all_but_last, as_actor, as_node, node_in, crashed_in, view_of_assembled};

use crate::actor_seat::ActorSeat;
use crate::caller_seat::CallerSeat;
use crate::event::Numbered;
use crate::laws::each_scene_holds;
use crate::moves::{Crash, Give, Heed, Look, Retire, Stand, Take};
use crate::naming::Naming;
use crate::node_seat::NodeSeat;
use crate::registrar::Registrar;
use crate::shared::Shared;
use crate::standing_node::StandingNode;
use std::marker::{Brand, PhantomData};

impl<J: Naming> Registrar<J> {
    /// Takes in a node's seat. That of a node that is gone may stay with the registrar's for good:
    /// it counts from then on wherever the seats of all nodes are asked for.
    pub fn take_node(&mut self, table: &Shared<J>, seat: NodeSeat<J>)
        ensures { self.new ≡ record self.old { taken = self.old.taken ++ as_actor seat ∷ [] } }
    {
        let NodeSeat { seat } = seat;
        self.take(table, seat);
    }

    /// Takes in a caller's seat.
    pub fn take_caller(&mut self, table: &Shared<J>, seat: CallerSeat<J>)
        ensures { self.new ≡ record self.old {
          taken = self.old.taken
              ++ record { actor = OfCaller seat.caller; messages = seat.messages } ∷ [];
        } }
    {
        let CallerSeat { seat } = seat;
        self.take(table, seat);
    }

    /// Proves that the theorem holds of one world that has those registered and no others, and each
    /// actor taken in as its seat showed it.
    pub fn look(&mut self, table: &Shared<J>)
        ensures same { self.new ≡ self.old }
        ensures shown { AssemblyShown self.old }
    {
        each_scene_holds();
        self.see(table);
    }

    /// If all seats were taken in, proves that these nodes and callers are a reachable world.
    pub fn look_whole(&mut self, table: &Shared<J>)
        requires whole { IsWhole self.old }
        ensures same { self.new ≡ self.old }
        ensures shown { WholeShown self.old }
    {
        self.look(table);
    }

    /// Records that a node crashed, if the seats of all nodes were taken in and the ring of the
    /// others is safe.
    pub fn crash(&mut self, table: &Shared<J>, number: u64)
        requires whole { HasAllNodes self.old }
        requires can { (members : Members) × AreMembers self.old members × CanDepart members number }
        ensures { self.new ≡ record self.old { taken = map (crash_sight number) self.old.taken } }
    {
        self.crash_node::<Brand>(table, number);
    }

    fn crash_node<N: Numbered>(&mut self, table: &Shared<J>, number: u64)
        requires own { number ≡ N.number }
        requires whole { HasAllNodes self.old }
        requires can { (members : Members) × AreMembers self.old members × CanDepart members number }
        ensures { self.new ≡ record self.old { taken = map (crash_sight number) self.old.taken } }
    {
        let _ = number;
        table.table.shared.load::<Crash<N>>(&mut self.seat, 0);
    }

    /// If the seats of all nodes were taken in and no node crashed by force, proves that they are
    /// on one ring: the bare links of those that neither crashed nor are gone are a ring that steps
    /// and departures lead to. Each of them that the register has as a principal still is one.
    pub fn look_ring(&mut self, table: &Shared<J>)
        requires whole { HasAllNodes self.old }
        requires some { nodes_among self.old.taken ≢ [] }
        ensures same { self.new ≡ self.old }
        ensures shown { self.old.register.premise ≡ true →
            (members : Members) → AreMembers self.old members → StandsOnRing members }
        ensures principals { self.old.register.premise ≡ true →
            (members : Members) → AreMembers self.old members →
            (number : ℕ) → Contains self.old.register.principals number →
            IsTrue (is_member members number) → IsPrincipal members number }
    {
        each_scene_holds();
        self.see(table);
    }

    /// Records that a leaving node that holds nothing is gone, if the seats of all nodes were taken
    /// in and the ring of the others is safe.
    pub fn retire(&mut self, table: &Shared<J>, number: u64)
        requires whole { HasAllNodes self.old }
        requires may { MayRetire self.old.taken number }
        requires can { (members : Members) × AreMembers self.old members × CanDepart members number }
        ensures { self.new ≡ record self.old { taken = map (retire_sight number) self.old.taken } }
    {
        self.retire_node::<Brand>(table, number);
    }

    fn retire_node<N: Numbered>(&mut self, table: &Shared<J>, number: u64)
        requires own { number ≡ N.number }
        requires whole { HasAllNodes self.old }
        requires may { MayRetire self.old.taken number }
        requires can { (members : Members) × AreMembers self.old members × CanDepart members number }
        ensures { self.new ≡ record self.old { taken = map (retire_sight number) self.old.taken } }
    {
        let _ = number;
        table.table.shared.load::<Retire<N>>(&mut self.seat, 0);
    }

    /// If the seats of all nodes were taken in and this one is a principal, gives a seat that says
    /// so from then on.
    pub fn stand(&mut self, table: &Shared<J>, number: u64) -> StandingNode<J>
        requires whole { HasAllNodes self.old }
        requires principal { (members : Members) × AreMembers self.old members × IsPrincipal members number }
        ensures same { self.new ≡ self.old }
        ensures number { result ≡ number }
    {
        self.stand_node::<Brand>(table, number)
    }

    fn stand_node<N: Numbered>(&mut self, table: &Shared<J>, number: u64) -> StandingNode<J>
        requires own { number ≡ N.number }
        requires whole { HasAllNodes self.old }
        requires principal { (members : Members) × AreMembers self.old members × IsPrincipal members number }
        ensures same { self.new ≡ self.old }
        ensures number { result ≡ number }
    {
        let _ = number;
        let seat = table.table.shared.split_seat::<Stand<N>>(&mut self.seat);
        StandingNode {
            seat,
            of: PhantomData,
        }
    }

    /// Takes in a seat that shows a principal: the register has it as one from then on.
    pub fn heed(&mut self, table: &Shared<J>, standing: StandingNode<J>)
        ensures { self.new ≡ record self.old {
          register = record self.old.register {
            principals = self.old.register.principals ++ standing ∷ [];
          };
        } }
    {
        let StandingNode { seat, of: _ } = standing;
        table.table.shared.join_seat::<Heed>(&mut self.seat, seat);
    }

    /// Gives back the last seat that it took in, which is that of the node in this slot.
    pub fn give_node(&mut self, table: &Shared<J>, slot: usize) -> NodeSeat<J>
        requires some { self.old.taken ≢ [] }
        requires node { (last_of self.old.taken).actor ≡ OfNode (node_in (last_of self.old.taken).actor) (crashed_in (last_of self.old.taken).actor) }
        requires slot { slot < J.name.slots }
        ensures left { self.new ≡ record self.old { taken = all_but_last self.old.taken } }
        ensures seat { result ≡ as_node (last_of self.old.taken) }
    {
        let seat = self.give(table, slot);
        NodeSeat { seat }
    }

    fn see(&mut self, table: &Shared<J>)
        ensures same { self.new ≡ self.old }
        ensures seen { IsTrueOfSome (view_of_assembled self.old) }
    {
        table.table.shared.load::<Look>(&mut self.seat, 0);
    }

    fn give(&mut self, table: &Shared<J>, word: usize) -> ActorSeat<J>
        requires some { self.old.taken ≢ [] }
        requires word { word < J.name.table.words }
        ensures left { self.new ≡ record self.old { taken = all_but_last self.old.taken } }
        ensures seat { result ≡ last_of self.old.taken }
    {
        let seat = table.table.shared.split_seat::<Give>(&mut self.seat);
        ActorSeat {
            seat,
            word,
            of: PhantomData,
        }
    }

    fn take(&mut self, table: &Shared<J>, seat: ActorSeat<J>)
        ensures { self.new ≡ record self.old { taken = self.old.taken ++ seat ∷ [] } }
    {
        let ActorSeat {
            seat,
            word: _,
            of: _,
        } = seat;
        table.table.shared.join_seat::<Take>(&mut self.seat, seat);
    }
}
