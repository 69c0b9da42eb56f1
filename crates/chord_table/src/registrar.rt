//! The registrar, which admits nodes and callers.
ghost use Rattle.std.specs.Prelude.{◌≡◌, ◌<◌, ◌≤◌, ◌++◌, [], ◌∷◌, true, false, IfOk};
ghost use Rattle.chord_caller.specs.Answers.{new_caller};
ghost use Rattle.chord_table.specs.Seen.{OfNode};
ghost use Rattle.chord_table.specs.Views.{node_in, MayEnter, MayFound, MayJoin, MayJoinBehind, MayOpen, with_number};

use crate::actor_seat::ActorSeat;
use crate::caller_seat::CallerSeat;
use crate::event::Event;
use crate::moves::{Admit, Break, Give, Take, Vacate};
use crate::naming::Naming;
use crate::node_seat::NodeSeat;
use crate::shared::Shared;
use crate::table_parts::TableParts;
use crate::view::View;
use atomic_table::{Seat, Table};
use chord_caller::CallerCore;
use chord_node::Node;
use chord_store::EntryStore;
use std::alloc::{AllocError, Global};
use std::marker::{Brand, Model, PhantomData};

/// Admits actors, and takes in their seats. Contracts see who is registered, what the ring is known
/// to be, and what each seat that it took in showed, in the order taken.
#[derive(Drop)]
pub struct Registrar<J: Naming> {
    pub(crate) seat: Seat<u8, View>,
    pub(crate) of: PhantomData<J>,
}

impl<J: Naming> Model for Registrar<J> {
    ghost use Rattle.std.specs.Prelude.{◌≡◌, []};
    ghost use Rattle.chord_table.specs.Views.{Assembled, assembled_of, view_of_assembled};

    ghost Value = { Assembled };

    ghost view = { λ r. assembled_of r.seat.me.0 };

    ghost invariant = { λ r. (r.seat.table_id ≡ J.name.table)
        × (r.seat.me ≡ (view_of_assembled (assembled_of r.seat.me.0), [])) };
}

impl Registrar<Brand> {
    /// A table with a word for each of `slots` nodes, one at least, and of `callers` callers. More
    /// than 2^64 - 1 of them together count as out of memory.
    pub fn open(alloc: Global, slots: usize, callers: usize) -> Result<TableParts, AllocError>
        requires some { 1 ≤ slots }
        ensures { IfOk result (λ parts. (parts.slots ≡ slots) × (parts.callers ≡ callers)) }
    {
        let Some(count) = slots.checked_add(callers) else {
            return Err(AllocError);
        };
        let words = vec![in alloc; 0u64; count]?;
        let (table, seat) = Table::of_words(alloc, words.as_slice(), &())?;
        Ok(TableParts {
            table,
            seat,
            slots,
            callers,
        })
    }
}

impl<J: Naming> Registrar<J> {
    /// Admits a new node in a slot, and gives the seat that shows it.
    pub fn admit_node<S: EntryStore>(
        &mut self,
        table: &Shared<J>,
        slot: usize,
        node: &Node<S>,
    ) -> NodeSeat<J>
        requires slot { slot < J.name.slots }
        requires may { MayFound self.old.register.nodes node.now }
        ensures admitted { self.new ≡ record self.old {
          register = record self.old.register {
            nodes = self.old.register.nodes ++ node.now.number ∷ [];
            ids = self.old.register.ids ++ node.now.links.me.id.number ∷ [];
          };
        } }
        ensures seat { result ≡ record { node = node.now; crashed = false; messages = [] } }
    {
        let seat = self.admit::<Brand, Node<S>>(table, slot, node);
        NodeSeat { seat }
    }

    /// Admits a new node in a slot, behind a member, and gives the seat that shows it: a step of
    /// the ring, while the caller has the member's seat.
    pub fn join_node<S: EntryStore>(
        &mut self,
        table: &Shared<J>,
        slot: usize,
        node: &Node<S>,
        pred: &mut NodeSeat<J>,
    ) -> NodeSeat<J>
        requires slot { slot < J.name.slots }
        requires live { pred.old.crashed ≡ false }
        requires may { MayJoin self.old.register pred.old.node node.now }
        ensures admitted { self.new ≡ record self.old {
          register = record self.old.register {
            nodes = self.old.register.nodes ++ node.now.number ∷ [];
            ids = self.old.register.ids ++ node.now.links.me.id.number ∷ [];
          };
        } }
        ensures seat { result ≡ record { node = node.now; crashed = false; messages = [] } }
        ensures pred { pred.new ≡ pred.old }
    {
        let seat = self.admit_behind::<Brand, Node<S>>(table, slot, node, &mut pred.seat);
        NodeSeat { seat }
    }

    /// Admits a new caller, and gives the seat that shows it.
    pub fn admit_caller(
        &mut self,
        table: &Shared<J>,
        number: u64,
        core: &CallerCore,
    ) -> CallerSeat<J>
        requires own { number ≡ core.now.number }
        requires place { number < J.name.callers }
        requires may { MayOpen self.old.register.callers core.now }
        ensures admitted { self.new ≡ record self.old {
          register = record self.old.register {
            callers = self.old.register.callers ++ number ∷ [];
          };
        } }
        ensures seat { result ≡ record { caller = core.now; messages = [] } }
    {
        let word = table.slots + number as usize;
        let seat = self.admit::<Brand, CallerCore>(table, word, core);
        CallerSeat { seat }
    }

    /// Admits a new caller of this number and window, and gives the seat that shows it.
    pub fn open_caller(&mut self, table: &Shared<J>, number: u64, window: u64) -> CallerSeat<J>
        requires place { number < J.name.callers }
        requires may { MayOpen self.old.register.callers (new_caller number window) }
        ensures admitted { self.new ≡ record self.old {
          register = record self.old.register {
            callers = self.old.register.callers ++ number ∷ [];
          };
        } }
        ensures seat { result ≡ record { caller = new_caller number window; messages = [] } }
    {
        let place = table.slots + number as usize;
        let opened = (number, window);
        let seat = self.admit::<Brand, (u64, u64)>(table, place, &opened);
        CallerSeat { seat }
    }

    /// Records that a node crashed by force: nobody asked whether the ring of the others is safe.
    /// From then on the register says so.
    pub fn crash_by_force(&mut self, table: &Shared<J>, seat: NodeSeat<J>) -> NodeSeat<J>
        requires live { seat.crashed ≡ false }
        ensures broken { self.new ≡ record self.old {
          register = record self.old.register { premise = false };
        } }
        ensures seat { result ≡ record seat { crashed = true } }
    {
        let NodeSeat { seat } = seat;
        let seat = self.break_actor(table, seat);
        NodeSeat { seat }
    }

    fn break_actor(&mut self, table: &Shared<J>, taken: ActorSeat<J>) -> ActorSeat<J>
        requires node { taken.actor ≡ OfNode (node_in taken.actor) false }
        ensures broken { self.new ≡ record self.old {
          register = record self.old.register { premise = false };
        } }
        ensures seat { result ≡ record taken { actor = OfNode (node_in taken.actor) true } }
    {
        let ActorSeat {
            seat: theirs,
            word,
            of: _,
        } = taken;
        table.table.shared.join_seat::<Take>(&mut self.seat, theirs);
        table.table.shared.load::<Break>(&mut self.seat, 0);
        let seat = table.table.shared.split_seat::<Give>(&mut self.seat);
        ActorSeat {
            seat,
            word,
            of: PhantomData,
        }
    }

    /// Admits the node that the proof names by `E.actor` behind a member.
    fn admit_behind<E: Event, A>(
        &mut self,
        table: &Shared<J>,
        word: usize,
        actor: &A,
        pred: &mut ActorSeat<J>,
    ) -> ActorSeat<J>
        requires word { word < J.name.table.words }
        requires may { MayJoinBehind (record self.old { taken = self.old.taken ++ pred.old ∷ [] }) E.actor }
        ensures admitted { self.new ≡ record self.old {
          register = with_number E.actor self.old.register;
        } }
        ensures seat { result ≡ record { actor = E.actor; messages = [] } }
        ensures pred { pred.new ≡ pred.old }
    {
        let _ = actor;
        let (_, nothing) = table.table.shared.load_new_seat::<Vacate>(0);
        let theirs = std::mem::replace(&mut pred.seat, nothing);
        table.table.shared.join_seat::<Take>(&mut self.seat, theirs);
        let seat = table.table.shared.split_seat::<Admit<E>>(&mut self.seat);
        let back = table.table.shared.split_seat::<Give>(&mut self.seat);
        pred.seat = back;
        ActorSeat {
            seat,
            word,
            of: PhantomData,
        }
    }

    /// Admits the actor that the proof names by `E.actor`; `actor` is passed only so that the proof
    /// can refer to it.
    fn admit<E: Event, A>(&mut self, table: &Shared<J>, word: usize, actor: &A) -> ActorSeat<J>
        requires word { word < J.name.table.words }
        requires may { MayEnter self.old.register E.actor }
        ensures admitted { self.new ≡ record self.old {
          register = with_number E.actor self.old.register;
        } }
        ensures seat { result ≡ record { actor = E.actor; messages = [] } }
    {
        let _ = actor;
        let seat = table.table.shared.split_seat::<Admit<E>>(&mut self.seat);
        ActorSeat {
            seat,
            word,
            of: PhantomData,
        }
    }
}
