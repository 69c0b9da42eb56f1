//! The end of a ring: all its seats at one moment.
ghost use Rattle.std.specs.Prelude.{◌≡◌, ℕ, ◌+◌, ◌++◌, [], ◌∷◌, Some, length, map, true};
ghost use Rattle.chord_live_steps.specs.Counts.{numbers_below};
ghost use Rattle.chord_table.specs.Shown.{AssemblyShown, WholeShown};
ghost use Rattle.chord_table.specs.Views.{CallerSight, callers_among, nodes_among};

use crate::register::Register;
use crate::ring::Ring;
use crate::seated_node::SeatedNode;
use crate::slot::{Slot, SlotState};
use chord_store::EntryStore;
use chord_table::{CallerSeat, Naming, Registrar, Shared};

/// The seats of a ring that ended: all its nodes, and the callers that were given back.
#[derive(Drop)]
pub struct Closed<J: Naming> {
    pub seats: Registrar<J>,
    /// How many nodes the ring had, with those that are gone.
    pub nodes: u64,
    /// Whether these are all nodes and callers that the ring admitted.
    pub is_whole: bool,
}

/// The seats that were taken in so far, with how many are of nodes and of callers, if that can be
/// counted.
#[derive(Drop)]
struct Gathering<J: Naming> {
    seats: Registrar<J>,
    nodes: Option<u64>,
    callers: Option<u64>,
    ghost nodes_are: { (n : ℕ) → nodes ≡ Some n → length (nodes_among seats.taken) ≡ n },
    ghost callers_are: { (n : ℕ) → callers ≡ Some n → length (callers_among seats.taken) ≡ n },
}

/// The next count, if there is one.
fn one_more(count: Option<u64>) -> Option<u64>
    ensures { (n : ℕ) → result ≡ Some n → (before : ℕ) × (count ≡ Some before) × (before + 1 ≡ n) }
{
    match count {
        Some(before) => before.checked_add(1),
        None => None,
    }
}

/// Whether the count is this.
fn is_count(count: Option<u64>, all: u64) -> bool
    ensures { result ≡ true → count ≡ Some all }
{
    match count {
        Some(n) => n == all,
        None => false,
    }
}

impl<J: Naming> Gathering<J> {
    /// The seats that the registrar has: `held` of nodes, and none of a caller.
    fn of(registrar: Registrar<J>, held: u64) -> Gathering<J>
        requires nodes { length (nodes_among registrar.taken) ≡ held }
        requires callers { callers_among registrar.taken ≡ [] }
        ensures { result.seats ≡ registrar }
    {
        Gathering {
            seats: registrar,
            nodes: Some(held),
            callers: Some(0),
        }
    }

    /// Takes in the seat of a node, which is dropped.
    fn take_node<S: EntryStore>(&mut self, table: &Shared<J>, seated: SeatedNode<J, S>)
        ensures register { self.new.seats.register ≡ self.old.seats.register }
        ensures callers { callers_among self.new.seats.taken ≡ callers_among self.old.seats.taken }
    {
        self.seats.take_node(table, seated.into_seat());
        self.nodes = one_more(self.nodes);
    }

    /// Takes in the seat of a caller.
    fn take_caller(&mut self, table: &Shared<J>, caller: CallerSeat<J>)
        ensures register { self.new.seats.register ≡ self.old.seats.register }
        ensures callers { callers_among self.new.seats.taken ≡ callers_among self.old.seats.taken ++ caller.caller ∷ [] }
    {
        self.seats.take_caller(table, caller);
        self.callers = one_more(self.callers);
    }

    /// Takes in the seat of the node in a slot, if there is one.
    fn take_slot<S: EntryStore>(&mut self, table: &Shared<J>, slot: Slot<J, S>)
        ensures register { self.new.seats.register ≡ self.old.seats.register }
        ensures callers { callers_among self.new.seats.taken ≡ callers_among self.old.seats.taken }
    {
        let Slot {
            state,
            number: _,
            live: _,
            worker: _,
            ticks: _,
            again_item: _,
            again_part: _,
            inbox,
            envelopes,
        } = slot;
        drop(inbox);
        drop(envelopes);
        match state.into_inner() {
            SlotState::Vacant => {}
            SlotState::Here(seated) | SlotState::Crashed(seated) => self.take_node(table, seated),
        }
    }

    /// Takes in the seats of the nodes in these slots.
    fn take_slots<S: EntryStore>(&mut self, table: &Shared<J>, slots: Vec<Slot<J, S>>)
        ensures register { self.new.seats.register ≡ self.old.seats.register }
        ensures callers { callers_among self.new.seats.taken ≡ callers_among self.old.seats.taken }
    {
        for slot in slots {
            self.take_slot(table, slot);
        }
    }

    /// Takes in the seats of these callers.
    fn take_callers(&mut self, table: &Shared<J>, callers: Vec<CallerSeat<J>>)
        ensures register { self.new.seats.register ≡ self.old.seats.register }
        ensures callers { callers_among self.new.seats.taken ≡ callers_among self.old.seats.taken ++ map (λ (c : CallerSight). c.caller) callers.items }
    {
        for caller in callers {
            self.take_caller(table, caller);
        }
    }

    /// Looks at all seats. They are whole if they are as many as the ring's nodes and callers.
    #[tactic(auto, using(crate::proofs::Gathering::whole_counted))]
    fn finish(self, table: &Shared<J>, nodes: u64, callers: u64) -> Closed<J>
        requires nodes { self.seats.register.nodes ≡ numbers_below nodes }
        requires callers { self.seats.register.callers ≡ numbers_below callers }
        ensures same { result.seats ≡ self.seats }
        ensures shown { AssemblyShown result.seats }
        ensures whole { result.is_whole ≡ true → WholeShown result.seats }
        ensures counted { result.is_whole ≡ true
            → length (nodes_among result.seats.taken) ≡ result.nodes }
    {
        let is_whole = is_count(self.nodes, nodes) && is_count(self.callers, callers);
        let mut seats = self.seats;
        seats.look(table);
        if is_whole {
            seats.look_whole(table);
        }
        Closed {
            seats,
            nodes,
            is_whole,
        }
    }
}

impl<J: Naming, S: EntryStore> Ring<J, S> {
    /// Ends the ring. Its nodes are dropped, with their stores and the envelopes under way. One
    /// look at all their seats and at those of these callers proves that they are of one reachable
    /// world, and the whole of it if the callers are all that the ring admitted, in any order.
    pub fn close_with(self, callers: Vec<CallerSeat<J>>) -> Closed<J>
        ensures callers { callers_among result.seats.taken ≡ map (λ (c : CallerSight). c.caller) callers.items }
        ensures shown { AssemblyShown result.seats }
        ensures whole { result.is_whole ≡ true → WholeShown result.seats }
        ensures counted { result.is_whole ≡ true
            → length (nodes_among result.seats.taken) ≡ result.nodes }
    {
        let Ring {
            table,
            register,
            slots,
            ..
        } = self;
        let Register { numbers } = register.into_inner();
        let (nodes, places) = (numbers.nodes() as u64, numbers.callers() as u64);
        let held = numbers.held() as u64;
        let mut all = Gathering::of(numbers.into_registrar(), held);
        all.take_slots(&table, slots);
        all.take_callers(&table, callers);
        all.finish(&table, nodes, places)
    }
}
