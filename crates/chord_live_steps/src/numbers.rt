//! The numbers of nodes and callers.
ghost use Rattle.std.specs.Prelude.{◌≡◌, ◌≢◌, ◌↔◌, ◌++◌, ◌∷◌, IsTrue, Contains, ◌+◌, ◌<◌, ◌≤◌, [], false, true, length, IfOk, IfErr, OnOk, OnErr, IfSome, Err, None};
ghost use Rattle.chord_caller.specs.Answers.{new_caller};
ghost use Rattle.chord_caller.specs.Client.{IsCoreOf};
ghost use Rattle.chord_ident.specs.Circle.{IsBetween};
ghost use Rattle.chord_links.specs.NodeLinks.{alone, first_entry};
ghost use Rattle.chord_model.specs.declared.phase.Phase.TheVariants.{Gone};
ghost use Rattle.chord_ring.specs.Steps.{joined_links};
ghost use Rattle.chord_live_types.specs.declared.caller.OpenClientFault.TheVariants.{CallersSpent, Memory};
ghost use Rattle.chord_live_steps.specs.Counts.{numbers_below};
ghost use Rattle.chord_model.specs.Node.{founder, newborn};
ghost use Rattle.chord_table.specs.Views.{nodes_among};

use chord_caller::{CallerCore, ClientCore};
use chord_ident::Id;
use chord_links::{Links, Peer};
use chord_live_types::OpenClientFault;
use chord_node::Node;
use chord_store::EntryStore;
use chord_table::{CallerSeat, Naming, NodeSeat, Registrar, Shared};
use std::alloc::Global;
use std::marker::Model;

/// The next free numbers, with the registrar that admitted all below them. Contracts see how many
/// nodes and callers there ever were, the identifiers of the nodes, whether the ring allowed each
/// crash, and what the seats show that were taken in.
#[derive(Drop)]
pub struct Numbers<J: Naming> {
    pub(crate) registrar: Registrar<J>,
    /// The identifiers of the nodes, by number.
    pub(crate) ids: Vec<Id>,
    /// How many nodes' seats the registrar has.
    pub(crate) held: usize,
    callers: usize,
    places: usize,
    /// Whether the ring allowed each crash.
    pub(crate) premise: bool,
}

impl<J: Naming> Model for Numbers<J> {
    ghost use Rattle.std.specs.Prelude.{◌≡◌, length};
    ghost use Rattle.chord_live_steps.specs.Counts.{Counts};
    ghost use Rattle.chord_live_steps.specs.Registered.{IsRegister};
    ghost use Rattle.chord_table.specs.Views.{nodes_among};

    ghost Value = { Counts };

    ghost view = { λ a. record { nodes = length a.ids.items; callers = a.callers; ids = a.ids.items; premise = a.premise; taken = a.registrar.taken } };

    ghost invariant = { λ a. (a.held ≡ length (nodes_among a.registrar.taken)) × (a.places ≡ J.name.callers)
        × IsRegister a.callers a.ids.items a.premise a.registrar.register };
}

impl<J: Naming> Numbers<J> {
    /// No number is used yet.
    pub fn new(alloc: Global, registrar: Registrar<J>, places: usize) -> Numbers<J>
        requires places { places ≡ J.name.callers }
        requires nobody { registrar ≡ record { register = record { nodes = []; callers = []; ids = []; premise = true; principals = [] }; taken = [] } }
        ensures { result ≡ record { nodes = 0; callers = 0; ids = []; premise = true; taken = [] } }
    {
        Numbers {
            registrar,
            ids: Vec::new(alloc),
            held: 0,
            callers: 0,
            places,
            premise: true,
        }
    }

    /// How many nodes there ever were.
    pub fn nodes(&self) -> usize
        ensures { result ≡ self.now.nodes }
    {
        self.ids.len()
    }

    /// How many nodes' seats the registrar has.
    pub fn held(&self) -> usize
        ensures { result ≡ length (nodes_among self.now.taken) }
    {
        self.held
    }

    /// How many callers there are.
    pub fn callers(&self) -> usize
        ensures { result ≡ self.now.callers }
    {
        self.callers
    }

    /// The registrar, once nobody is admitted any more.
    pub fn into_registrar(self) -> Registrar<J>
        ensures nodes { result.register.nodes ≡ numbers_below self.nodes }
        ensures callers { result.register.callers ≡ numbers_below self.callers }
        ensures premise { result.register.premise ≡ self.premise }
        ensures taken { result.taken ≡ self.taken }
    {
        self.registrar
    }

    /// Whether the ring allowed each crash so far.
    pub fn holds_premise(&self) -> bool
        ensures { result ≡ self.now.premise }
    {
        self.premise
    }

    /// Whether a node has the identifier.
    pub fn is_taken(&self, id: Id) -> bool
        ensures { IsTrue result ↔ Contains self.now.ids id }
    {
        self.ids.iter().any(|taken| *taken == id)
    }

    /// Admits the first node to a slot, and gives it with its seat. Gives its store back if out of
    /// memory.
    pub fn create<S: EntryStore>(
        &mut self,
        table: &Shared<J>,
        slot: usize,
        alloc: Global,
        id: Id,
        r: usize,
        store: S,
    ) -> Result<(Node<S>, NodeSeat<J>), S>
        requires none { self.old.nodes ≡ 0 }
        requires slot { slot < J.name.slots }
        requires low { 2 ≤ r }
        requires high { r ≤ 16 }
        requires vacant { S.content store ≡ [] }
        ensures ok { IfOk result (λ admitted. admitted.0 ≡ founder (alone (record { number = 0; id = id }) r) (S.limit store)) }
        ensures shown { IfOk result (λ admitted. admitted.1 ≡ record { node = admitted.0; crashed = false; messages = [] }) }
        ensures err { IfErr result (λ back. back ≡ store) }
        ensures counted { OnOk result (self.new ≡ record self.old { nodes = 1; ids = self.old.ids ++ id ∷ [] }) }
        ensures same { OnErr result (self.new ≡ self.old) }
    {
        if self.ids.reserve(1).is_err() {
            return Err(store);
        }
        let me = Peer { number: 0, id };
        let node = Node::found(alloc, me, r, store)?;
        let seat = self.registrar.admit_node(table, slot, &node);
        self.ids.push_reserved(id);
        Ok((node, seat))
    }

    /// Admits a later node to a slot, behind a member, whose seat the caller has, and gives it with
    /// its seat. Gives its store back if out of memory.
    pub fn join<S: EntryStore>(
        &mut self,
        table: &Shared<J>,
        slot: usize,
        alloc: Global,
        links: Links,
        pred: &mut NodeSeat<J>,
        store: S,
    ) -> Result<(Node<S>, NodeSeat<J>), S>
        requires some { 0 < self.old.nodes }
        requires slot { slot < J.name.slots }
        requires own { links.me.number ≡ self.old.nodes }
        requires unused { ¬ Contains self.old.ids links.me.id }
        requires member { pred.old.crashed ≡ false }
        requires live { pred.old.node.phase ≢ Gone }
        requires between { IsBetween pred.old.node.links.me.id.number links.me.id.number (first_entry pred.old.node.links).id.number }
        requires behind { links ≡ joined_links links.me pred.old.node.links }
        requires vacant { S.content store ≡ [] }
        ensures ok { IfOk result (λ admitted. admitted.0 ≡ newborn links (S.limit store)) }
        ensures shown { IfOk result (λ admitted. admitted.1 ≡ record { node = admitted.0; crashed = false; messages = [] }) }
        ensures err { IfErr result (λ back. back ≡ store) }
        ensures counted { OnOk result (self.new ≡ record self.old { nodes = self.old.nodes + 1; ids = self.old.ids ++ links.me.id ∷ [] }) }
        ensures same { OnErr result (self.new ≡ self.old) }
        ensures pred { pred.new ≡ pred.old }
    {
        if self.ids.reserve(1).is_err() {
            return Err(store);
        }
        let me = links.me();
        let node = Node::newborn(alloc, links, store);
        let seat = self.registrar.join_node(table, slot, &node, pred);
        self.ids.push_reserved(me.id);
        Ok((node, seat))
    }

    /// A caller under the next free number and the seat that shows it, or None if no number is
    /// free.
    pub fn admit_caller(
        &mut self,
        table: &Shared<J>,
        alloc: Global,
        window: u64,
    ) -> Option<(CallerCore, CallerSeat<J>)>
        requires some { 1 ≤ window }
        requires small { window ≤ 16 }
        ensures number { IfSome result (λ admitted. (admitted.0.number ≡ self.old.callers) × (admitted.0.number < J.name.callers)) }
        ensures shown { IfSome result (λ admitted. (admitted.0 ≡ new_caller admitted.0.number window) × (admitted.0 ≡ admitted.1.caller)) }
        ensures counted { IfSome result (λ admitted. self.new ≡ record self.old { callers = self.old.callers + 1 }) }
        ensures spent { result ≡ None → (J.name.callers ≤ self.old.callers) × (self.new ≡ self.old) }
    {
        if self.callers >= self.places {
            return None;
        }
        let number = self.callers as u64;
        let core = CallerCore::new(alloc, number, window);
        let seat = self.registrar.admit_caller(table, number, &core);
        self.callers += 1;
        Some((core, seat))
    }

    /// The core of a client under the next free number and the seat that shows its caller. It is
    /// refused if no number is free, or else only if out of memory.
    pub fn admit_client(
        &mut self,
        table: &Shared<J>,
        alloc: Global,
        window: u64,
    ) -> Result<(ClientCore, CallerSeat<J>), OpenClientFault>
        requires some { 1 ≤ window }
        requires small { window ≤ 16 }
        ensures number { OnOk result (self.old.callers < J.name.callers) }
        ensures shown { IfOk result (λ admitted. (admitted.1.caller ≡ new_caller self.old.callers window) × IsCoreOf admitted.0 admitted.1.caller) }
        ensures counted { OnOk result (self.new ≡ record self.old { callers = self.old.callers + 1 }) }
        ensures spent { result ≡ Err CallersSpent → J.name.callers ≤ self.old.callers }
        ensures memory { result ≡ Err Memory → self.old.callers < J.name.callers }
        ensures err { OnErr result (self.new ≡ self.old) }
    {
        if self.callers >= self.places {
            return Err(OpenClientFault::CallersSpent);
        }
        let number = self.callers as u64;
        let core = match ClientCore::new(alloc, number, window) {
            Ok(core) => core,
            Err(_) => return Err(OpenClientFault::Memory),
        };
        let seat = self.registrar.open_caller(table, number, window);
        self.callers = number as usize + 1;
        Ok((core, seat))
    }
}
