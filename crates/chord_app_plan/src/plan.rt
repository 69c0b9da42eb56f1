//! The plan of a ring: its settings, its nodes, and what its callers ask.
ghost use Rattle.std.specs.Prelude.{◌≡◌, ◌≤◌, ◌<◌, ◌⊎◌, Err, Some, List, IfOk, IsOkUnless, codes, length, vec_len};
ghost use Rattle.std.specs.List.{All};
ghost use Rattle.toml.specs.Errors.{IsMemory};
ghost use Rattle.chord_app_plan.specs.declared.plan.Plan.{Plan};
ghost use Rattle.chord_app_plan.specs.declared.ask.PlanAsk.{PlanAsk};
ghost use Rattle.chord_app_plan.specs.declared.node.PlanNode.{PlanNode};
ghost use Rattle.chord_app_plan.specs.Plan.{AskIs, AreListed, IsAskOf, IsPlan, IsPlanOf, NodeIs, even_id, even_nodes, members_of, settings_with};

use crate::ask::PlanAsk;
use crate::entries::Entries;
use crate::fault::{EntryFault, PlanFault, TableName};
use crate::node::PlanNode;
use crate::settings::read_settings;
use crate::store_kind::StoreKind;
use chord_ident::Id;
use chord_live_types::Settings;
use std::alloc::{AllocError, Global};

/// The most bytes of a plan.
pub const PLAN_BYTES: usize = 1_048_576;

/// The settings of a plan without a file.
const EVEN_SETTINGS: Settings = Settings {
    slots: 64,
    callers: 64,
    successors: 4,
    tries: 20,
    wait_ms: 100,
};

#[derive(Debug, Drop)]
pub struct Plan {
    pub settings: Settings,
    /// The kind of store of a node that joins while a server runs.
    pub spare: StoreKind,
    /// In the order in which they join. The first creates the ring.
    pub nodes: Vec<PlanNode>,
    /// In the order of the file.
    pub asks: Vec<PlanAsk>,
}

// Why a document is no TOML, and the line of that fault.
fn fault_of(document: &[u8], fault: toml::de::Error) -> PlanFault
    ensures { (result ≡ PlanFault.OutOfMemory) ⊎ (¬ IsMemory fault) }
{
    match fault.span() {
        None => PlanFault::OutOfMemory,
        Some(span) => {
            let before = document.get(..span.start).unwrap_or(document);
            let ends = before.iter().filter(|byte| **byte == b'\n').count();
            PlanFault::NoToml {
                line: ends.saturating_add(1),
                fault,
            }
        }
    }
}

// The tables of `node`.
fn read_nodes(alloc: Global, top: &Entries, slots: usize) -> Result<Vec<PlanNode>, PlanFault>
    ensures value { IfOk result (λ nodes. AreListed NodeIs (codes "node") (members_of top.now) nodes.items) }
    ensures least { IfOk result (λ nodes. 1 ≤ vec_len nodes) }
    ensures most { IfOk result (λ nodes. vec_len nodes ≤ slots) }
    ensures accepts { (nodes : List PlanNode) → AreListed NodeIs (codes "node") (members_of top.now) nodes → 1 ≤ length nodes → length nodes ≤ slots
        → IsOkUnless result PlanFault.OutOfMemory }
{
    let tables = top.list("node")?;
    if tables.is_empty() || slots < tables.len() {
        let fault = EntryFault::NotSoManyTables {
            least: 1,
            most: slots,
        };
        return Err(top.fault("node", fault));
    }
    let mut nodes = Vec::new(alloc);
    for (number, table) in tables.iter().enumerate() {
        let Some(table) = Entries::of(table, TableName::Node(number)) else {
            return Err(top.fault("node", EntryFault::NoTables));
        };
        nodes.push(PlanNode::read(alloc, &table)?)?;
    }
    Ok(nodes)
}

// The tables of `ask`, for a plan with this many callers and nodes.
fn read_asks(
    alloc: Global,
    top: &Entries,
    callers: usize,
    nodes: usize,
) -> Result<Vec<PlanAsk>, PlanFault>
    ensures value { IfOk result (λ asks. AreListed AskIs (codes "ask") (members_of top.now) asks.items) }
    ensures limits { IfOk result (λ asks. All (IsAskOf callers nodes) asks.items) }
    ensures accepts { (asks : List PlanAsk) → AreListed AskIs (codes "ask") (members_of top.now) asks → All (IsAskOf callers nodes) asks
        → IsOkUnless result PlanFault.OutOfMemory }
{
    let tables = top.list("ask")?;
    let mut asks = Vec::new(alloc);
    for (number, table) in tables.iter().enumerate() {
        let Some(table) = Entries::of(table, TableName::Ask(number)) else {
            return Err(top.fault("ask", EntryFault::NoTables));
        };
        asks.push(PlanAsk::read(alloc, &table, callers, nodes)?)?;
    }
    Ok(asks)
}

/// The identifier of a node of this number, from 0, of as many that divide the circle evenly.
fn even_id(count: usize, number: usize) -> Id
    requires some { number < count }
    requires most { count ≤ 64 }
    ensures { result.number ≡ even_id count number }
{
    let share = (1u128 << 64) / count as u128;
    Id::new((number as u128 * share) << 64)
}

/// This many nodes, which divide the circle evenly.
#[tactic(auto, unfolding(crate::specs::Plan::even_nodes))]
fn even_nodes(alloc: Global, count: usize) -> Result<Vec<PlanNode>, AllocError>
    requires { count ≤ 64 }
    ensures value { IfOk result (λ nodes. nodes.items ≡ even_nodes count count) }
    ensures count { IfOk result (λ nodes. vec_len nodes ≡ count) }
{
    let mut nodes = Vec::new(alloc);
    for number in 0..count {
        let id = even_id(count, number);
        nodes.push(PlanNode {
            id,
            store: StoreKind::Tree,
        })?;
    }
    Ok(nodes)
}

impl Plan {
    /// A plan without a file: this many nodes, 64 at most, which divide the circle evenly.
    pub fn even(alloc: Global, nodes: usize) -> Result<Plan, AllocError>
        requires some { 1 ≤ nodes }
        requires most { nodes ≤ 64 }
        ensures nodes { IfOk result (λ plan. plan.nodes.items ≡ even_nodes nodes nodes) }
        ensures limits { IfOk result IsPlan }
    {
        Ok(Plan {
            settings: EVEN_SETTINGS,
            spare: StoreKind::Tree,
            nodes: even_nodes(alloc, nodes)?,
            asks: Vec::new(alloc),
        })
    }

    /// The plan in a TOML document in UTF-8.
    pub fn parse(alloc: Global, document: &[u8]) -> Result<Plan, PlanFault>
        ensures value { IfOk result (IsPlanOf document.now) }
        ensures limits { IfOk result IsPlan }

        // A plan that keeps the limits is refused for memory only.
        ensures accepts { (plan : Plan) → IsPlanOf document.now plan → IsPlan plan → length document.now ≤ PLAN_BYTES → IsOkUnless result PlanFault.OutOfMemory }
        ensures long { PLAN_BYTES < length document.now → result ≡ Err PlanFault.TooLong }
    {
        if document.len() > PLAN_BYTES {
            return Err(PlanFault::TooLong);
        }
        let table = match toml::table_from_slice(alloc, document) {
            Ok(table) => table,
            Err(fault) => return Err(fault_of(document, fault)),
        };
        let top = Entries::new(&table, TableName::Top);
        let settings = read_settings(&top)?;
        let spare = StoreKind::read_spare(alloc, &top)?;
        let nodes = read_nodes(alloc, &top, settings.slots)?;
        let asks = read_asks(alloc, &top, settings.callers, nodes.len())?;
        Ok(Plan {
            settings,
            spare,
            nodes,
            asks,
        })
    }

    /// The settings of a server's ring: the plan's, with other numbers of nodes and callers where
    /// such are named.
    pub fn settings_with(&self, slots: Option<usize>, callers: Option<usize>) -> Settings
        ensures { result ≡ settings_with self.now.settings slots callers }
    {
        Settings {
            slots: slots.unwrap_or(self.settings.slots),
            callers: callers.unwrap_or(self.settings.callers),
            ..self.settings
        }
    }
}
