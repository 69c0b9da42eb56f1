//! Plans of rings: their settings, their nodes, and what their callers ask, read from TOML.
//!
//! [`Plan::parse`] reads a document, [`plan_from`] a reader and [`read_plan`] a file. A plan that
//! breaks a rule is refused with a [`PlanFault`], whose text names the table and the key, or the
//! line that is no TOML.
#![tactic(auto)]

mod ask;
mod entries;
mod fault;
mod file;
mod node;
mod plan;
mod settings;
mod store_kind;

pub use ask::PlanAsk;
pub use chord_live_types::Settings;
pub use fault::{EntryFault, PlanFault, TableName};
pub use file::{plan_from, read_plan};
pub use node::PlanNode;
pub use plan::{PLAN_BYTES, Plan};
pub use store_kind::StoreKind;
