//! Running rings of a plan's nodes: the command `run`, which does what the plan asks, and the
//! command `serve`, whose clients ask over loopback.
//!
//! [`run`] and [`serve`] end by themselves; [`stay`] serves until it is stopped. A ring that
//! served ends by a look at all its nodes and callers ([`WholeRing`]). Each command takes a store
//! for each node of the plan, and a server makes one for each node that joins ([`MadeStore`]).
#![tactic(auto)]

mod gap;
mod nodes;
mod pace;
mod plan_run;
mod serving;

pub use gap::{Gap, free_id};
pub use pace::Pace;
pub use plan_run::{AskResult, run};
pub use serving::commands::{serve, stay};
pub use serving::made_store::MadeStore;
pub use serving::process::{
    open_files, open_files_of, process_sight, processor_ms_of, resident_of,
};
pub use serving::request_times::place_of;
pub use serving::whole_ring::WholeRing;
