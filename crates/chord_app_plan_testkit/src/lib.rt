//! What tests of plans and of servers share: a plan of two nodes, and plans that differ from it in
//! one place, as `changed(alloc, "slots = 2", "slots = 3")`.
#![tactic(auto)]

use chord_app_plan::Plan;
use std::alloc::{AllocError, Global};

/// The plan of `plans/two-nodes.toml`.
pub const TWO_NODES: &str = concat!(
    "slots = 2\ncallers = 1\nsuccessors = 3\ntries = 100\nwait = 100\n[[node]]\n",
    "id = \"40000000000000000000000000000000\"\nstore = \"tree\"\n[[node]]\n",
    "id = \"c0000000000000000000000000000000\"\nstore = \"list\"\n[[ask]]\ncaller = 0\n",
    "via = 0\ndo = \"insert\"\nkey = \"abc\"\nvalue = \"x\"\n[[ask]]\ncaller = 0\nvia = 1\n",
    "do = \"retrieve\"\nkey = \"abc\"\n[[ask]]\ncaller = 0\nvia = 0\ndo = \"remove\"\n",
    "key = \"abc\"\nvalue = \"y\"\n",
);

/// The plan with the first `old` replaced by `new`; unchanged if it has none.
pub fn changed(alloc: Global, old: &str, new: &str) -> Result<String, AllocError> {
    match TWO_NODES.split_once(old) {
        None => String::from_str(alloc, TWO_NODES),
        Some((before, after)) => format!(in alloc; "{before}{new}{after}"),
    }
}

/// The plan in a text.
pub fn plan_of(alloc: Global, text: &str) -> Option<Plan> {
    Plan::parse(alloc, text.as_bytes()).ok()
}
