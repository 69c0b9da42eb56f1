//! The command `run`.

use crate::checks::check;
use crate::tests::no_memory::NoMemory;
use chord_app_plan::Plan;
use chord_app_serve::{AskResult, run};
use chord_app_serve_testkit::{TWO_NODES, changed, plan_of, two_stores};
use chord_app_text::{Fault, Finish};
use chord_map::Reply;
use chord_store::{CappedStore, EntryStore};
use std::alloc::Global;
use std::sync::Wait;
use std::thread::Threads;
use std::time::Clock;

/// How a plan ended over these stores, and whether it wrote these lines.
fn runs_over<S: EntryStore + Send, R: Threads + Wait + Clock + Sync>(
    rt: &R,
    alloc: Global,
    plan: &Plan,
    stores: Vec<S>,
    wanted: &str,
) -> (Finish, bool) {
    let mut written: Vec<u8> = Vec::new(alloc);
    let finish = run(rt, alloc, plan, stores, &mut written);
    (finish, written.as_slice() == wanted.as_bytes())
}

/// How a plan ended over two stores with room for `room` pairs, and whether it wrote these lines.
fn runs<R: Threads + Wait + Clock + Sync>(
    rt: &R,
    alloc: Global,
    text: &str,
    room: u64,
    wanted: &str,
) -> Option<(Finish, bool)> {
    let plan = plan_of(alloc, text)?;
    let stores = two_stores(alloc, room).ok()?;
    let ran = runs_over(rt, alloc, &plan, stores, wanted);
    drop(plan);
    Some(ran)
}

/// Runs the plan. Over stores without room the caller asks nothing after its first request.
#[test]
fn plan_run(rt: HostRuntime) {
    for (room, wanted) in [
        (4, "0 1 added\n0 2 values 1 78\n0 3 absent\n"),
        (0, "0 1 full\n"),
    ] {
        let ran = runs(&rt, rt.alloc(), TWO_NODES, room, wanted);
        check!(&rt; ran == Some((Finish::Done, true)));
    }
}

/// How the plan ended over two stores that have no memory for a pair, with each request sent once,
/// and whether it wrote these lines.
fn runs_without_memory<R: Threads + Wait + Clock + Sync>(
    rt: &R,
    alloc: Global,
    wanted: &str,
) -> Option<(Finish, bool)> {
    let once = changed(alloc, "tries = 100", "tries = 1").ok()?;
    let plan = plan_of(alloc, once.as_str());
    drop(once);
    let plan = plan?;
    let mut stores = Vec::new(alloc);
    stores.push(NoMemory).ok()?;
    stores.push(NoMemory).ok()?;
    let ran = runs_over(rt, alloc, &plan, stores, wanted);
    drop(plan);
    Some(ran)
}

/// No node has memory for the first request, so none answers it. The caller asks nothing after it.
#[test]
fn a_request_without_an_answer(rt: HostRuntime) {
    let ran = runs_without_memory(&rt, rt.alloc(), "0 1 noanswer\n");
    check!(&rt; ran == Some((Finish::Done, true)));
}

/// A plan in which the second caller asks twice, for another key.
const TWO_CALLERS: &str = concat!(
    "slots = 2\ncallers = 2\nsuccessors = 3\ntries = 100\nwait = 100\n[[node]]\n",
    "id = \"40000000000000000000000000000000\"\nstore = \"tree\"\n[[node]]\n",
    "id = \"c0000000000000000000000000000000\"\nstore = \"list\"\n",
    "[[ask]]\ncaller = 1\nvia = 0\ndo = \"insert\"\nkey = \"b\"\nvalue = \"y\"\n",
    "[[ask]]\ncaller = 0\nvia = 0\ndo = \"insert\"\nkey = \"a\"\nvalue = \"x\"\n",
    "[[ask]]\ncaller = 1\nvia = 0\ndo = \"retrieve\"\nkey = \"b\"\n",
);

/// Each caller asks what the plan has for it, in the plan's order.
#[test]
fn callers_ask_their_own(rt: HostRuntime) {
    let wanted = "0 1 added\n1 1 added\n1 2 values 1 79\n";
    let ran = runs(&rt, rt.alloc(), TWO_CALLERS, 4, wanted);
    check!(&rt; ran == Some((Finish::Done, true)));
}

/// How the plan of two callers ended over a store with room for `first` pairs and one for `second`,
/// and whether it wrote these lines.
fn runs_over_two<R: Threads + Wait + Clock + Sync>(
    rt: &R,
    alloc: Global,
    (first, second): (u64, u64),
    wanted: &str,
) -> Option<(Finish, bool)> {
    let plan = plan_of(alloc, TWO_CALLERS)?;
    let mut stores = Vec::new(alloc);
    stores.push(CappedStore::new(alloc, first)).ok()?;
    stores.push(CappedStore::new(alloc, second)).ok()?;
    let ran = runs_over(rt, alloc, &plan, stores, wanted);
    drop(plan);
    Some(ran)
}

/// Each node has the store of its place in the plan: node 1 holds `a`, whose SHA-1 begins with 86,
/// and node 0 `b`, whose begins with e9.
#[test]
fn each_node_has_its_store(rt: HostRuntime) {
    for (rooms, wanted) in [
        ((4, 0), "0 1 full\n1 1 added\n1 2 values 1 79\n"),
        ((0, 4), "0 1 added\n1 1 full\n"),
    ] {
        let ran = runs_over_two(&rt, rt.alloc(), rooms, wanted);
        check!(&rt; ran == Some((Finish::Done, true)));
    }
}

/// How a plan ended whose second node the ring refuses, and whether it wrote nothing.
fn runs_refused<R: Threads + Wait + Clock + Sync>(rt: &R, alloc: Global) -> Option<(Finish, bool)> {
    let twice = changed(alloc, "id = \"c0", "id = \"40").ok()?;
    runs(rt, alloc, twice.as_str(), 4, "")
}

#[test]
fn refused_node(rt: HostRuntime) {
    let fault = Finish::Fault(Fault::SameId {
        number: 1,
        first: 0,
    });
    check!(&rt; runs_refused(&rt, rt.alloc()) == Some((fault, true)));
}

/// How a plan ended with this number of slots, and whether it wrote nothing.
fn runs_with_slots<R: Threads + Wait + Clock + Sync>(
    rt: &R,
    alloc: Global,
    slots: usize,
) -> Option<(Finish, bool)> {
    let mut plan = plan_of(alloc, TWO_NODES)?;
    plan.settings.slots = slots;
    let stores = two_stores(alloc, 4).ok()?;
    let ran = runs_over(rt, alloc, &plan, stores, "");
    drop(plan);
    Some(ran)
}

/// A ring has 1 to 4,096 slots.
#[test]
fn settings_of_no_ring(rt: HostRuntime) {
    for slots in [0, 4_097] {
        let ran = runs_with_slots(&rt, rt.alloc(), slots);
        check!(&rt; ran == Some((Finish::BadPlan, true)));
    }
}

/// Checks the words that a line has for this end of an ask.
fn is_told(alloc: Global, ended: AskResult, wanted: &str) -> bool {
    let text = format!(in alloc; "{ended}");
    drop(ended);
    let is_wanted = matches!(&text, Ok(text) if text.as_str() == wanted);
    drop(text);
    is_wanted
}

#[test]
fn words_of_a_line(rt: HostRuntime) {
    let alloc = rt.alloc();
    let set_full = AskResult::Reply(Reply::SetFull);
    check!(&rt;
        is_told(alloc, set_full, "setfull"),
        "a reply by its own words"
    );
    check!(&rt; is_told(alloc, AskResult::Full, "full"), "a full store");
    check!(&rt;
        is_told(alloc, AskResult::NoAnswer, "noanswer"),
        "no answer"
    );
}
