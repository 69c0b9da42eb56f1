//! What a caller of a plan asks.
ghost use Rattle.std.specs.Prelude.{◌≡◌, ◌<◌, ℕ, pos, Some, IfOk, IsOk, IsOkUnless};
ghost use Rattle.chord_map.specs.declared.request.Request.{Request};
ghost use Rattle.chord_app_plan.specs.Plan.{number_at, members_of, RequestIs};

use crate::entries::Entries;
use crate::fault::{EntryFault, PlanFault};
use chord_map::{Bytes, Request, RequestFault};
use std::alloc::{AllocError, Global};

#[derive(Debug, Drop)]
pub struct PlanAsk {
    pub caller: usize,
    /// The node at which it is asked, by its index in the plan.
    pub via: usize,
    pub request: Request,
}

// The bytes of a text.
fn bytes_of(alloc: Global, text: &str) -> Result<Bytes, AllocError>
    ensures { IfOk result (λ bytes. bytes ≡ text.now) }
{
    Bytes::from_slice(alloc, text.as_bytes())
}

// The number under the key, if it is below `count`.
fn place(table: &Entries, key: &'static str, count: usize) -> Result<usize, PlanFault>
    ensures value { IfOk result (λ place. number_at key.now (members_of table.now) ≡ Some (pos place)) }
    ensures below { IfOk result (λ place. place < count) }
    ensures accepts { (place : ℕ) → number_at key.now (members_of table.now) ≡ Some (pos place) → place < count → IsOk result }
{
    let place = table.number(key, 0, u64::MAX)? as usize;
    if place < count {
        Ok(place)
    } else {
        Err(table.fault(key, EntryFault::NotBelow(count)))
    }
}

// The request of `do`, `key` and `value`. A retrieve has no value.
fn request_of(alloc: Global, table: &Entries) -> Result<Request, PlanFault>
    ensures value { IfOk result (RequestIs (members_of table.now)) }
    ensures accepts { (request : Request) → RequestIs (members_of table.now) request → IsOkUnless result PlanFault.OutOfMemory }
{
    let operation = table.text("do")?;
    if !matches!(operation, "insert" | "retrieve" | "remove") {
        let fault = EntryFault::unknown_operation(alloc, operation)?;
        return Err(table.fault("do", fault));
    }
    let key = bytes_of(alloc, table.text("key")?)?;
    if operation == "retrieve" {
        return Ok(Request::Retrieve { key });
    }
    let value = bytes_of(alloc, table.text("value")?)?;
    if operation == "insert" {
        Ok(Request::Insert { key, value })
    } else {
        Ok(Request::Remove { key, value })
    }
}

impl PlanAsk {
    ghost use Rattle.std.specs.Prelude.{IfOk, IsOkUnless};
    ghost use Rattle.chord_app_plan.specs.Plan.{AskIs, IsAskOf};
    ghost use Rattle.chord_app_plan.specs.declared.ask.PlanAsk.{PlanAsk};

    /// The ask in a table of `ask`, for a plan with this many callers and nodes.
    pub(crate) fn read(
        alloc: Global,
        table: &Entries,
        callers: usize,
        nodes: usize,
    ) -> Result<PlanAsk, PlanFault>
        ensures value { IfOk result (AskIs (members_of table.now)) }
        ensures limits { IfOk result (IsAskOf callers nodes) }
        ensures accepts { (ask : PlanAsk) → AskIs (members_of table.now) ask → IsAskOf callers nodes ask → IsOkUnless result PlanFault.OutOfMemory }
    {
        let caller = place(table, "caller", callers)?;
        let via = place(table, "via", nodes)?;
        let request = request_of(alloc, table)?;
        match request.check() {
            Ok(()) => Ok(PlanAsk {
                caller,
                via,
                request,
            }),
            Err(RequestFault::ValueLong) => {
                Err(table.fault("value", EntryFault::Request(RequestFault::ValueLong)))
            }
            Err(fault) => Err(table.fault("key", EntryFault::Request(fault))),
        }
    }
}
