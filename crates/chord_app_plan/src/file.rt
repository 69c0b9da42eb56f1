//! Plans in files.
ghost use Rattle.std.specs.Prelude.{◌≡◌, ◌+◌, ◌<◌, ◌≤◌, length, take, Err, IfErr, IfOk, IfSome, IsErrAnd, IsOkUnless};
ghost use Rattle.chord_app_plan.specs.Plan.{IsNotRead, IsPlan, IsPlanOf, IsTooLongOrNotRead};
ghost use Rattle.chord_app_plan.specs.declared.plan.Plan.{Plan};

use crate::fault::PlanFault;
use crate::plan::{PLAN_BYTES, Plan};
use std::alloc::Global;
use std::fs;
use std::fs::Files;
use std::io::{self, Read};

/// All bytes of the reader, or one more than a plan may have.
fn read_bytes<R: Read + Drop>(alloc: Global, reader: R) -> io::Result<Vec<u8>>
    ensures { IfOk result (λ bytes. IfSome (R.remaining reader) (λ all. bytes.items ≡ take (PLAN_BYTES + 1) all)) }
{
    let mut bytes = Vec::new(alloc);
    reader.take(PLAN_BYTES as u64 + 1).read_to_end(&mut bytes)?;
    Ok(bytes)
}

/// The fault of a file that the system does not give.
fn unread(reason: io::ErrorKind) -> PlanFault
    ensures { IsNotRead result }
{
    if reason == io::ErrorKind::OutOfMemory {
        return PlanFault::OutOfMemory;
    }
    PlanFault::Unread(reason)
}

/// The plan in what was read of a file.
fn plan_in(alloc: Global, read: io::Result<Vec<u8>>) -> Result<Plan, PlanFault>
    ensures limits { IfOk result IsPlan }
    ensures value { IfOk read (λ bytes. IfOk result (IsPlanOf bytes.items)) }
    ensures accepts { IfOk read (λ bytes. (plan : Plan) → IsPlanOf bytes.items plan → IsPlan plan → length bytes.items ≤ PLAN_BYTES → IsOkUnless result PlanFault.OutOfMemory) }
    ensures long { IfOk read (λ bytes. PLAN_BYTES < length bytes.items → result ≡ Err PlanFault.TooLong) }
    ensures unread { IfErr read (λ error. IsErrAnd result IsNotRead) }
{
    match read {
        Ok(bytes) => Plan::parse(alloc, bytes.as_slice()),
        Err(error) => Err(unread(error.kind())),
    }
}

/// The plan that is all that the reader gives.
pub fn plan_from<R: Read + Drop>(alloc: Global, reader: R) -> Result<Plan, PlanFault>
    ensures value { IfOk result (λ plan. IfSome (R.remaining reader) (λ all. IsPlanOf all plan)) }
    ensures limits { IfOk result IsPlan }

    // A plan that keeps the limits is refused as not read, or for memory.
    ensures accepts { IfSome (R.remaining reader) (λ all. (plan : Plan) → IsPlanOf all plan → IsPlan plan → length all ≤ PLAN_BYTES → IfErr result IsNotRead) }
    ensures long { IfSome (R.remaining reader) (λ all. PLAN_BYTES < length all → IsErrAnd result IsTooLongOrNotRead) }
{
    plan_in(alloc, read_bytes(alloc, reader))
}

/// The plan in a file.
pub fn read_plan(rt: &impl Files, alloc: Global, path: &str) -> Result<Plan, PlanFault>
    ensures { IfOk result IsPlan }
{
    match fs::open(rt, path) {
        Ok(file) => plan_from(alloc, file),
        Err(error) => Err(unread(error.kind())),
    }
}
