//! A refused growth is answered as out of memory or loses a message, and a second try succeeds. With
//! ample memory nothing is refused; the tests are run with each growth refused in turn too. A deed
//! that was refused memory is done again (`follow_on`); a request that was lost is sent again by
//! `surely`.
ghost use Rattle.std.specs.Prelude.{◌≡◌};

use super::following::{Script, follow_both};
use super::settings;
use chord_live_ring::{RingParts, Settings};
use chord_live_types::NewFault;
use chord_store::CappedStore;
use chord_table::Naming;
use std::alloc::Global;
use std::marker::Brand;
use std::process::Abort;
use std::sync::Wait;
use std::test::Fail;
use std::thread::Threads;
use std::time::Clock;

/// Node 0 has a worker and holds `b`.
const RING: &str = "
create A 4 > 0@A
join C 0 4 > 1@C
tick 0 > Ok(Busy)
tick 1 > Ok(Busy)
tick 0 > Ok(Busy)
tick 1 > Ok(Busy)
tick 0 > Ok(Busy)
tick 1 > Ok(Busy)
seen 1 > Staying pairs 0
workers 0
caller 4 > Opened
caller 4 > Opened
# an insert is answered, and was one request
c0 surely 0 insert b x > added
c0 state > floor 1, least None, waits
# the reply to a retrieve comes
c1 begin 0 retrieve b > 1
c1 surely-collect 0 1 > values 1 78
# a caller learns the call of the other's note
c1 meet c0 > mine 1, told 0#1 added
";

/// A ring for one caller has one client. A client that memory was refused to takes no number.
const CLIENT: &str = "
client 1 > Opened
client 1 > CallersSpent
";

#[test]
fn refused_growths_of_a_ring(rt: HostRuntime) -> Result<(), Fail> {
    follow_again(&rt, rt.alloc(), settings(2, 2, 20, 50), RING)
}

#[test]
fn refused_growths_of_a_client(rt: HostRuntime) -> Result<(), Fail> {
    follow_again(&rt, rt.alloc(), settings(1, 1, 1, 1), CLIENT)
}

/// Does the lines with a ring of these settings, which is made again if memory was refused.
fn follow_again<R: Abort + Threads + Wait + Clock + Sync>(
    rt: &R,
    alloc: Global,
    limits: Settings,
    lines: &str,
) -> Result<(), Fail> {
    let parts = match RingParts::new(alloc, limits) {
        Err(NewFault::Memory) => RingParts::new(alloc, limits),
        made => made,
    };
    let Ok(parts) = parts else {
        return Err(Fail::new("a ring is made at the second try"));
    };
    follow::<Brand, R>(rt, alloc, parts, Script { lines })
}

/// A ring that was refused memory once its name was taken can't be made again.
fn follow<J: Naming + Send + Sync, R: Abort + Threads + Wait + Clock + Sync>(
    rt: &R,
    alloc: Global,
    parts: RingParts,
    script: Script<'_>,
) -> Result<(), Fail>
    requires { parts.name ≡ J.name }
{
    let Ok(ring) = parts.assemble::<J, CappedStore>() else {
        return Ok(());
    };
    let done = follow_both(rt, alloc, &ring, script.lines);
    ring.close();
    done
}
