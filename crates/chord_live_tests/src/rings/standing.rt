//! What callers of other kinds use: a core with its seat, and envelopes that they send, carry and
//! wait for.
ghost use Rattle.std.specs.Prelude.{◌≡◌, ◌<◌, None, Some, IfSome};
ghost use Rattle.chord_caller.specs.Caller.{CallerStep};
ghost use Rattle.chord_caller.specs.Caller.Letter.{AskLetter};

use super::{founded, parts_with, settings};
use crate::checks::check;
use chord_caller::{Ask, CallerCore};
use chord_ident::Id;
use chord_live_ring::{Keyed, Ring, RingParts, Target};
use chord_live_types::{OpenClientFault, OpenFault};
use chord_map::Request;
use chord_node::Message;
use chord_store::CappedStore;
use chord_table::{CallerSeat, Envelope, Naming};
use chord_testkit::{CallText, Text};
use std::alloc::Global;
use std::marker::Brand;
use std::process::Abort;
use std::sync::Wait;
use std::time::{Clock, Duration};

#[test]
fn a_core_and_its_seat(rt: HostRuntime) {
    let parts = parts_with(&rt, rt.alloc(), settings(2, 1, 3, 5));
    stands::<Brand, _>(&rt, rt.alloc(), parts);
}

#[test]
fn a_call_with_its_identifier_is_carried(rt: HostRuntime) {
    let parts = parts_with(&rt, rt.alloc(), settings(1, 2, 3, 5));
    carries::<Brand, _>(&rt, rt.alloc(), parts);
}

/// A ring of one node carries the call of its first caller, admits a client, and has no room for a
/// third.
fn carries<J: Naming, R: Abort + Wait + Clock>(rt: &R, alloc: Global, parts: RingParts)
    requires { parts.name ≡ J.name }
{
    let ring = founded::<J, CappedStore, R>(rt, parts, CappedStore::new(alloc, 1));
    let told = told_by_id(rt, alloc, &ring);
    check!(rt; is_added(told), "the reply to a call comes back to its caller");
    admits_a_client(rt, &ring);
    ring.close();
}

/// The reply to an insert of the first caller, which is carried with the identifier of its key.
fn told_by_id<J: Naming, R: Abort + Wait + Clock>(
    rt: &R,
    alloc: Global,
    ring: &Ring<J, CappedStore>,
) -> Option<Text> {
    let (mut core, mut seat) = ring.admit_caller(rt, 1).ok()?;
    let ask = submitted(alloc, &mut core)?;
    let keyed = Keyed::new(seat.send(ring.table(), &core, Message::Ask(ask)));
    check!(rt; keyed.id == Id::of_bytes(b"a"), "a call goes with the identifier of its key");
    let carried = ring.carry_keyed(rt, 0, keyed)?;
    check!(rt; carried.from == 0, "node 0 answers");
    check!(rt; carried.caller == 0, "the first caller has number 0");
    told_in(seat.receive(ring.table(), carried.envelope))
}

fn admits_a_client<J: Naming, R: Abort + Wait>(rt: &R, ring: &Ring<J, CappedStore>) {
    let Ok((core, seat)) = ring.admit_client(rt, 2) else {
        check!(rt; false, "a ring for two callers admits a client too");
        return;
    };
    let (number, floor, pending) = (core.number(), core.floor(), core.pending());
    drop(seat);
    drop(core);
    check!(rt; number == 1, "it has the next number");
    check!(rt; floor == 0, "it took no reply");
    check!(rt; pending == None, "and waits for none");
    let spent = ring.admit_client(rt, 2).err();
    check!(rt;
        spent == Some(OpenClientFault::CallersSpent),
        "a ring for two callers admits no third one"
    );
}

/// A ring of one node admits and answers one caller, and is stopped.
fn stands<J: Naming, R: Abort + Wait + Clock>(rt: &R, alloc: Global, parts: RingParts)
    requires { parts.name ≡ J.name }
{
    let ring = founded::<J, CappedStore, R>(rt, parts, CappedStore::new(alloc, 1));
    check!(rt; ring.tries() == 3, "a request is sent as often as the settings say");
    let left = ring.time_left(rt, &None, ring.wait_of_try());
    check!(rt; left == Duration::from_millis(5), "and waits as long as they say");
    admits(rt, alloc, &ring);
    let spent = ring.admit_caller(rt, 1).err();
    check!(rt;
        spent == Some(OpenFault::CallersSpent),
        "a ring for one caller admits no second one"
    );
    ring.stop();
    let left = ring.time_left(rt, &None, ring.wait_of_try());
    ring.close();
    check!(rt; left == Duration::from_millis(0), "in a stopped ring nobody waits");
}

fn admits<J: Naming, R: Abort + Wait + Clock>(rt: &R, alloc: Global, ring: &Ring<J, CappedStore>) {
    let Ok((mut core, mut seat)) = ring.admit_caller(rt, 1) else {
        check!(rt; false, "a ring for one caller admits one");
        return;
    };
    let number = core.number();
    let told = answered(rt, alloc, ring, number, &mut core, &mut seat);
    drop(seat);
    drop(core);
    check!(rt; number == 0, "the first caller has number 0");
    check!(rt; is_added(told), "its insert is carried, and the reply comes to it");
    let more = is_there(ring.hear(rt, number, Duration::from_millis(0)));
    check!(rt; !more, "nothing else comes");
}

/// Whether there is a value.
fn is_there<T: Drop>(value: Option<T>) -> bool {
    value.is_some()
}

/// The reply to the first call of the first caller, which added a pair.
const ADDED: &str = "0#1 added";

fn is_added(told: Option<Text>) -> bool {
    told.is_some_and(|told| told.as_str() == ADDED)
}

/// The reply to the insert of a caller that is carried.
fn answered<J: Naming, R: Wait + Clock>(
    rt: &R,
    alloc: Global,
    ring: &Ring<J, CappedStore>,
    number: u64,
    core: &mut CallerCore,
    seat: &mut CallerSeat<J>,
) -> Option<Text>
    requires shown { core.old ≡ seat.old.caller }
    requires own { number < J.name.callers }
{
    let ask = submitted(alloc, core)?;
    let envelope = seat.send(ring.table(), core, Message::Ask(ask));
    let came = carried(rt, ring, number, envelope)?;
    told_in(seat.receive(ring.table(), came))
}

/// A caller's call to insert x under `a`.
fn submitted(alloc: Global, core: &mut CallerCore) -> Option<Ask>
    ensures { IfSome result (λ ask. CallerStep core.old None core.new (Some (AskLetter ask))) }
{
    let request = Request::insert(alloc, b"a", b"x").ok()?;
    core.submit(request).ok()
}

/// Carries an envelope from node 0, posts the reply to caller `number`, and waits for it.
fn carried<J: Naming, R: Wait + Clock>(
    rt: &R,
    ring: &Ring<J, CappedStore>,
    number: u64,
    envelope: Envelope<J>,
) -> Option<Envelope<J>>
    requires { number < J.name.callers }
{
    let carried = ring.carry(rt, 0, envelope)?;
    if carried.from != 0 {
        return None;
    }
    ring.post(rt, Target::Caller(carried.caller), carried.envelope);
    ring.hear(rt, number, Duration::from_millis(1_000))
}

fn told_in(message: Message) -> Option<Text> {
    let told = match &message {
        Message::Told(told) => Some(Text::of(CallText {
            caller: told.caller,
            number: told.number,
            reply: &told.reply,
        })),
        _ => None,
    };
    drop(message);
    told
}
