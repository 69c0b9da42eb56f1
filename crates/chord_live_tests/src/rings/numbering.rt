//! What a core with its seat answers, without a ring.
ghost use Rattle.std.specs.Prelude.{◌≡◌};
ghost use Rattle.chord_caller.specs.Answers.{new_caller};

use crate::checks::check;
use chord_caller::CallerCore;
use chord_ident::Id;
use chord_live_steps::{Departure, Numbers, SeatedCore};
use chord_map::Request;
use chord_node::Message;
use chord_store::ListStore;
use chord_table::{Naming, Registrar, Shared, TableParts};
use chord_testkit::Text;
use std::alloc::Global;
use std::marker::Brand;

#[test]
fn a_seated_core_submits_and_meets(rt: HostRuntime) {
    let parts = Registrar::open(rt.alloc(), 1, 2).expect(&rt, "memory for a table");
    let (asked, met) = seated::<Brand>(rt.alloc(), parts).expect(&rt, "memory for two callers");
    // It waits for nothing, its first call has number 1, which is no reply to it; it waits for that
    // then, with room for no other one, and sends it again.
    let wanted = "0 None false, 1 Some(1), NoAnswer, Some(1) true true, WindowFull, Some(1)";
    check!(&rt; asked.as_str() == wanted, "a core with its seat submits and sends again");
    // Another caller took and was told nothing, nor does a note of nothing tell it anything, and it
    // has no reply to its request 1.
    check!(&rt; met.as_str() == "(0, 0), (0, 0), false", "another one meets its note");
}

#[test]
fn nodes_get_numbers(rt: HostRuntime) {
    let parts = Registrar::open(rt.alloc(), 2, 1).expect(&rt, "memory for a table");
    let told = admitted::<Brand>(rt.alloc(), parts).expect(&rt, "memory for a node");
    // Node 0 is in slot 1, and its seat is its own. So it does not depart; then its seat is there.
    let wanted = "0 of 1, stays, 1 of 1";
    check!(&rt; told.as_str() == wanted, "a node departs once all seats are there");
}

/// How many nodes' seats there are of how many, once a node is admitted, whether it then departs,
/// and how many there are once its seat is taken in.
fn admitted<J: Naming>(alloc: Global, parts: TableParts) -> Option<Text>
    requires name { parts ≡ J.name }
    requires slots { parts.slots ≡ 2 }
    requires callers { parts.callers ≡ 1 }
{
    let (table, registrar) = parts.assemble::<J>();
    let mut numbers = Numbers::new(alloc, registrar, 1);
    let store = ListStore::new(alloc);
    let Ok((node, seat)) = numbers.create(&table, 1, alloc, Id::new(7), 2, store) else {
        return None;
    };
    drop(node);
    let (held, nodes) = (numbers.held(), numbers.nodes());
    let departs = numbers.depart(&table, &[], Departure::Retire(0));
    numbers.take_node(&table, seat);
    let does = if departs { "departs" } else { "stays" };
    let (more, all) = (numbers.held(), numbers.nodes());
    let told = Text::of(format_args!("{held} of {nodes}, {does}, {more} of {all}"));
    drop(numbers);
    drop(table);
    Some(told)
}

fn seated<J: Naming>(alloc: Global, parts: TableParts) -> Option<(Text, Text)>
    requires name { parts ≡ J.name }
    requires callers { parts.callers ≡ 2 }
{
    let (table, registrar) = parts.assemble::<J>();
    let mut numbers = Numbers::new(alloc, registrar, 2);
    let (core, seat) = numbers.admit_caller(&table, alloc, 1)?;
    let mut zero = SeatedCore::new(core, seat);
    let (core, seat) = numbers.admit_caller(&table, alloc, 1)?;
    let mut one = SeatedCore::new(core, seat);
    let met = met_by(&table, &mut zero, &mut one);
    drop(one);
    let asked = asked_by(alloc, &table, zero);
    drop(numbers);
    drop(table);
    Some((asked?, met?))
}

/// The number of the call in a message.
fn call_in(message: &Message) -> Option<u64> {
    match message {
        Message::Ask(ask) => Some(ask.number),
        _ => None,
    }
}

/// What a core answers that submits its first request: its floor, the least number that waits, and
/// whether 1 waits; the number that it gives, and that of the call that is sent; how it takes its own
/// call; the least number that waits, whether 1 waits, and whether 1 was submitted; why it refuses
/// another one; the number of the call that is sent again, and of its seat.
fn asked_by<J: Naming>(
    alloc: Global,
    table: &Shared<J>,
    mut own: SeatedCore<J, CallerCore>,
) -> Option<Text>
    requires own { own.caller ≡ new_caller own.caller.number 1 }
{
    let before = Text::of(format_args!(
        "{} {:?} {}",
        own.floor(),
        own.pending(),
        own.is_pending(1)
    ));
    let (number, envelope) = own.submit(table, insert(alloc)?).ok()?;
    let sent = call_in(envelope.message());
    let heard = own.take(table, envelope, 1).err()?;
    let text = before.and(format_args!(", {number} {sent:?}, {heard:?}"), 64);
    let pending = own.pending();
    let waits = own.is_pending(1);
    let was_submitted = own.was_submitted(1);
    let request = insert(alloc)?;
    let refusal = own.refusal(&request)?;
    drop(request);
    let again = sent_again(table, &mut own);
    own.look(table);
    drop(own.witness(table));
    drop(own.into_seat());
    let text = text.and(format_args!(", {pending:?} {waits} {was_submitted}"), 64);
    Some(text.and(format_args!(", {refusal:?}, {again:?}"), 64))
}

/// Insert `x` under `a`.
fn insert(alloc: Global) -> Option<Request> {
    Request::insert(alloc, b"a", b"x").ok()
}

/// The number of the pending call that is sent again.
fn sent_again<J: Naming>(table: &Shared<J>, own: &mut SeatedCore<J, CallerCore>) -> Option<u64> {
    if !own.is_pending(1) {
        return None;
    }
    let envelope = own.resend(table, 1).ok()?;
    let number = call_in(envelope.message());
    drop(envelope);
    number
}

/// How many calls a core took, and how many it was told of.
fn known_by<J: Naming>(own: &SeatedCore<J, CallerCore>) -> (usize, usize) {
    (own.mine().len(), own.told().len())
}

/// How many calls `one` took and was told of, before and after it met a note of `zero`, and whether
/// it has a reply to request 1.
fn met_by<J: Naming>(
    table: &Shared<J>,
    zero: &mut SeatedCore<J, CallerCore>,
    one: &mut SeatedCore<J, CallerCore>,
) -> Option<Text>
    ensures { zero.new ≡ zero.old }
{
    let known = known_by(one);
    let note = zero.show(table).ok()?;
    one.meet(table, note).ok()?;
    let after = known_by(one);
    let reply = has_reply(one)?;
    Some(Text::of(format_args!("{known:?}, {after:?}, {reply}")))
}

/// Whether a core has a reply to its request 1; None where memory was out.
fn has_reply<J: Naming>(own: &SeatedCore<J, CallerCore>) -> Option<bool> {
    let found = own.reply_to(1);
    let reply = match &found {
        Ok(found) => Some(found.is_some()),
        Err(_) => None,
    };
    drop(found);
    reply
}
