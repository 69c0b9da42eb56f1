//! A seat with a core that holds less than the seat shows.
ghost use Rattle.std.specs.Prelude.{◌≡◌, IfOk, OnOk};
ghost use Rattle.chord_caller.specs.Client.{IsCoreOf};

use super::{founded, insert, is_first_call, let_go, reply};
use crate::checks::check;
use chord_caller::{ClientCore, TakeOutcome};
use chord_map::{Reply, Request};
use chord_node::{Message, Node};
use chord_store::CappedStore;
use chord_table::{CallerSeat, Envelope, Naming, NodeSeat, Registrar, Shared, TableParts};
use std::alloc::Global;
use std::marker::Brand;
use std::test::Fail;

#[test]
fn a_reply_is_handed_out(rt: HostRuntime) -> Result<(), Fail> {
    let parts = Registrar::open(rt.alloc(), 2, 1)?;
    check!(&rt; hands_out::<Brand>(rt.alloc(), parts)?);
    Ok(())
}

/// The client submits the request, and the seat sends its call.
fn submits<J: Naming>(
    table: &Shared<J>,
    core: &mut ClientCore,
    seat: &mut CallerSeat<J>,
    request: Request,
) -> Result<Envelope<J>, Fail>
    requires { IsCoreOf core.old seat.old.caller }
    ensures { OnOk result (IsCoreOf core.new seat.new.caller) }
{
    let ask = core.submit(request)?;
    Ok(seat.submit(table, ask))
}

/// The seat sends the first call again.
fn sends_again<J: Naming>(
    table: &Shared<J>,
    core: &ClientCore,
    seat: &mut CallerSeat<J>,
) -> Result<Envelope<J>, Fail>
    requires { IsCoreOf core.now seat.old.caller }
    ensures { seat.new ≡ seat.old }
{
    let ask = core.resend(1)?;
    Ok(seat.resend(table, ask))
}

/// The client takes the reply in an envelope.
fn hears<J: Naming>(
    table: &Shared<J>,
    core: &mut ClientCore,
    seat: &mut CallerSeat<J>,
    envelope: Envelope<J>,
) -> Result<TakeOutcome, Fail>
    requires { IsCoreOf core.old seat.old.caller }
    ensures { OnOk result (IsCoreOf core.new seat.new.caller) }
{
    let Message::Told(told) = seat.receive(table, envelope) else {
        return Err(Fail::from("no reply"));
    };
    seat.hear(table, &told);
    Ok(core.take(told))
}

/// Checks that the call sent again is the first one.
fn goes_out_again<J: Naming>(
    table: &Shared<J>,
    core: &ClientCore,
    seat: &mut CallerSeat<J>,
) -> Result<bool, Fail>
    requires { IsCoreOf core.now seat.old.caller }
    ensures { seat.new ≡ seat.old }
{
    let again = sends_again(table, core, seat)?;
    let is_first = is_first_call(again.message());
    drop(again);
    Ok(is_first)
}

/// A client's call is sent twice and answered once. Checks that both are the first call, and that
/// the reply is handed out.
fn hears_once<J: Naming>(
    alloc: Global,
    table: &Shared<J>,
    node: &mut Node<CappedStore>,
    seat: &mut NodeSeat<J>,
    core: &mut ClientCore,
    caller: &mut CallerSeat<J>,
) -> Result<bool, Fail>
    requires node { seat.old.node ≡ node.old }
    requires caller { IsCoreOf core.old caller.old.caller }
{
    let call = submits(table, core, caller, insert(alloc)?)?;
    let is_first = is_first_call(call.message());
    let is_again = match goes_out_again(table, core, caller) {
        Ok(is_again) => is_again,
        Err(fail) => {
            drop(call);
            return Err(fail);
        }
    };
    let told = reply(table, node, seat, call)?;
    let outcome = hears(table, core, caller, told)?;
    caller.look(table);
    let is_fresh = matches!(&outcome, TakeOutcome::Fresh(Reply::Added));
    drop(outcome);
    Ok(is_first && is_again && is_fresh && core.floor() == 1)
}

/// Admits a node and a client for that check, and gives its result.
fn hands_out<J: Naming>(alloc: Global, parts: TableParts) -> Result<bool, Fail>
    requires name { parts ≡ J.name }
    requires slots { parts.slots ≡ 2 }
    requires callers { parts.callers ≡ 1 }
{
    let mut core = ClientCore::new(alloc, 0, 1)?;
    let mut node = match founded(alloc, 0, CappedStore::new(alloc, 4)) {
        Ok(node) => node,
        Err(fail) => {
            drop(core);
            return Err(fail);
        }
    };
    let (table, mut registrar) = parts.assemble::<J>();
    let mut seat = registrar.admit_node(&table, 0, &node);
    let mut caller = registrar.open_caller(&table, 0, 1);
    let heard = hears_once(alloc, &table, &mut node, &mut seat, &mut core, &mut caller);
    drop(caller);
    drop(core);
    let_go(table, registrar, node, seat);
    heard
}
