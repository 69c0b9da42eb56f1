//! Seats of one table.
ghost use Rattle.std.specs.Prelude.{◌≡◌, ◌<◌, [], IfOk, Ok};
ghost use Rattle.chord_links.specs.NodeLinks.{alone};
ghost use Rattle.chord_model.specs.Node.{founder};
ghost use Rattle.chord_model.specs.declared.message.Message.TheVariants.{Ask as AskMessage};
ghost use Rattle.chord_node.specs.Asked.{AskSteps};
ghost use Rattle.chord_node.specs.declared.asks.answered.Answered.TheVariants.{Told as ToldAnswer};

use crate::checks::check;
use chord_caller::{Ask, CallerCore, Heard, Told};
use chord_ident::Id;
use chord_links::Peer;
use chord_map::{Reply, Request};
use chord_node::{Answered, Message, Node};
use chord_store::{CappedStore, EntryStore};
use chord_table::{CallerSeat, Envelope, Naming, NodeSeat, Registrar, Shared, TableParts};
use std::alloc::{AllocError, Global};
use std::marker::Brand;
use std::test::Fail;

mod assemblies;
mod clients;
mod standings;
mod witnesses;

#[test]
fn a_caller_is_answered(rt: HostRuntime) -> Result<(), Fail> {
    let alloc = rt.alloc();
    let parts = Registrar::open(alloc, 2, 1)?;
    let store: Box<dyn EntryStore + Send> = Box::new(alloc, CappedStore::new(alloc, 4))?;
    let heard = is_answered_from_a_box::<Brand>(alloc, parts, store)?;
    check!(&rt; heard == FRESH_AND_ADDED);
    Ok(())
}

#[test]
fn a_call_comes_as_it_was_sent(rt: HostRuntime) -> Result<(), Fail> {
    let parts = Registrar::open(rt.alloc(), 2, 1)?;
    check!(&rt; comes_as_it_was_sent::<Brand>(rt.alloc(), parts)?);
    Ok(())
}

#[test]
fn a_node_acts_before(rt: HostRuntime) -> Result<(), Fail> {
    let parts = Registrar::open(rt.alloc(), 2, 1)?;
    let comes = acts_before::<Brand>(rt.alloc(), parts)?;
    check!(&rt;
        comes,
        "a call comes to a node that was admitted beside another"
    );
    Ok(())
}

/// Insert `x` under `abc`.
fn insert(alloc: Global) -> Result<Request, AllocError> {
    Request::insert(alloc, b"abc", b"x")
}

/// Checks that it is the first call of caller 0, to insert `x` under `abc`.
fn is_first_call(message: &Message) -> bool {
    let Message::Ask(ask) = message else {
        return false;
    };
    let Request::Insert { key, value } = &ask.request else {
        return false;
    };
    let sent = ask.caller == 0 && ask.number == 1 && ask.floor == 0 && ask.hops == 255;
    sent && key.as_slice() == b"abc".as_slice() && value.as_slice() == b"x".as_slice()
}

/// The caller submits the request, and the seat sends its call.
fn ask<J: Naming>(
    table: &Shared<J>,
    core: &mut CallerCore,
    seat: &mut CallerSeat<J>,
    request: Request,
) -> Result<Envelope<J>, Fail>
    requires { seat.old.caller ≡ core.old }
    ensures { IfOk result (λ envelope. seat.new.caller ≡ core.new) }
{
    let ask = core.submit(request)?;
    Ok(seat.send(table, core, Message::Ask(ask)))
}

/// The call in a message.
fn call_in(message: Message) -> Result<Ask, Fail>
    ensures { IfOk result (λ ask. message ≡ AskMessage ask) }
{
    match message {
        Message::Ask(ask) => Ok(ask),
        other => {
            drop(other);
            Err(Fail::from("no call"))
        }
    }
}

/// The reply of the node to a call that it does.
fn told_by<S: EntryStore>(node: &mut Node<S>, ask: Ask) -> Result<Told, Fail>
    ensures { IfOk result (λ told. AskSteps ask node.old (Ok (ToldAnswer told)) node.new) }
{
    let answered = node.on_ask(&ask);
    drop(ask);
    let (answered, done) = answered?;
    drop(done);
    match answered {
        Answered::Told(told) => Ok(told),
        other => {
            drop(other);
            Err(Fail::from("no reply"))
        }
    }
}

/// The node does the call in an envelope, and the seat sends its reply.
fn reply<J: Naming, S: EntryStore>(
    table: &Shared<J>,
    node: &mut Node<S>,
    seat: &mut NodeSeat<J>,
    envelope: Envelope<J>,
) -> Result<Envelope<J>, Fail>
    requires { seat.old.node ≡ node.old }
{
    let call = call_in(seat.receive(table, envelope))?;
    let told = told_by(node, call)?;
    Ok(seat.send(table, node, Message::Told(told)))
}

/// The first node of a ring, with this number.
fn founded<S: EntryStore>(alloc: Global, number: u64, store: S) -> Result<Node<S>, Fail>
    requires vacant { S.content store ≡ [] }
    ensures { IfOk result (λ node. node ≡ founder (alone (record { number = number; id = record { number = 5 } }) 3) (S.limit store)) }
{
    let me = Peer {
        number,
        id: Id::new(5),
    };
    match Node::found(alloc, me, 3, store) {
        Ok(node) => Ok(node),
        Err(store) => {
            drop(store);
            Err(Fail::from("no node"))
        }
    }
}

/// The caller takes the reply in an envelope.
fn take<J: Naming>(
    table: &Shared<J>,
    core: &mut CallerCore,
    seat: &mut CallerSeat<J>,
    envelope: Envelope<J>,
) -> Result<Heard, Fail>
    requires { seat.old.caller ≡ core.old }
{
    let Message::Told(told) = seat.receive(table, envelope) else {
        return Err(Fail::from("no reply"));
    };
    let heard = core.take(told)?;
    seat.local(table, core);
    Ok(heard)
}

/// How many replies Added the caller took.
fn added_replies(core: &CallerCore) -> usize {
    core.mine()
        .iter()
        .filter(|done| done.reply == Reply::Added)
        .count()
}

/// How the first call of a caller went.
#[derive(Clone, Copy, PartialEq, Eq)]
struct Exchange {
    /// The call that was sent is the first one, to insert `x` under `abc`.
    is_first: bool,
    heard: Heard,
    /// How many replies Added the caller has.
    added: usize,
}

const FRESH_AND_ADDED: Exchange = Exchange {
    is_first: true,
    heard: Heard::Fresh,
    added: 1,
};

/// A caller's call goes to a node, and its reply to the caller.
fn hears<J: Naming, S: EntryStore>(
    alloc: Global,
    table: &Shared<J>,
    node: &mut Node<S>,
    seat: &mut NodeSeat<J>,
    core: &mut CallerCore,
    caller: &mut CallerSeat<J>,
) -> Result<Exchange, Fail>
    requires node { seat.old.node ≡ node.old }
    requires caller { caller.old.caller ≡ core.old }
{
    let call = ask(table, core, caller, insert(alloc)?)?;
    let is_first = is_first_call(call.message());
    let told = reply(table, node, seat, call)?;
    let heard = take(table, core, caller, told)?;
    seat.look(table);
    caller.look(table);
    Ok(Exchange {
        is_first,
        heard,
        added: added_replies(core),
    })
}

/// Lets a table go, with a node and its seat.
fn let_go<J: Naming, S: EntryStore>(
    table: Shared<J>,
    registrar: Registrar<J>,
    node: Node<S>,
    seat: NodeSeat<J>,
) {
    drop(seat);
    drop(node);
    drop(registrar);
    drop(table);
}

/// Admits a node with this store and a caller for that, and gives what `hears` gives.
fn is_answered<J: Naming, S: EntryStore>(
    alloc: Global,
    parts: TableParts,
    store: S,
) -> Result<Exchange, Fail>
    requires name { parts ≡ J.name }
    requires slots { parts.slots ≡ 2 }
    requires callers { parts.callers ≡ 1 }
    requires vacant { S.content store ≡ [] }
{
    let mut node = founded(alloc, 0, store)?;
    let (table, mut registrar) = parts.assemble::<J>();
    let mut seat = registrar.admit_node(&table, 0, &node);
    let mut core = CallerCore::new(alloc, 0, 1);
    let mut caller = registrar.admit_caller(&table, 0, &core);
    let heard = hears(alloc, &table, &mut node, &mut seat, &mut core, &mut caller);
    drop(caller);
    drop(core);
    let_go(table, registrar, node, seat);
    heard
}

/// `is_answered` with a boxed store.
fn is_answered_from_a_box<J: Naming>(
    alloc: Global,
    parts: TableParts,
    store: Box<dyn EntryStore + Send>,
) -> Result<Exchange, Fail>
    requires name { parts ≡ J.name }
    requires slots { parts.slots ≡ 2 }
    requires callers { parts.callers ≡ 1 }
    requires vacant { content store ≡ [] }
{
    is_answered::<J, Box<dyn EntryStore + Send>>(alloc, parts, store)
}

/// Admits a caller, and checks that the message that the node takes in is the call that it sent.
fn comes<J: Naming>(
    alloc: Global,
    table: &Shared<J>,
    registrar: &mut Registrar<J>,
    seat: &mut NodeSeat<J>,
) -> Result<bool, Fail>
    requires callers { registrar.old.register.callers ≡ [] }
    requires alone { registrar.old.taken ≡ [] }
    requires place { 0 < J.name.callers }
{
    let request = insert(alloc)?;
    let mut core = CallerCore::new(alloc, 0, 1);
    let mut caller = registrar.admit_caller(table, 0, &core);
    let call = ask(table, &mut core, &mut caller, request)?;
    let message = seat.receive(table, call);
    let is_first = is_first_call(&message);
    drop(message);
    Ok(is_first)
}

/// Admits a node for that check, and gives its result.
fn comes_as_it_was_sent<J: Naming>(alloc: Global, parts: TableParts) -> Result<bool, Fail>
    requires name { parts ≡ J.name }
    requires slots { parts.slots ≡ 2 }
    requires callers { parts.callers ≡ 1 }
{
    let node = founded(alloc, 0, CappedStore::new(alloc, 4))?;
    let (table, mut registrar) = parts.assemble::<J>();
    let mut seat = registrar.admit_node(&table, 0, &node);
    let is_first = comes(alloc, &table, &mut registrar, &mut seat);
    let_go(table, registrar, node, seat);
    is_first
}

/// Admits a node, and records an event of it. Checks that it takes in what a caller sends then.
fn acts_before<J: Naming>(alloc: Global, parts: TableParts) -> Result<bool, Fail>
    requires name { parts ≡ J.name }
    requires slots { parts.slots ≡ 2 }
    requires callers { parts.callers ≡ 1 }
{
    let mut node = founded(alloc, 0, CappedStore::new(alloc, 4))?;
    let (table, mut registrar) = parts.assemble::<J>();
    let mut seat = registrar.admit_node(&table, 0, &node);
    let links = *node.links();
    node.set_links(links);
    seat.local(&table, &node);
    seat.look(&table);
    let is_first = comes(alloc, &table, &mut registrar, &mut seat);
    let_go(table, registrar, node, seat);
    is_first
}
