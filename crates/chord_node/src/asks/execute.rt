//! Answering a call from a segment and a store.
ghost use Rattle.std.specs.Prelude.{◌≡◌, Some, true, is_some, IfOk, IfSome, OnOk, OnErr};
ghost use Rattle.chord_ident.specs.Circle.{in_span};
ghost use Rattle.chord_segment.specs.Segment.{id_of, past_at};
ghost use Rattle.chord_segment.specs.Segment.Past.{New};
ghost use Rattle.chord_journal.specs.Journal.{HasRoom};
ghost use Rattle.chord_map.specs.Map.{IsValues};
ghost use Rattle.chord_node.specs.Asked.{AnswersIn, Journals, done_with, past_done};

use crate::asks::answered::Answered;
use crate::asks::apply::{apply, is_full};
use chord_caller::{Ask, Told};
use chord_ident::Id;
use chord_journal::JournalBuffer;
use chord_map::{Done, Reply, Request};
use chord_segment::{Past, Segment};
use chord_store::{EntryStore, StoreFault};
use std::alloc::{AllocError, Global};

/// An equal copy of the call.
fn copy_of(ask: &Ask) -> Result<Ask, AllocError>
    ensures { IfOk result (λ copy. copy ≡ ask.now) }
{
    Ok(Ask {
        caller: ask.caller,
        number: ask.number,
        floor: ask.floor,
        request: ask.request.try_copy()?,
        hops: ask.hops,
    })
}

/// Two copies of the reply.
fn two_copies(reply: &Reply) -> Result<(Reply, Reply), AllocError>
    ensures equal { IfOk result (λ both. (both.0 ≡ reply.now) × (both.1 ≡ reply.now)) }
    ensures memory { OnErr result (IsValues reply.now) }
{
    let first = reply.try_copy()?;
    match reply.try_copy() {
        Ok(second) => Ok((first, second)),
        Err(refused) => {
            drop(first);
            Err(refused)
        }
    }
}

/// One more copy of the reply, for the segment to keep; and
/// the executed call, if its request is given to be recorded.
fn copies_of(
    ask: &Ask,
    reply: &Reply,
    buffered: Option<Request>,
) -> Result<(Reply, Option<Done>), AllocError>
    ensures kept { IfOk result (λ both. both.0 ≡ reply.now) }
    ensures note { IfOk result (λ both. both.1 ≡ done_with ask.now buffered reply.now) }
    ensures memory { OnErr result (IsValues reply.now) }
{
    let Some(request) = buffered else {
        return Ok((reply.try_copy()?, None));
    };
    match two_copies(reply) {
        Ok((kept, reply)) => {
            let done = Done {
                caller: ask.caller,
                number: ask.number,
                request,
                reply,
            };
            Ok((kept, Some(done)))
        }
        Err(refused) => {
            drop(request);
            Err(refused)
        }
    }
}

/// Executes a new call that the segment has room for, unless the store is too full for it. All that
/// can fail comes before the first change, or after a Retrieve, which changes nothing. The segment
/// keeps the request itself, not a copy.
pub(crate) fn execute_ready<S: EntryStore>(
    alloc: Global,
    segment: &mut Segment,
    store: &mut S,
    id: Id,
    ask: Ask,
    buffered: Option<Request>,
    journal: &mut JournalBuffer,
) -> Result<(Answered, Option<Done>), AllocError>
    requires id { id.number ≡ id_of ask.request }
    requires key { in_span segment.old.segment.span (id_of ask.request) ≡ true }
    requires new { past_at ask.caller ask.number segment.old.segment ≡ New }
    requires room { segment.old.room ≡ Some ask.caller }
    requires buffered { IfSome buffered (λ request. request ≡ ask.request) }
    requires journal { HasRoom ask.request journal.old }
    ensures answers { AnswersIn ask (is_some buffered) segment.old.segment (S.content store.old) (S.limit store.old) result segment.new.segment (S.content store.new) }
    ensures limit { S.limit store.new ≡ S.limit store.old }
    ensures journal { Journals result
        (past_done (past_at ask.caller ask.number segment.old.segment)
        ask (S.content store.old) (S.limit store.old))
        journal.old journal.new }
{
    let reply = match apply(alloc, store, id, &ask.request) {
        Ok(reply) => reply,
        Err(fault) => {
            drop(ask);
            drop(buffered);
            return match fault {
                StoreFault::Full => Ok((Answered::Full, None)),
                StoreFault::Memory => Err(AllocError),
            };
        }
    };
    let Ok((kept, note)) = copies_of(&ask, &reply, buffered) else {
        drop(ask);
        drop(reply);
        return Err(AllocError);
    };
    journal.append(&ask.request, &reply);
    let told = Told {
        caller: ask.caller,
        number: ask.number,
        reply,
    };
    let done = Done {
        caller: ask.caller,
        number: ask.number,
        request: ask.request,
        reply: kept,
    };
    match segment.append(done, ask.floor) {
        Ok(()) => Ok((Answered::Told(told), note)),
        Err(_) => unreachable!(),
    }
}

/// Reserves all memory for executing a call, except the
/// store's: room in the segment, and copies of the request.
fn prepare(segment: &mut Segment, ask: &Ask) -> Result<(Ask, Request), AllocError>
    ensures same { segment.new.segment ≡ segment.old.segment }
    ensures room { OnOk result (segment.new.room ≡ Some ask.now.caller) }
    ensures copies { IfOk result (λ both. (both.0 ≡ ask.now) × (both.1 ≡ ask.now.request)) }
{
    segment.reserve(ask.caller)?;
    let copy = copy_of(ask)?;
    match ask.request.try_copy() {
        Ok(buffered) => Ok((copy, buffered)),
        Err(refused) => {
            drop(copy);
            Err(refused)
        }
    }
}

/// Executes a copy of a new call, unless the store is too full for it.
fn execute_in<S: EntryStore>(
    alloc: Global,
    segment: &mut Segment,
    store: &mut S,
    id: Id,
    ask: &Ask,
) -> Result<(Answered, Option<Done>), AllocError>
    requires id { id.number ≡ id_of ask.now.request }
    requires key { in_span segment.old.segment.span (id_of ask.now.request) ≡ true }
    requires new { past_at ask.now.caller ask.now.number segment.old.segment ≡ New }
    ensures answers { AnswersIn ask.now true segment.old.segment (S.content store.old) (S.limit store.old) result segment.new.segment (S.content store.new) }
    ensures limit { S.limit store.new ≡ S.limit store.old }
{
    let Ok((copy, buffered)) = prepare(segment, ask) else {
        return if is_full(store, id, &ask.request) {
            Ok((Answered::Full, None))
        } else {
            Err(AllocError)
        };
    };
    let mut journal = JournalBuffer::none(alloc);
    execute_ready(
        alloc,
        segment,
        store,
        id,
        copy,
        Some(buffered),
        &mut journal,
    )
}

/// Answers a call whose key lies in the segment's span;
/// gives a copy of the executed call, if it executed one.
pub(crate) fn answer_in<S: EntryStore>(
    alloc: Global,
    segment: &mut Segment,
    store: &mut S,
    id: Id,
    ask: &Ask,
) -> Result<(Answered, Option<Done>), AllocError>
    requires id { id.number ≡ id_of ask.now.request }
    requires key { in_span segment.old.segment.span (id_of ask.now.request) ≡ true }
    ensures answers { AnswersIn ask.now true segment.old.segment (S.content store.old) (S.limit store.old) result segment.new.segment (S.content store.new) }
    ensures limit { S.limit store.new ≡ S.limit store.old }
{
    match segment.find(ask.caller, ask.number) {
        Past::Seen => Ok((Answered::Dropped, None)),
        Past::Kept(done) => {
            let reply = done.reply.try_copy()?;
            let told = Told {
                caller: ask.caller,
                number: ask.number,
                reply,
            };
            Ok((Answered::Told(told), None))
        }
        Past::New => execute_in(alloc, segment, store, id, ask),
    }
}
