//! Answering a call that the node owns: nothing of it is copied.
ghost use Rattle.std.specs.Prelude.{◌≡◌, true, false};
ghost use Rattle.chord_ident.specs.Circle.{in_span};
ghost use Rattle.chord_segment.specs.Segment.{id_of, past_at};
ghost use Rattle.chord_segment.specs.Segment.Past.{New};
ghost use Rattle.chord_node.specs.Asked.{AnswersIn, Journals, past_done};
ghost use Rattle.chord_node.specs.Passed.{PassesOn};

use crate::asks::answered::Answered;
use crate::asks::apply::is_full;
use crate::asks::execute::execute_ready;
use crate::asks::pass_on::peer_of_hop;
use chord_caller::{Ask, Told};
use chord_ident::Id;
use chord_journal::JournalBuffer;
use chord_links::Links;
use chord_map::Done;
use chord_route::next_hop;
use chord_segment::{Past, Segment};
use chord_store::EntryStore;
use std::alloc::{AllocError, Global};

/// Executes a new call, unless the store is too full for it.
fn execute_taken<S: EntryStore>(
    alloc: Global,
    segment: &mut Segment,
    store: &mut S,
    id: Id,
    ask: Ask,
    journal: &mut JournalBuffer,
) -> Result<(Answered, Option<Done>), AllocError>
    requires id { id.number ≡ id_of ask.request }
    requires key { in_span segment.old.segment.span (id_of ask.request) ≡ true }
    requires new { past_at ask.caller ask.number segment.old.segment ≡ New }
    ensures answers { AnswersIn ask false segment.old.segment (S.content store.old) (S.limit store.old) result segment.new.segment (S.content store.new) }
    ensures limit { S.limit store.new ≡ S.limit store.old }
    ensures journal { Journals result
        (past_done (past_at ask.caller ask.number segment.old.segment)
        ask (S.content store.old) (S.limit store.old))
        journal.old journal.new }
{
    if segment.reserve(ask.caller).is_err() || journal.reserve(&ask.request).is_err() {
        let is_full = is_full(store, id, &ask.request);
        drop(ask);
        return if is_full {
            Ok((Answered::Full, None))
        } else {
            Err(AllocError)
        };
    }
    execute_ready(alloc, segment, store, id, ask, None, journal)
}

/// Answers a call whose key lies in the segment's span.
pub(crate) fn answer_taken<S: EntryStore>(
    alloc: Global,
    segment: &mut Segment,
    store: &mut S,
    id: Id,
    ask: Ask,
    journal: &mut JournalBuffer,
) -> Result<(Answered, Option<Done>), AllocError>
    requires id { id.number ≡ id_of ask.request }
    requires key { in_span segment.old.segment.span (id_of ask.request) ≡ true }
    ensures answers { AnswersIn ask false segment.old.segment (S.content store.old) (S.limit store.old) result segment.new.segment (S.content store.new) }
    ensures limit { S.limit store.new ≡ S.limit store.old }
    ensures journal { Journals result
        (past_done (past_at ask.caller ask.number segment.old.segment)
        ask (S.content store.old) (S.limit store.old))
        journal.old journal.new }
{
    match segment.find(ask.caller, ask.number) {
        Past::Seen => {
            drop(ask);
            Ok((Answered::Dropped, None))
        }
        Past::Kept(done) => {
            let (caller, number) = (ask.caller, ask.number);
            drop(ask);
            let told = Told {
                caller,
                number,
                reply: done.reply.try_copy()?,
            };
            Ok((Answered::Told(told), None))
        }
        Past::New => execute_taken(alloc, segment, store, id, ask, journal),
    }
}

/// Passes the call itself on to the next hop towards its key, with one hop less. It is dropped if
/// no hops are left or the node knows no other.
pub(crate) fn pass_taken(links: &Links, mut ask: Ask, target: Id) -> Answered
    requires { target.number ≡ id_of ask.request }
    ensures { PassesOn links.now ask result }
{
    let peer = peer_of_hop(next_hop(links, target));
    if ask.hops == 0 || peer.number == links.me().number {
        drop(ask);
        return Answered::Dropped;
    }
    ask.hops -= 1;
    Answered::Forward(peer.number, ask)
}
