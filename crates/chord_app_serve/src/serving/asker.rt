//! What an asker has its caller do, and what it tells.
ghost use Rattle.std.specs.Prelude.{◌≡◌, ◌+◌};
ghost use Rattle.chord_app_serve.specs.Answered.{SettlesTo, TellsCall, TellsReply, TellsRetry, told_of_wait};
ghost use Rattle.chord_serve.specs.Question.{IsAnswer};

use chord_live::RingClient;
use chord_live_types::{AskFault, RetryFault, WaitFault};
use chord_map::Reply;
use chord_serve::Asked;
use chord_store::EntryStore;
use chord_table::Naming;
use chord_wire::is_writable;

/// Gives up the requests of a session up to this number that have no reply. The caller had
/// submitted `before` requests when the session began.
pub(crate) fn settle<J: Naming, S: EntryStore>(
    caller: &mut RingClient<'_, J, S>,
    before: u64,
    floor: u64,
)
    ensures { SettlesTo (before + floor) caller.old caller.new }
{
    let upto = before.saturating_add(floor);
    while let Some(number) = caller.pending() {
        if upto < number {
            return;
        }
        let _ = caller.give_up(number);
    }
}

/// The reply as an answer, if it has a frame; each reply of a store has.
fn answer_of_reply(reply: Reply) -> Asked
    ensures fits { IsAnswer result }
    ensures told { TellsReply reply result }
{
    if is_writable(&reply) {
        Asked::Reply(reply)
    } else {
        Asked::NoAnswer
    }
}

/// What is told of a wait that ended without a reply.
fn answer_of_wait(fault: WaitFault) -> Asked
    ensures fits { IsAnswer result }
    ensures told { result ≡ told_of_wait fault }
{
    match fault {
        WaitFault::Full => Asked::Full,
        WaitFault::NoAnswer => Asked::NoAnswer,
        WaitFault::Memory => Asked::Memory,
    }
}

/// What is told of a new request. If the caller refuses it outright the session ends as out of
/// memory. Nothing within the session's window should be refused, but no contract says so.
pub(crate) fn answer_of_call(called: Result<Reply, AskFault>) -> Asked
    ensures fits { IsAnswer result }
    ensures told { TellsCall called result }
{
    match called {
        Ok(reply) => answer_of_reply(reply),
        Err(AskFault::Wait(fault)) => answer_of_wait(fault),
        Err(AskFault::Begin(_)) => Asked::Memory,
    }
}

/// What is told of a request that was sent again.
pub(crate) fn answer_of_retry(retried: Result<Reply, RetryFault>) -> Asked
    ensures fits { IsAnswer result }
    ensures told { TellsRetry retried result }
{
    match retried {
        Ok(reply) => answer_of_reply(reply),
        Err(RetryFault::Wait(fault)) => answer_of_wait(fault),
        Err(RetryFault::NoSuchNode) => Asked::NoAnswer,
        Err(RetryFault::Idle) => Asked::NoAnswer,
    }
}
