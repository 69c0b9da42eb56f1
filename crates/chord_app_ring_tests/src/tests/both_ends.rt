//! The command and the server's service together, with no network between.

use super::answers::says;
use super::requests::{CRASH, FORCED_CRASH, PLAIN_JOIN, WHOLE_JOIN, bytes_of};
use super::streams::MadeStream;
use crate::checks::check;
use crate::operator::devices::{Exchange, serve_bytes};
use crate::operator::operators::RingValue;
use crate::operator::sights::{RING_TABLE, WHOLE_TABLE};
use chord_app_operator::{
    CrashRefusal, JoinRefusal, LeaveRefusal, PageState, PairsRequest, RescueRefusal, Rows,
};
use chord_app_ring::{
    Page, RingCommand, RingFault, exchange_pairs, page_of, pairs_bytes, request_behind,
};
use chord_ident::Id;
use http1::{Client, Limits};
use std::alloc::Global;
use std::test::Fail;

/// An operator that does what it is asked for.
fn willing(alloc: Global) -> RingValue {
    RingValue::new(alloc)
}

/// One that refuses it.
fn unwilling(alloc: Global) -> RingValue {
    let mut operator = RingValue::new(alloc);
    operator.joined = Err(JoinRefusal::NoSlot);
    operator.leaves = Err(LeaveRefusal::NotStaying);
    operator.crashes = Err(CrashRefusal::Unsafe);
    operator.rescues = Err(RescueRefusal::NotCrashed);
    operator.has_memory = false;
    operator
}

/// Serves what is sent for the command.
fn serve(rt: &HostRuntime, operator: RingValue, command: &RingCommand) -> Result<Exchange, Fail> {
    match bytes_of(rt.alloc(), command) {
        Ok(sent) => {
            let served = serve_bytes(rt, operator, &sent);
            drop(sent);
            served
        }
        Err(refused) => {
            drop(operator);
            Err(Fail::from(refused))
        }
    }
}

/// Commands, the letter of what the operator is asked, and what the client is told by one that does
/// it and by one that does not.
const COMMANDS: &[(RingCommand, &[u8], &str, &str)] = &[
    (
        RingCommand::Show(Rows::Present),
        b"s",
        RING_TABLE,
        "refused: refused Memory\n",
    ),
    (
        RingCommand::Show(Rows::All),
        b"s",
        WHOLE_TABLE,
        "refused: refused Memory\n",
    ),
    (
        RingCommand::Join(PLAIN_JOIN),
        b"j",
        "node 4 joined\n",
        "refused: refused NoSlot\n",
    ),
    (
        RingCommand::Join(WHOLE_JOIN),
        b"j",
        "node 4 joined\n",
        "refused: refused NoSlot\n",
    ),
    (
        RingCommand::Leave(9_999_999_999),
        b"l",
        "node 9999999999 begins to leave\n",
        "refused: refused NotStaying\n",
    ),
    (
        RingCommand::Crash(CRASH),
        b"c",
        "node 7 crashed\n",
        "refused: refused Unsafe\n",
    ),
    (
        RingCommand::Crash(FORCED_CRASH),
        b"c",
        "node 7 crashed\n",
        "refused: refused Unsafe\n",
    ),
    (
        RingCommand::Rescue(7),
        b"r",
        "node 7 is being rescued\n",
        "refused: refused NotCrashed\n",
    ),
    (
        RingCommand::Stop,
        b"t",
        "the server stops\n",
        "the server stops\n",
    ),
];

/// Whether the operator was asked for what the command says.
fn is_asked(command: &RingCommand, operator: &RingValue) -> bool {
    match command {
        RingCommand::Join(request) => operator.join == Some(*request),
        RingCommand::Leave(node) => operator.left == Some(*node),
        RingCommand::Crash(request) => operator.crash == Some(*request),
        RingCommand::Rescue(node) => operator.rescued == Some(*node),
        RingCommand::Show(_) | RingCommand::Stop => true,
    }
}

/// Whether the command asks this operator once for what it says, and the client is told this.
fn comes_through(
    rt: &HostRuntime,
    operator: RingValue,
    row: (&RingCommand, &[u8]),
    wanted: &str,
) -> Result<bool, Fail> {
    let (command, letter) = row;
    let served = serve(rt, operator, command)?;
    let is_asked = served.asked(letter) && is_asked(command, &served.operator);
    let is_told = says(rt.alloc(), command, &served.got, 100, wanted);
    drop(served);
    Ok(is_asked && is_told)
}

#[test]
fn commands_come_through(rt: HostRuntime) -> Result<(), Fail> {
    for (command, letter, done, refused) in COMMANDS {
        let row = (command, *letter);
        check!(&rt; comes_through(&rt, willing(rt.alloc()), row, done)?, done);
        check!(&rt; comes_through(&rt, unwilling(rt.alloc()), row, refused)?, refused);
    }
    Ok(())
}

/// The page that a client gets of the pairs of a willing operator.
fn page_in(alloc: Global, request: PairsRequest, got: &[u8]) -> Result<Page, RingFault> {
    let mut stream = MadeStream::new(alloc, got, 100);
    let answer = exchange_pairs(alloc, &mut stream, 7001, request);
    drop(stream);
    page_of(answer?)
}

/// Serves what is sent for a page.
fn serve_page(rt: &HostRuntime, request: PairsRequest) -> Result<Exchange, Fail> {
    let mut client = Client::new(Limits::default());
    let sent = pairs_bytes(rt.alloc(), &mut client, 7001, request)?;
    let served = serve_bytes(rt, willing(rt.alloc()), &sent);
    drop(sent);
    served
}

/// Whether the page is that of the operator.
fn is_page(page: Result<Page, RingFault>) -> bool {
    let is_page = match &page {
        Ok(page) => {
            page.lines.as_slice() == b"insert x:616263 x:78\ninsert x:- x:00ff\n".as_slice()
                && page.state == PageState::Held
                && page.next == Some(Id::new(255))
        }
        Err(_) => false,
    };
    drop(page);
    is_page
}

#[test]
fn a_page_comes_through(rt: HostRuntime) -> Result<(), Fail> {
    for after in [None, Some(Id { number: 7 }), Some(Id { number: 254 })] {
        let request = request_behind(after);
        let served = serve_page(&rt, request)?;
        let is_asked = served.operator.pairs == Some(request);
        let page = page_in(rt.alloc(), request, &served.got);
        drop(served);
        check!(&rt; is_asked);
        check!(&rt; is_page(page));
    }
    Ok(())
}
