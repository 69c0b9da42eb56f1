//! What is sent for each command.

use super::streams::MadeStream;
use crate::checks::check;
use chord_app_operator::{CrashRequest, JoinRequest, PairsRequest, Rows, StoreKind};
use chord_app_ring::{
    RingCommand, RingFault, exchange, pairs_path, request_body, request_bytes, request_path,
};
use chord_ident::Id;
use http1::{Client, Limits};
use std::alloc::{AllocError, Global};
use std::test::Fail;

/// The join of a tree that says nothing else.
pub const PLAIN_JOIN: JoinRequest = JoinRequest {
    id: None,
    store: StoreKind::Tree,
    limit: None,
    via: None,
};

/// The join that says all that it may.
pub const WHOLE_JOIN: JoinRequest = JoinRequest {
    id: Some(Id {
        number: 0xc000_0000_0000_0000_0000_0000_0000_00ab,
    }),
    store: StoreKind::Capped,
    limit: Some(10),
    via: Some(2),
};

/// The crash of node 7.
pub const CRASH: CrashRequest = CrashRequest {
    node: 7,
    is_forced: false,
};

/// The same, forced.
pub const FORCED_CRASH: CrashRequest = CrashRequest {
    node: 7,
    is_forced: true,
};

/// Each kind of command with what is sent to port 7001.
const SENT: [(RingCommand, &str); 9] = [
    (
        RingCommand::Show(Rows::Present),
        "GET /ring HTTP/1.1\r\nhost: 127.0.0.1:7001\r\naccept: text/plain\r\n\r\n",
    ),
    (
        RingCommand::Join(PLAIN_JOIN),
        "POST /nodes HTTP/1.1\r\nhost: 127.0.0.1:7001\r\naccept: text/plain\r\ncontent-length: 16\r\n\r\n{\"store\":\"tree\"}",
    ),
    (
        RingCommand::Join(WHOLE_JOIN),
        "POST /nodes HTTP/1.1\r\nhost: 127.0.0.1:7001\r\naccept: text/plain\r\ncontent-length: 77\r\n\r\n{\"id\":\"c00000000000000000000000000000ab\",\"limit\":10,\"store\":\"capped\",\"via\":2}",
    ),
    (
        RingCommand::Leave(12),
        "POST /nodes/12/leave HTTP/1.1\r\nhost: 127.0.0.1:7001\r\naccept: text/plain\r\ncontent-length: 0\r\n\r\n",
    ),
    (
        RingCommand::Crash(CRASH),
        "POST /nodes/7/crash HTTP/1.1\r\nhost: 127.0.0.1:7001\r\naccept: text/plain\r\ncontent-length: 0\r\n\r\n",
    ),
    (
        RingCommand::Crash(FORCED_CRASH),
        "POST /nodes/7/crash HTTP/1.1\r\nhost: 127.0.0.1:7001\r\naccept: text/plain\r\ncontent-length: 14\r\n\r\n{\"force\":true}",
    ),
    (
        RingCommand::Rescue(12),
        "POST /nodes/12/rescue HTTP/1.1\r\nhost: 127.0.0.1:7001\r\naccept: text/plain\r\ncontent-length: 0\r\n\r\n",
    ),
    (
        RingCommand::Stop,
        "POST /stop HTTP/1.1\r\nhost: 127.0.0.1:7001\r\naccept: text/plain\r\ncontent-length: 0\r\n\r\n",
    ),
    (
        RingCommand::Show(Rows::All),
        "GET /ring?all HTTP/1.1\r\nhost: 127.0.0.1:7001\r\naccept: text/plain\r\n\r\n",
    ),
];

/// What is sent for a command.
pub fn bytes_of(alloc: Global, command: &RingCommand) -> Result<Vec<u8>, AllocError> {
    let mut client = Client::new(Limits::default());
    request_bytes(alloc, &mut client, 7001, command)
}

#[test]
fn each_command_sends_its_request(rt: HostRuntime) -> Result<(), Fail> {
    for (command, text) in SENT {
        let sent = bytes_of(rt.alloc(), &command)?;
        let is_its = sent.as_slice() == text.as_bytes();
        drop(sent);
        check!(&rt; is_its, text);
    }
    Ok(())
}

#[test]
fn paths_and_bodies(rt: HostRuntime) -> Result<(), Fail> {
    let command = RingCommand::Crash(FORCED_CRASH);
    let path = request_path(rt.alloc(), &command)?;
    let is_path = path.as_str() == "/nodes/7/crash";
    drop(path);
    check!(&rt; is_path);
    let body = request_body(rt.alloc(), &command)?;
    let is_body = body.as_str() == "{\"force\":true}";
    drop(body);
    check!(&rt; is_body);
    check!(&rt; command.method() == "POST");
    Ok(())
}

/// Requests for a page of pairs, and the path of each.
const PAGES: [(PairsRequest, &str); 2] = [
    (
        PairsRequest {
            after: None,
            limit: 1000,
        },
        "/pairs?limit=1000",
    ),
    (
        PairsRequest {
            after: Some(Id { number: 0xab }),
            limit: 1,
        },
        "/pairs?after=000000000000000000000000000000ab&limit=1",
    ),
];

#[test]
fn paths_of_pages(rt: HostRuntime) -> Result<(), Fail> {
    for (request, wanted) in PAGES {
        let path = pairs_path(rt.alloc(), request)?;
        let is_its = path.as_str() == wanted;
        drop(path);
        check!(&rt; is_its, wanted);
    }
    Ok(())
}

/// Whether the command is lost over this stream.
fn is_lost(alloc: Global, stream: &mut MadeStream<'_>, command: &RingCommand) -> bool {
    let answer = exchange(alloc, stream, 7001, command);
    let is_lost = matches!(&answer, Err(RingFault::Lost));
    drop(answer);
    is_lost
}

/// The request goes out whole before the answer is read.
#[test]
fn a_request_goes_over_the_stream(rt: HostRuntime) {
    let mut stream = MadeStream::new(rt.alloc(), b"", 100);
    let is_lost = is_lost(rt.alloc(), &mut stream, &RingCommand::Leave(12));
    let is_sent = stream.sent.as_slice() == SENT[3].1.as_bytes();
    drop(stream);
    check!(&rt; is_lost);
    check!(&rt; is_sent);
}

#[test]
fn a_stream_that_takes_nothing_is_lost(rt: HostRuntime) {
    let mut deaf = MadeStream::deaf(rt.alloc());
    let is_lost = is_lost(rt.alloc(), &mut deaf, &RingCommand::Show(Rows::Present));
    drop(deaf);
    check!(&rt; is_lost);
}
