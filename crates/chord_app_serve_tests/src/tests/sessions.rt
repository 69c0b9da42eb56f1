//! Sessions of clients that lose their connections, over loopback.

use crate::checks::check;
use crate::tests::servers::{Clients, served};
use chord_app_serve_testkit::{Act, Acts, Answer, Ask, GOOD};
use chord_wire::FaultCode;
use log::sink::Discard;

/// A client inserts a value and loses its connection. Over the next one it sends the insert again,
/// which is answered as before, and goes on. It closes its session over a third one, and then the
/// token is not known any more.
const RESUMED: Acts = &[
    (0, Act::Begin(1)),
    (0, Act::CallIn(1, 0, Ask::Insert(b"x"), Answer::Added)),
    (0, Act::Leave),
    (1, Act::Resume(1, 0, 1)),
    (1, Act::CallIn(1, 0, Ask::Insert(b"x"), Answer::Added)),
    (1, Act::CallIn(2, 1, Ask::Insert(b"x"), Answer::Present)),
    (
        1,
        Act::CallIn(1, 0, Ask::Insert(b"x"), Answer::Fault(FaultCode::BadNumber)),
    ),
    (1, Act::Leave),
    (2, Act::Resume(1, 1, 2)),
    (2, Act::CallIn(3, 2, Ask::Retrieve, Answer::Values(&[b"x"]))),
    (2, Act::Close),
    (2, Act::Closed),
    (2, Act::End),
    (3, Act::Refused(1, true, FaultCode::NoSession)),
];

#[test]
fn a_session_outlives_its_connections(rt: HostRuntime) {
    let wanted =
        "connection 0 ended\nconnection 1 ended\nconnection 2 ended\nconnection 3 malformed 14\n";
    let clients = Clients::Acting(RESUMED);
    let found = served(&rt, rt.alloc(), (4, 4), &Discard, clients, wanted);
    check!(&rt; found == Some(GOOD));
}

/// A client resumes its session before the server noticed that the older connection was lost. The
/// server ends the older one. Another client can't begin a session of the same token, but one whose
/// token has another last byte.
const OLDER_ENDS: Acts = &[
    (0, Act::Begin(1)),
    (0, Act::CallIn(1, 0, Ask::Insert(b"x"), Answer::Added)),
    (1, Act::Resume(1, 0, 1)),
    (0, Act::End),
    (1, Act::CallIn(2, 1, Ask::Remove(b"x"), Answer::Removed)),
    (2, Act::Refused(1, false, FaultCode::SessionKnown)),
    (3, Act::Begin(2)),
    (3, Act::CallIn(1, 0, Ask::Remove(b"x"), Answer::Absent)),
    (3, Act::Leave),
    (1, Act::Leave),
    (4, Act::Refused(1, false, FaultCode::SessionKnown)),
];

#[test]
fn an_older_connection_of_a_session_ends(rt: HostRuntime) {
    let wanted =
        "connection 0 ended\nconnection 1 ended\nconnection 2 malformed 13\nconnection 3 ended\nconnection 4 malformed 13\n";
    let clients = Clients::Acting(OLDER_ENDS);
    let found = served(&rt, rt.alloc(), (5, 5), &Discard, clients, wanted);
    check!(&rt; found == Some(GOOD));
}

/// Without a session no connection may send a close, nor an open behind its first request; and the
/// requests of a session are of version 2.
const OUT_OF_PLACE: Acts = &[
    (0, Act::Connect),
    (0, Act::Close),
    (0, Act::Hear(0, Answer::Fault(FaultCode::OutOfPlace))),
    (0, Act::End),
    (1, Act::Connect),
    (1, Act::CallIn(1, 0, Ask::Insert(b"x"), Answer::Added)),
    (1, Act::Open(1, false)),
    (1, Act::Hear(0, Answer::Fault(FaultCode::OutOfPlace))),
    (1, Act::End),
    (2, Act::Begin(1)),
    (2, Act::Ask(1, Ask::Retrieve)),
    (2, Act::Hear(0, Answer::Fault(FaultCode::BadVersion))),
    (2, Act::End),
];

#[test]
fn frames_of_sessions_have_their_places(rt: HostRuntime) {
    let wanted = "connection 0 malformed 16\nconnection 1 malformed 16\nconnection 2 malformed 2\n";
    let clients = Clients::Acting(OUT_OF_PLACE);
    let found = served(&rt, rt.alloc(), (3, 3), &Discard, clients, wanted);
    check!(&rt; found == Some(GOOD));
}

/// An Open that begins the session of token 1, and behind it the session's request 1, which inserts
/// `x` under `abc`.
const OPEN_AND_INSERT: &[u8] =
    b"\x00\x00\x00\x23\x02\x04\x00\x00\x00\x00\x00\x00\x00\x00\x00\x00\x00\x00\x00\x00\x00\x00\x01\x02\x03\x04\x05\x06\x07\x08\x09\x0a\x0b\x0c\x0d\x0e\x0f\x01\x00\x00\x00\x00\x19\x02\x01\x00\x00\x00\x00\x00\x00\x00\x01\x00\x00\x00\x00\x00\x00\x00\x00\x03abc\x00\x01x";

/// Opened, with floor 0 and last number 0, and that request 1 added the value.
const OPENED_AND_ADDED: &[u8] =
    b"\x00\x00\x00\x1a\x01\x84\x00\x00\x00\x00\x00\x00\x00\x00\x00\x00\x00\x00\x00\x00\x00\x00\x00\x00\x00\x00\x00\x00\x00\x00\x00\x00\x00\x0b\x01\x81\x00\x00\x00\x00\x00\x00\x00\x01\x01";

/// An Open that resumes the session, and behind it request 1 again, and request 2 with floor 1,
/// which retrieves the set of `abc`.
const RESUME_AND_RETRIEVE: &[u8] =
    b"\x00\x00\x00\x23\x02\x04\x00\x00\x00\x00\x00\x00\x00\x00\x00\x00\x00\x00\x00\x00\x00\x00\x01\x02\x03\x04\x05\x06\x07\x08\x09\x0a\x0b\x0c\x0d\x0e\x0f\x01\x01\x00\x00\x00\x19\x02\x01\x00\x00\x00\x00\x00\x00\x00\x01\x00\x00\x00\x00\x00\x00\x00\x00\x03abc\x00\x01x\x00\x00\x00\x16\x02\x02\x00\x00\x00\x00\x00\x00\x00\x02\x00\x00\x00\x00\x00\x00\x00\x01\x03abc";

/// Opened, with floor 0 and last number 1, the answer to request 1 once more, and the value.
const OPENED_AND_VALUE: &[u8] =
    b"\x00\x00\x00\x1a\x01\x84\x00\x00\x00\x00\x00\x00\x00\x00\x00\x00\x00\x00\x00\x00\x00\x00\x00\x00\x00\x00\x00\x00\x00\x01\x00\x00\x00\x0b\x01\x81\x00\x00\x00\x00\x00\x00\x00\x01\x01\x00\x00\x00\x11\x01\x82\x00\x00\x00\x00\x00\x00\x00\x02\x00\x00\x00\x01\x00\x01x";

/// A client sends its requests behind the Open in one write, as the session begins and as it is
/// resumed, and closes its sending side before it reads.
const BEHIND_AN_OPEN: Acts = &[
    (0, Act::Connect),
    (0, Act::Say(OPEN_AND_INSERT)),
    (0, Act::Hush),
    (0, Act::HearBytes(OPENED_AND_ADDED)),
    (0, Act::End),
    (1, Act::Connect),
    (1, Act::Say(RESUME_AND_RETRIEVE)),
    (1, Act::Hush),
    (1, Act::HearBytes(OPENED_AND_VALUE)),
    (1, Act::End),
];

/// What comes behind an Open is answered behind the frame that says that the session is open.
#[test]
fn requests_behind_an_open_are_answered(rt: HostRuntime) {
    let wanted = "connection 0 ended\nconnection 1 ended\n";
    let clients = Clients::Acting(BEHIND_AN_OPEN);
    let found = served(&rt, rt.alloc(), (2, 2), &Discard, clients, wanted);
    check!(&rt; found == Some(GOOD));
}
