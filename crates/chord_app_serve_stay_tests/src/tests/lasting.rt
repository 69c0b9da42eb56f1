//! Sessions of a server that stays: each has a caller of its own while it is kept.

use crate::tests::resumes::keeping;
use chord_app_serve_testkit::{Act, Acts, Answer, Ask, GOOD, NOTHING, SMALL, Script, follow};
use chord_wire::FaultCode;
use std::io;
use std::test::Fail;

/// A session without a connection keeps the one caller, so that another client finds none. The
/// session is resumed all the same; once it is closed, its caller serves the next client.
const HAS_A_CALLER: Script = Script {
    first: &[
        (0, Act::Begin(1)),
        (0, Act::CallIn(1, 0, Ask::Insert(b"x"), Answer::Added)),
        (0, Act::Leave),
        (1, Act::Connect),
        (1, Act::Hear(0, Answer::Fault(FaultCode::CallersSpent))),
        (1, Act::End),
        (2, Act::Resume(1, 0, 1)),
        (2, Act::CallIn(1, 0, Ask::Insert(b"x"), Answer::Added)),
        (2, Act::CallIn(2, 1, Ask::Insert(b"x"), Answer::Present)),
        (2, Act::Close),
        (2, Act::Closed),
        (2, Act::End),
        (3, Act::Connect),
        (3, Act::Call(1, Ask::Remove(b"x"), Answer::Removed)),
        (3, Act::Leave),
    ],
    ..NOTHING
};

#[test]
fn a_kept_session_has_a_caller(rt: HostRuntime) -> Result<(), Fail> {
    let wanted =
        "connection 0 ended\nconnection 1 callersspent\nconnection 2 ended\nconnection 3 ended\n";
    let server = (SMALL, keeping(600));
    let found = follow(
        &rt,
        rt.alloc(),
        server,
        HAS_A_CALLER,
        io::pipe(&rt)?,
        wanted,
    );
    assert!(rt; found == Some(GOOD), "{found:?}");
    Ok(())
}

/// A session ends with its connection where none is kept.
const NOT_KEPT: Script = Script {
    first: &[
        (0, Act::Begin(1)),
        (0, Act::CallIn(1, 0, Ask::Insert(b"x"), Answer::Added)),
        (0, Act::Leave),
        (1, Act::Refused(1, true, FaultCode::NoSession)),
        (2, Act::Connect),
        (2, Act::Call(1, Ask::Insert(b"x"), Answer::Present)),
        (2, Act::Leave),
    ],
    ..NOTHING
};

#[test]
fn no_session_is_kept_for_0_seconds(rt: HostRuntime) -> Result<(), Fail> {
    let wanted = "connection 0 ended\nconnection 1 malformed 14\nconnection 2 ended\n";
    let server = (SMALL, keeping(0));
    let found = follow(&rt, rt.alloc(), server, NOT_KEPT, io::pipe(&rt)?, wanted);
    assert!(rt; found == Some(GOOD), "{found:?}");
    Ok(())
}

/// A session that inserts a value and loses its connection.
const ONE_SESSION: Acts = &[
    (0, Act::Begin(1)),
    (0, Act::CallIn(1, 0, Ask::Insert(b"x"), Answer::Added)),
    (0, Act::Leave),
];

/// A session is kept for longer than a second while nobody needs its caller. Then it is dropped for
/// a client that does.
const NEEDED: Script = Script {
    first: ONE_SESSION,
    pause: 1_500,
    then: &[
        (1, Act::Connect),
        (1, Act::Call(1, Ask::Insert(b"x"), Answer::Present)),
        (1, Act::Leave),
        (2, Act::Refused(1, true, FaultCode::NoSession)),
    ],
    ..NOTHING
};

#[test]
fn an_old_session_is_dropped_for_its_caller(rt: HostRuntime) -> Result<(), Fail> {
    let wanted = "connection 0 ended\nconnection 1 ended\nconnection 2 malformed 14\n";
    let server = (SMALL, keeping(1));
    let found = follow(&rt, rt.alloc(), server, NEEDED, io::pipe(&rt)?, wanted);
    assert!(rt; found == Some(GOOD), "{found:?}");
    Ok(())
}

/// A session that nobody else needs the caller of is resumed after its time.
const NOT_NEEDED: Script = Script {
    first: ONE_SESSION,
    pause: 1_500,
    then: &[
        (1, Act::Resume(1, 0, 1)),
        (1, Act::CallIn(1, 0, Ask::Insert(b"x"), Answer::Added)),
        (1, Act::Leave),
    ],
    ..NOTHING
};

#[test]
fn an_old_session_is_kept_while_nobody_needs_its_caller(rt: HostRuntime) -> Result<(), Fail> {
    let wanted = "connection 0 ended\nconnection 1 ended\n";
    let server = (SMALL, keeping(1));
    let found = follow(&rt, rt.alloc(), server, NOT_NEEDED, io::pipe(&rt)?, wanted);
    assert!(rt; found == Some(GOOD), "{found:?}");
    Ok(())
}

/// A session that begins once the server has run for longer than it keeps one. It is kept from the
/// loss of its connection on, so another client finds no caller then.
const YOUNG: Script = Script {
    pause: 3_500,
    then: &[
        (0, Act::Begin(1)),
        (0, Act::CallIn(1, 0, Ask::Insert(b"x"), Answer::Added)),
        (0, Act::Leave),
        (1, Act::Connect),
        (1, Act::Ask(1, Ask::Insert(b"x"))),
        (1, Act::Hear(0, Answer::Fault(FaultCode::CallersSpent))),
        (1, Act::End),
    ],
    ..NOTHING
};

#[test]
fn a_session_is_kept_from_the_loss_of_its_connection(rt: HostRuntime) -> Result<(), Fail> {
    let wanted = "connection 0 ended\nconnection 1 callersspent\n";
    let server = (SMALL, keeping(3));
    let found = follow(&rt, rt.alloc(), server, YOUNG, io::pipe(&rt)?, wanted);
    assert!(rt; found == Some(GOOD), "{found:?}");
    Ok(())
}
