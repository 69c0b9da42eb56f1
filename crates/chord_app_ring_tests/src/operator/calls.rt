//! Calls that act.

use super::devices::{CONFLICT, NOT_FOUND, ask, serve_text};
use super::operators::RingValue;
use crate::checks::check;
use chord_app_operator::{
    CrashRefusal, CrashRequest, JoinRefusal, JoinRequest, LeaveRefusal, RescueRefusal, StoreKind,
};
use chord_ident::Id;
use std::test::Fail;

const NO_MEMORY: &str = "507 Insufficient Storage";

/// The join that a body without members asks for.
const PLAIN_JOIN: JoinRequest = JoinRequest {
    id: None,
    store: StoreKind::Tree,
    limit: None,
    via: None,
};

#[test]
fn a_join_has_what_its_body_says(rt: HostRuntime) -> Result<(), Fail> {
    let body =
        "{\"id\": \"000000000000000000000000000000fF\", \"store\": \"capped\", \"limit\": 10, \"via\": 2}";
    let seen = ask(&rt, RingValue::new(rt.alloc()), "POST /nodes", body)?;
    check!(&rt;
        seen.got_text(
            "HTTP/1.1 201 Created\r\ncontent-type: application/json\r\ncache-control: no-store\r\ncontent-length: 10\r\n\r\n{\"node\":4}"
        )
    );
    check!(&rt; seen.asked(b"j"), "it joins once");
    let asked = JoinRequest {
        id: Some(Id::new(255)),
        store: StoreKind::Capped,
        limit: Some(10),
        via: Some(2),
    };
    check!(&rt; seen.operator.join == Some(asked));
    drop(seen);
    Ok(())
}

#[test]
fn a_join_may_say_nothing(rt: HostRuntime) -> Result<(), Fail> {
    for body in ["", "{}", " { } "] {
        let seen = ask(&rt, RingValue::new(rt.alloc()), "POST /nodes", body)?;
        let join = seen.operator.join;
        drop(seen);
        check!(&rt; join == Some(PLAIN_JOIN), body);
    }
    Ok(())
}

/// Why a join is refused, and the status and the name of the answer.
const JOIN_REFUSALS: &[(JoinRefusal, &str, &str)] = &[
    (JoinRefusal::IdTaken, CONFLICT, "IdTaken"),
    (JoinRefusal::NoSlot, CONFLICT, "NoSlot"),
    (JoinRefusal::NoStore, CONFLICT, "NoStore"),
    (JoinRefusal::Unsettled, CONFLICT, "Unsettled"),
    (JoinRefusal::NoSuchNode, CONFLICT, "NoSuchNode"),
    (JoinRefusal::Stopped, CONFLICT, "Stopped"),
    (JoinRefusal::Memory, NO_MEMORY, "Memory"),
];

#[test]
fn a_join_is_refused_by_its_name(rt: HostRuntime) -> Result<(), Fail> {
    for (refusal, status, name) in JOIN_REFUSALS {
        let mut operator = RingValue::new(rt.alloc());
        operator.joined = Err(*refusal);
        let seen = ask(&rt, operator, "POST /nodes", "")?;
        let is_refused = seen.is_refused(rt.alloc(), status, name);
        let asks_once = seen.asked(b"j");
        drop(seen);
        check!(&rt; is_refused? && asks_once, name);
    }
    Ok(())
}

#[test]
fn a_node_leaves(rt: HostRuntime) -> Result<(), Fail> {
    let seen = ask(&rt, RingValue::new(rt.alloc()), "POST /nodes/12/leave", "")?;
    check!(&rt; seen.begins("HTTP/1.1 202 Accepted\r\n"));
    check!(&rt; seen.ends("\r\n\r\n{\"node\":12}"));
    check!(&rt; seen.operator.left == Some(12));
    check!(&rt; seen.asked(b"l"));
    drop(seen);
    Ok(())
}

/// The same of a leave.
const LEAVE_REFUSALS: &[(LeaveRefusal, &str, &str)] = &[
    (LeaveRefusal::NotStaying, CONFLICT, "NotStaying"),
    (LeaveRefusal::NoSuchNode, NOT_FOUND, "NoSuchNode"),
];

#[test]
fn a_leave_is_refused_by_its_name(rt: HostRuntime) -> Result<(), Fail> {
    for (refusal, status, name) in LEAVE_REFUSALS {
        let mut operator = RingValue::new(rt.alloc());
        operator.leaves = Err(*refusal);
        let seen = ask(&rt, operator, "POST /nodes/12/leave", "")?;
        let is_refused = seen.is_refused(rt.alloc(), status, name);
        drop(seen);
        check!(&rt; is_refused?, name);
    }
    Ok(())
}

/// Bodies of a crash, and whether it is forced.
const CRASHES: &[(&str, bool)] = &[
    ("", false),
    ("{\"force\":false}", false),
    ("{\"force\":true}", true),
];

#[test]
fn a_node_crashes_forced_or_not(rt: HostRuntime) -> Result<(), Fail> {
    for (body, is_forced) in CRASHES {
        let seen = ask(&rt, RingValue::new(rt.alloc()), "POST /nodes/3/crash", body)?;
        let asked = CrashRequest {
            node: 3,
            is_forced: *is_forced,
        };
        let is_as_said = seen.operator.crash == Some(asked)
            && seen.asked(b"c")
            && seen.begins("HTTP/1.1 200 OK\r\n")
            && seen.ends("{\"node\":3}");
        drop(seen);
        check!(&rt; is_as_said, body);
    }
    Ok(())
}

/// The same of a crash.
const CRASH_REFUSALS: &[(CrashRefusal, &str, &str)] = &[
    (CrashRefusal::Unsafe, CONFLICT, "Unsafe"),
    (CrashRefusal::NotLive, CONFLICT, "NotLive"),
    (CrashRefusal::NoSuchNode, NOT_FOUND, "NoSuchNode"),
];

#[test]
fn a_crash_is_refused_by_its_name(rt: HostRuntime) -> Result<(), Fail> {
    for (refusal, status, name) in CRASH_REFUSALS {
        let mut operator = RingValue::new(rt.alloc());
        operator.crashes = Err(*refusal);
        let seen = ask(&rt, operator, "POST /nodes/3/crash", "")?;
        let is_refused = seen.is_refused(rt.alloc(), status, name);
        drop(seen);
        check!(&rt; is_refused?, name);
    }
    Ok(())
}

#[test]
fn a_node_is_rescued(rt: HostRuntime) -> Result<(), Fail> {
    let seen = ask(&rt, RingValue::new(rt.alloc()), "POST /nodes/12/rescue", "")?;
    check!(&rt; seen.begins("HTTP/1.1 202 Accepted\r\n"));
    check!(&rt; seen.ends("\r\n\r\n{\"node\":12}"));
    check!(&rt; seen.operator.rescued == Some(12));
    check!(&rt; seen.asked(b"r"));
    drop(seen);
    Ok(())
}

/// The same of a rescue.
const RESCUE_REFUSALS: &[(RescueRefusal, &str, &str)] = &[
    (RescueRefusal::NotCrashed, CONFLICT, "NotCrashed"),
    (RescueRefusal::NoMember, CONFLICT, "NoMember"),
    (RescueRefusal::Stopped, CONFLICT, "Stopped"),
    (RescueRefusal::NoSuchNode, NOT_FOUND, "NoSuchNode"),
];

#[test]
fn a_rescue_is_refused_by_its_name(rt: HostRuntime) -> Result<(), Fail> {
    for (refusal, status, name) in RESCUE_REFUSALS {
        let mut operator = RingValue::new(rt.alloc());
        operator.rescues = Err(*refusal);
        let seen = ask(&rt, operator, "POST /nodes/12/rescue", "")?;
        let is_refused = seen.is_refused(rt.alloc(), status, name);
        drop(seen);
        check!(&rt; is_refused?, name);
    }
    Ok(())
}

#[test]
fn a_server_stops(rt: HostRuntime) -> Result<(), Fail> {
    let seen = ask(&rt, RingValue::new(rt.alloc()), "POST /stop", "")?;
    check!(&rt;
        seen.got_text(
            "HTTP/1.1 202 Accepted\r\ncontent-type: text/plain; charset=utf-8\r\ncache-control: no-store\r\ncontent-length: 17\r\n\r\nthe server stops\n"
        )
    );
    check!(&rt; seen.asked(b"t"));
    drop(seen);
    Ok(())
}

/// Three requests, one behind the other.
const THREE_REQUESTS: &str = concat!(
    "GET /health HTTP/1.1\r\nHost: 127.0.0.1:7001\r\nContent-Length: 0\r\n\r\n",
    "POST /nodes HTTP/1.1\r\nHost: 127.0.0.1:7001\r\nContent-Length: 2\r\n\r\n{}",
    "POST /stop HTTP/1.1\r\nHost: 127.0.0.1:7001\r\nContent-Length: 0\r\n\r\n",
);

#[test]
fn requests_of_one_connection_are_asked_in_order(rt: HostRuntime) -> Result<(), Fail> {
    let seen = serve_text(&rt, RingValue::new(rt.alloc()), THREE_REQUESTS)?;
    let are_asked = seen.asked(b"hjt");
    drop(seen);
    check!(&rt; are_asked);
    Ok(())
}

#[test]
fn a_look_without_memory_is_refused(rt: HostRuntime) -> Result<(), Fail> {
    for line in ["GET /ring", "GET /metrics"] {
        let mut operator = RingValue::new(rt.alloc());
        operator.has_memory = false;
        let seen = ask(&rt, operator, line, "")?;
        let is_refused = seen.is_refused(rt.alloc(), NO_MEMORY, "Memory");
        drop(seen);
        check!(&rt; is_refused?, line);
    }
    Ok(())
}
