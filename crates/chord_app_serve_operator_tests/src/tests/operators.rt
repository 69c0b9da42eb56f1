//! The operator of `serve --stay` over loopback.

use crate::tests::calls::{STOPS, each_is_answered};
use chord_app_serve_testkit::{
    Act, Acts, Addresses, Answer, Ask, Found, GOOD, Handle, SMALL, Size, Speech, WAITS, do_acts_at,
    look_at, stay_beside,
};
use chord_app_sockets::ClientLimits;
use log::sink::Discard;
use std::alloc::Global;
use std::hash::RandomState;
use std::io::{self, PipeReader, PipeWriter};
use std::net::{Net, TcpListener, TcpStream};
use std::test::Fail;
use std::time::Clock;

/// What is asked of a ring of two nodes that stay.
const BEFORE: &str = r#"
GET /health > 200 OK | \r\n\r\nok
GET /ready > 200 OK | \r\n\r\nok\n
GET / > 200 OK | content-type: text/html
GET /ring > 200 OK | "slots":2,"successors":3,
GET /ring > 200 OK | "callers":{"all":2,"open":0,"pending":0}
GET /ring > 200 OK | "node":1,"outbox":[],"pairs":0
GET /ring > 200 OK | !"uptime_ms":0}
GET /metrics > 200 OK | chord_nodes{phase="staying"} 2\n
GET /holder/abc > 200 OK | {"id":"a9993e364706816aba3e25717850c26c","node":1}
POST /nodes > 409 Conflict | {"refused":"NoSlot"}
POST /nodes/2/leave > 404 Not Found | {"refused":"NoSuchNode"}
POST /nodes/2/crash > 404 Not Found | {"refused":"NoSuchNode"}
POST /nodes/1/crash | Origin: http://example.org > 403 Forbidden | {"refused":"ForeignOrigin"}
POST /nodes/1/crash | {"force":1} > 400 Bad Request | {"refused":"BadForce"}
GET /pairs?limit=0 > 400 Bad Request | {"refused":"BadLimit"}
POST /pairs > 405 Method Not Allowed | allow: GET, HEAD
PUT /ring > 405 Method Not Allowed | allow: GET, HEAD
GET /rings > 404 Not Found | {"refused":"NoSuchPath"}
"#;

/// The pair of `abc`, and that reading goes on behind its identifier.
const READ: &str = r#"
GET /pairs?after=a9993e364706816aba3e25717850c26b&limit=1 > 200 OK | \r\n\r\ninsert x:616263 x:78\n
GET /pairs?after=a9993e364706816aba3e25717850c26b&limit=1 > 200 OK | chord-page: held\r\n
GET /pairs?after=a9993e364706816aba3e25717850c26b&limit=1 > 200 OK | \r\nchord-next: a9993e364706816aba3e25717850c26c\r\n
GET /pairs?after=a9993e364706816aba3e25717850c26c > 200 OK | \r\n\r\n
"#;

/// Two clients are connected. Node 1 leaves, and its key comes to node 0.
const LEAVE: &str = r#"
GET /ring > 200 OK | "callers":{"all":2,"open":2,"pending":0},"connections":2,
GET /ready > 503 Service Unavailable | \r\n\r\nno caller is free\n
GET /health > 200 OK | \r\n\r\nok\n
POST /nodes/1/leave > 202 Accepted | {"node":1}
GET /ring?all > 200 OK | "phase":"gone"
GET /ring > 200 OK | ],"nodes_gone":1,"premise":true,
POST /nodes/1/leave > 409 Conflict | {"refused":"NotStaying"}
POST /nodes/1/crash > 409 Conflict | {"refused":"NotLive"}
GET /holder/abc > 200 OK | {"id":"a9993e364706816aba3e25717850c26c","node":0}
"#;

/// The last node leaves, and there is none to which it could give what it holds. It crashes, though
/// the ring does not stand without it.
const CRASH: &str = r#"
POST /nodes/0/leave > 202 Accepted | {"node":0}
GET /health > 503 Service Unavailable | \r\n\r\nno node is staying\n
POST /nodes/0/crash > 409 Conflict | {"refused":"Unsafe"}
POST /nodes/0/crash | {"force":true} > 200 OK | {"node":0}
GET /ring > 200 OK | "phase":"crashed"
GET /ring > 200 OK | ,"premise":false,
GET /metrics > 200 OK | \nchord_ring_premise 0\n
GET /pairs?after=a9993e364706816aba3e25717850c26b > 200 OK | chord-page: lost\r\n
GET /pairs?after=a9993e364706816aba3e25717850c26b > 200 OK | content-length: 0\r\n
GET /ring | Accept: text/plain > 200 OK |   crashed  
GET /health > 503 Service Unavailable | \r\n\r\nno node is staying\n
POST /stop > 202 Accepted
"#;

/// Two clients, one after another, by way of node 0 and, while it stays, node 1.
const CLIENTS: Acts = &[
    (0, Act::Connect),
    (0, Act::Call(1, Ask::Insert(b"x"), Answer::Added)),
    (1, Act::Connect),
    (1, Act::Call(1, Ask::Insert(b"x"), Answer::Present)),
];

/// The second client goes on after node 1 has gone.
const LATER: Acts = &[
    (1, Act::Call(2, Ask::Retrieve, Answer::Values(&[b"x"]))),
    (1, Act::Leave),
    (0, Act::Leave),
];

/// What an operator or clients do next.
#[derive(Clone, Copy)]
enum Step {
    /// Each of these calls is answered as is due, at once or after some time.
    Operator(&'static str),
    Clients(Acts),
}

/// An operator and clients do these steps, one after another.
fn operate<R: Net + Clock>(rt: &R, alloc: Global, at: Addresses, steps: &[Step]) -> io::Result<()> {
    let mut streams = Vec::new(alloc);
    for step in steps {
        match step {
            Step::Operator(calls) => each_is_answered(rt, alloc, at.operator, calls)?,
            Step::Clients(acts) => do_acts_at(rt, alloc, at, &mut streams, acts)?,
        }
    }
    Ok(())
}

/// What is found at a server of this size and with these limits, with an operator's port, once
/// these steps are done. It is to write these lines.
fn operated<R: Handle + Net<Listener = TcpListener, Stream = TcpStream>>(
    rt: &R,
    alloc: Global,
    (size, limits, keys): (Size, ClientLimits, RandomState),
    steps: &'static [Step],
    pipe: (PipeReader, PipeWriter),
    lines: &str,
) -> Option<Found> {
    let operator = Some(keys);
    let server = (Size { operator, ..size }, limits);
    let played = stay_beside(rt, alloc, server, &Discard, pipe, |at| {
        operate(rt, alloc, at, steps)
    });
    look_at(alloc, played, lines)
}

/// A server of two callers.
const TWO_CALLERS: Size = Size {
    callers: 2,
    ..SMALL
};

/// Node 1 leaves, then node 0 crashes, and the operator stops the server.
const TO_THE_STOP: &[Step] = &[
    Step::Operator(BEFORE),
    Step::Clients(CLIENTS),
    Step::Operator(READ),
    Step::Operator(LEAVE),
    Step::Operator(READ),
    Step::Clients(LATER),
    Step::Operator(CRASH),
];

/// Each call is answered, a node leaves and one crashes, and a stop ends the server.
#[test]
fn an_operator_of_a_ring(rt: HostRuntime) -> Result<(), Fail> {
    let server = (TWO_CALLERS, WAITS, RandomState::new(&rt)?);
    let lines = "connection 1 ended\nconnection 0 ended\n";
    let pipe = io::pipe(&rt)?;
    let found = operated(&rt, rt.alloc(), server, TO_THE_STOP, pipe, lines);
    assert!(rt; found == Some(GOOD), "{found:?}");
    Ok(())
}

/// Node 1 holds `abc`, and node 0 holds `b`.
const HOLDERS: &str = r#"
GET /holder/abc > 200 OK | "node":1}
GET /holder/b > 200 OK | "node":0}
"#;

/// A client retrieves `b` by its request 1, and is told that it has no values.
const RETRIEVE_B: Act = Act::Exchange(
    b"\x00\x00\x00\x0c\x01\x02\x00\x00\x00\x00\x00\x00\x00\x01\x01b",
    b"\x00\x00\x00\x0e\x01\x82\x00\x00\x00\x00\x00\x00\x00\x01\x00\x00\x00\x00",
);

/// Of three clients the first and the last ask for the key of node 0, and the second for the key
/// of node 1. Each has a caller of its own, which has asked nothing before.
const THREE_CLIENTS: Acts = &[
    (0, Act::Connect),
    (0, RETRIEVE_B),
    (1, Act::Connect),
    (1, Act::Call(1, Ask::Retrieve, Answer::Values(&[]))),
    (2, Act::Connect),
    (2, RETRIEVE_B),
];

const THREE_LEAVE: Acts = &[(0, Act::Leave), (1, Act::Leave), (2, Act::Leave)];

/// Both nodes told the replies, and neither passed a request on. A request of 16 bytes came twice
/// and one of 18, and each answer has 18.
const NONE_PASSED_ON: &str = r#"
GET /metrics > 200 OK | chord_asks_total{node="0",answer="told"} 2\n
GET /metrics > 200 OK | chord_asks_total{node="1",answer="told"} 1\n
GET /metrics > 200 OK | chord_asks_total{node="0",answer="forwarded"} 0\n
GET /metrics > 200 OK | chord_asks_total{node="1",answer="forwarded"} 0\n
GET /metrics > 200 OK | chord_forwards_total 0\n
GET /metrics > 200 OK | chord_bytes_total{direction="read"} 50\n
GET /metrics > 200 OK | chord_bytes_total{direction="written"} 54\n
"#;

const AT_THEIR_NODES: &[Step] = &[
    Step::Operator(HOLDERS),
    Step::Clients(THREE_CLIENTS),
    Step::Operator(NONE_PASSED_ON),
    Step::Clients(THREE_LEAVE),
];

/// Connections 0 and 2 ask at node 0, and connection 1 asks at node 1.
#[test]
fn a_connection_asks_at_the_node_of_its_number(rt: HostRuntime) -> Result<(), Fail> {
    let size = Size {
        callers: 3,
        ..SMALL
    };
    let server = (size, WAITS, RandomState::new(&rt)?);
    let lines = "connection 0 ended\nconnection 1 ended\nconnection 2 ended\n";
    let pipe = io::pipe(&rt)?;
    let found = operated(&rt, rt.alloc(), server, AT_THEIR_NODES, pipe, lines);
    assert!(rt; found == Some(GOOD), "{found:?}");
    Ok(())
}

const NODE_1_CRASHES: &str = r#"
POST /nodes/1/crash | {"force":true} > 200 OK | {"node":1}
"#;

/// A client asks for `abc` by its request 2.
const RETRIEVE_ABC: &[u8] = b"\x00\x00\x00\x0e\x01\x02\x00\x00\x00\x00\x00\x00\x00\x02\x03abc";

/// Fault 11 for request 2.
const FAULT_11: &[u8] = b"\x00\x00\x00\x0b\x01\xff\x00\x00\x00\x00\x00\x00\x00\x02\x0b";

/// A client asks for `abc` by its request 2, and is told fault 11.
const NO_ANSWER: Act = Act::Exchange(RETRIEVE_ABC, FAULT_11);

/// Two requests got a reply, and two were told that there is no answer.
const TWO_REPLIES: &str = r#"
GET /metrics > 200 OK | chord_answers_total{protocol="frames",answer="reply"} 2\n
GET /metrics > 200 OK | chord_answers_total{protocol="frames",answer="full"} 0\n
GET /metrics > 200 OK | chord_answers_total{protocol="frames",answer="no_answer"} 2\n
GET /metrics > 200 OK | chord_answers_total{protocol="frames",answer="memory"} 0\n
GET /metrics > 200 OK | chord_answers_total{protocol="frames",answer="refused"} 0\n
GET /metrics > 200 OK | \nchord_request_seconds_bucket{le="10000000e-6"} 4\n
GET /metrics > 200 OK | chord_request_seconds_bucket{le="+Inf"} 4\n
GET /metrics > 200 OK | \nchord_request_seconds_count 4\n
GET /metrics > 200 OK | \nchord_callers_pending 0\n
"#;

/// Node 1 is rescued: node 0 holds `abc` then, and node 1 is gone.
const NODE_1_IS_RESCUED: &str = r#"
POST /nodes/0/rescue > 409 Conflict | {"refused":"NotCrashed"}
POST /nodes/2/rescue > 404 Not Found | {"refused":"NoSuchNode"}
POST /nodes/1/rescue > 202 Accepted | {"node":1}
GET /holder/abc > 200 OK | "node":0}
GET /metrics > 200 OK | \nchord_nodes_gone_total 1\n
POST /nodes/1/rescue > 409 Conflict | {"refused":"NotCrashed"}
"#;

/// The node that holds `abc` crashes. Each request for that key gets fault 11, and another client
/// is answered, which asks for the key of the other node. Behind a rescue the same request is
/// answered with what was inserted before.
const BEHIND_A_CRASH: &[Step] = &[
    Step::Operator(HOLDERS),
    Step::Clients(&[
        (0, Act::Connect),
        (0, Act::Call(1, Ask::Insert(b"x"), Answer::Added)),
    ]),
    Step::Operator(NODE_1_CRASHES),
    Step::Clients(&[
        (0, NO_ANSWER),
        (0, NO_ANSWER),
        (1, Act::Connect),
        (1, RETRIEVE_B),
        (1, Act::Leave),
    ]),
    Step::Operator(TWO_REPLIES),
    Step::Operator(NODE_1_IS_RESCUED),
    Step::Clients(&[
        (0, Act::Call(2, Ask::Retrieve, Answer::Values(&[b"x"]))),
        (0, Act::Leave),
    ]),
];

/// A client asks for `b` by its request 2 and at once for `abc` by its request 3, and is told that
/// `b` has no values: the other request was read then too, and waits.
const ASK_BOTH: Act = Act::Exchange(
    b"\x00\x00\x00\x0c\x01\x02\x00\x00\x00\x00\x00\x00\x00\x02\x01b\x00\x00\x00\x0e\x01\x02\x00\x00\x00\x00\x00\x00\x00\x03\x03abc",
    b"\x00\x00\x00\x0e\x01\x82\x00\x00\x00\x00\x00\x00\x00\x02\x00\x00\x00\x00",
);

/// Fault 11 for request 3.
const FAULT_11_FOR_3: &[u8] = b"\x00\x00\x00\x0b\x01\xff\x00\x00\x00\x00\x00\x00\x00\x03\x0b";

/// The server is stopped while a client waits for an answer to its request 3. It is told fault 11.
const STOPPED_WITH_A_REQUEST: &[Step] = &[
    Step::Operator(HOLDERS),
    Step::Clients(&[
        (0, Act::Connect),
        (0, Act::Call(1, Ask::Insert(b"x"), Answer::Added)),
    ]),
    Step::Operator(NODE_1_CRASHES),
    Step::Clients(&[(0, ASK_BOTH)]),
    Step::Operator(STOPS),
    Step::Clients(&[(0, Act::HearBytes(FAULT_11_FOR_3)), (0, Act::End)]),
];

/// A request is sent 1,000 times, for a tenth of a second each, but a stop ends that.
#[test]
fn a_stop_ends_a_stuck_request(rt: HostRuntime) -> Result<(), Fail> {
    let size = Size {
        tries: 1_000,
        ..TWO_CALLERS
    };
    let server = (size, WAITS, RandomState::new(&rt)?);
    let pipe = io::pipe(&rt)?;
    let lines = "connection 0 ended\n";
    let found = operated(&rt, rt.alloc(), server, STOPPED_WITH_A_REQUEST, pipe, lines);
    assert!(rt; found == Some(GOOD), "{found:?}");
    Ok(())
}

/// A client inserts `y` for `b` by its request 2, and is told that it was added.
const INSERT_B: Act = Act::Exchange(
    b"\x00\x00\x00\x0f\x01\x01\x00\x00\x00\x00\x00\x00\x00\x02\x01b\x00\x01y",
    b"\x00\x00\x00\x0b\x01\x81\x00\x00\x00\x00\x00\x00\x00\x02\x01",
);

/// Node 1 begins to be rescued, and is not gone.
const RESCUE_BEGINS: &str = r#"
POST /nodes/1/rescue > 202 Accepted | {"node":1}
GET /metrics > 200 OK | chord_nodes{phase="rescuing"} 1\n
"#;

/// The server is stopped while node 0 has no room for what node 1 gives, and while a client sends
/// nothing.
const STOPPED_AMID_A_RESCUE: &[Step] = &[
    Step::Operator(HOLDERS),
    Step::Clients(&[
        (0, Act::Connect),
        (0, Act::Call(1, Ask::Insert(b"x"), Answer::Added)),
        (0, INSERT_B),
        (0, Act::Leave),
        (1, Act::Connect),
    ]),
    Step::Operator(NODE_1_CRASHES),
    Step::Operator(RESCUE_BEGINS),
    Step::Operator(STOPS),
    Step::Clients(&[(1, Act::End)]),
];

/// Each store has room for one pair. The server ends all the same.
#[test]
fn a_stop_ends_a_rescue_and_a_silent_client(rt: HostRuntime) -> Result<(), Fail> {
    let size = Size {
        room: 1,
        ..TWO_CALLERS
    };
    let server = (size, WAITS, RandomState::new(&rt)?);
    let pipe = io::pipe(&rt)?;
    let lines = "connection 0 ended\nconnection 1 ended\n";
    let found = operated(&rt, rt.alloc(), server, STOPPED_AMID_A_RESCUE, pipe, lines);
    assert!(rt; found == Some(GOOD), "{found:?}");
    Ok(())
}

/// The server sends a request once, and waits a tenth of a second for the answer.
#[test]
fn a_key_of_a_crashed_node_gets_fault_11(rt: HostRuntime) -> Result<(), Fail> {
    let size = Size {
        tries: 1,
        ..TWO_CALLERS
    };
    let server = (size, WAITS, RandomState::new(&rt)?);
    let lines = "connection 1 ended\nconnection 0 ended\n";
    let pipe = io::pipe(&rt)?;
    let found = operated(&rt, rt.alloc(), server, BEHIND_A_CRASH, pipe, lines);
    assert!(rt; found == Some(GOOD), "{found:?}");
    Ok(())
}

/// INFO tells of both nodes, of which node 1 crashed, and each holds its part of the circle.
const INFO_BEHIND_A_CRASH: Act = Act::Exchange(
    b"INFO\r\n",
    b"$157\r\n# Server\r\nserver:chord\r\nprotocol:2\r\n# Clients\r\nconnected_clients:1\r\n# Nodes\r\nnode0:phase=staying,pairs=0,segments=1\r\nnode1:phase=crashed,pairs=0,segments=1\r\n\r\n",
);

const TOLD_OF_A_CRASH: &[Step] = &[
    Step::Operator(HOLDERS),
    Step::Operator(NODE_1_CRASHES),
    Step::Clients(&[
        (0, Act::ConnectRedis),
        (0, INFO_BEHIND_A_CRASH),
        (0, Act::Leave),
    ]),
];

#[test]
fn info_tells_of_a_crashed_node(rt: HostRuntime) -> Result<(), Fail> {
    let size = Size {
        speech: Speech::Both,
        ..SMALL
    };
    let server = (size, WAITS, RandomState::new(&rt)?);
    let pipe = io::pipe(&rt)?;
    let lines = "connection 0 ended\n";
    let found = operated(&rt, rt.alloc(), server, TOLD_OF_A_CRASH, pipe, lines);
    assert!(rt; found == Some(GOOD), "{found:?}");
    Ok(())
}

/// Fault 14, of a session that is not kept.
const FAULT_14: &[u8] = b"\x00\x00\x00\x0b\x01\xff\x00\x00\x00\x00\x00\x00\x00\x00\x0e";

/// A session is kept, which went on before, and another client was refused. Once the session is old
/// enough, the server is ready for one more client.
const ONE_SESSION_IS_KEPT: &str = r#"
GET /metrics > 200 OK | chord_sessions_kept 1\n
GET /metrics > 200 OK | chord_sessions_total{kind="resumed"} 1\n
GET /metrics > 200 OK | chord_sessions_total{kind="dropped"} 0\n
GET /metrics > 200 OK | chord_sessions_total{kind="refused"} 1\n
GET /ready > 200 OK | \r\n\r\nok\n
"#;

/// The session was dropped for its caller, who serves nobody now.
const ONE_SESSION_WAS_DROPPED: &str = r#"
GET /metrics > 200 OK | chord_sessions_kept 0\n
GET /metrics > 200 OK | chord_sessions_total{kind="resumed"} 1\n
GET /metrics > 200 OK | chord_sessions_total{kind="dropped"} 1\n
GET /metrics > 200 OK | chord_sessions_total{kind="refused"} 1\n
GET /ring > 200 OK | "callers":{"all":1,"open":0,"pending":0},"connections":0,
"#;

const SESSIONS: &[Step] = &[
    Step::Clients(&[
        (0, Act::Begin(1)),
        (0, Act::CallIn(1, 0, Ask::Insert(b"x"), Answer::Added)),
        (0, Act::Leave),
        (1, Act::Resume(1, 0, 1)),
        (1, Act::Leave),
        (2, Act::Connect),
        (2, Act::Open(2, true)),
        (2, Act::HearBytes(FAULT_14)),
        (2, Act::End),
    ]),
    Step::Operator(ONE_SESSION_IS_KEPT),
    Step::Clients(&[
        (3, Act::Connect),
        (3, Act::Call(1, Ask::Insert(b"x"), Answer::Present)),
        (3, Act::Leave),
    ]),
    Step::Operator(ONE_SESSION_WAS_DROPPED),
];

/// What becomes of the sessions of a server of one caller, which keeps them for a second.
#[test]
fn sessions_are_counted(rt: HostRuntime) -> Result<(), Fail> {
    let limits = ClientLimits { keep: 1, ..WAITS };
    let server = (SMALL, limits, RandomState::new(&rt)?);
    let pipe = io::pipe(&rt)?;
    let lines =
        "connection 0 ended\nconnection 1 ended\nconnection 2 malformed 14\nconnection 3 ended\n";
    let found = operated(&rt, rt.alloc(), server, SESSIONS, pipe, lines);
    assert!(rt; found == Some(GOOD), "{found:?}");
    Ok(())
}
