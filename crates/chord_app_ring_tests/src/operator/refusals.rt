//! Requests that are refused: none of them asks anything of the operator.

use super::devices::{Exchange, NOT_FOUND, ask, ask_with_fields, serve_bytes, serve_text};
use super::operators::RingValue;
use crate::checks::check;
use std::alloc::Global;
use std::test::Fail;

/// The line and the body of a request that is refused, and the name of the refusal.
type Refused = (&'static str, &'static str, &'static str);

const BAD_REQUEST: &str = "400 Bad Request";

/// Whether the request is refused so, and asks nothing.
fn is_refused(rt: &HostRuntime, row: &Refused, status: &str) -> Result<bool, Fail> {
    let (line, body, name) = row;
    let seen = ask(rt, RingValue::new(rt.alloc()), line, body)?;
    let is_refused = seen.is_refused(rt.alloc(), status, name);
    let asks_nothing = seen.asked(b"");
    drop(seen);
    Ok(is_refused? && asks_nothing)
}

/// Bodies, and what is wrong with each.
const BODIES: &[Refused] = &[
    ("POST /nodes", "{\"id\": ", "NotJson"),
    ("POST /nodes", "id=1", "NotJson"),
    ("POST /nodes", "{} {}", "NotJson"),
    ("POST /nodes", "[]", "NotObject"),
    ("POST /nodes", "3", "NotObject"),
    ("POST /nodes", "{\"ID\":\"00\"}", "UnknownMember"),
    ("POST /nodes", "{\"force\":true}", "UnknownMember"),
    ("POST /nodes", "{\"id\":\"00\"}", "BadId"),
    ("POST /nodes", "{\"id\":3}", "BadId"),
    (
        "POST /nodes",
        "{\"id\":\"0000000000000000000000000000000g\"}",
        "BadId",
    ),
    ("POST /nodes", "{\"store\":\"heap\"}", "BadStore"),
    ("POST /nodes", "{\"store\":null}", "BadStore"),
    (
        "POST /nodes",
        "{\"store\":\"capped\",\"limit\":-1}",
        "BadLimit",
    ),
    (
        "POST /nodes",
        "{\"store\":\"tree\",\"limit\":1}",
        "BadLimit",
    ),
    ("POST /nodes", "{\"limit\":1}", "BadLimit"),
    ("POST /nodes", "{\"via\":1.5}", "BadVia"),
    ("POST /nodes", "{\"via\":\"1\"}", "BadVia"),
    ("POST /nodes/0/crash", "{\"force\":1}", "BadForce"),
    ("POST /nodes/0/crash", "{\"forse\":true}", "UnknownMember"),
    ("POST /nodes/0/crash", "true", "NotObject"),
];

#[test]
fn bodies_are_refused_for_what_is_wrong(rt: HostRuntime) -> Result<(), Fail> {
    for row in BODIES {
        assert!(rt; is_refused(&rt, row, BAD_REQUEST)?, "{row:?}");
    }
    Ok(())
}

/// The same of queries.
const QUERIES: &[Refused] = &[
    ("GET /pairs?limit=0", "", "BadLimit"),
    ("GET /pairs?limit=1001", "", "BadLimit"),
    ("GET /pairs?limit=", "", "BadLimit"),
    ("GET /pairs?limit=1&limit=x", "", "BadLimit"),
    ("GET /pairs?after=00", "", "BadAfter"),
    ("GET /pairs?before=1", "", "UnknownParameter"),
    ("GET /ring?every", "", "UnknownParameter"),
    ("GET /ring?all=1", "", "UnknownParameter"),
];

#[test]
fn queries_are_refused_for_what_is_wrong(rt: HostRuntime) -> Result<(), Fail> {
    for row in QUERIES {
        assert!(rt; is_refused(&rt, row, BAD_REQUEST)?, "{row:?}");
    }
    Ok(())
}

/// Paths that name nothing.
const PATHS: &[Refused] = &[
    ("GET /rings", "", "NoSuchPath"),
    ("GET /ring/", "", "NoSuchPath"),
    ("GET /nodes/1", "", "NoSuchPath"),
    ("POST /nodes//leave", "", "NoSuchPath"),
    ("POST /nodes/+1/leave", "", "NoSuchPath"),
    ("POST /nodes/x/crash", "", "NoSuchPath"),
    ("POST /nodes/10000000000000000000/crash", "", "NoSuchPath"),
    ("POST /nodes/1/leave/", "", "NoSuchPath"),
    ("POST /nodes/x/rescue", "", "NoSuchPath"),
    ("GET /holder", "", "NoSuchPath"),
];

#[test]
fn paths_that_name_nothing_are_not_found(rt: HostRuntime) -> Result<(), Fail> {
    for row in PATHS {
        assert!(rt; is_refused(&rt, row, NOT_FOUND)?, "{row:?}");
    }
    Ok(())
}

/// Requests of a wrong method, and the field that tells the right ones.
const WRONG_METHODS: &[(&str, &str)] = &[
    ("POST /", "\r\nallow: GET, HEAD\r\n"),
    ("POST /ring", "\r\nallow: GET, HEAD\r\n"),
    ("PUT /metrics", "\r\nallow: GET, HEAD\r\n"),
    ("DELETE /health", "\r\nallow: GET, HEAD\r\n"),
    ("POST /holder/abc", "\r\nallow: GET, HEAD\r\n"),
    ("POST /pairs", "\r\nallow: GET, HEAD\r\n"),
    ("GET /nodes", "\r\nallow: POST\r\n"),
    ("GET /nodes/1/leave", "\r\nallow: POST\r\n"),
    ("GET /nodes/1/crash", "\r\nallow: POST\r\n"),
    ("GET /nodes/1/rescue", "\r\nallow: POST\r\n"),
    ("GET /stop", "\r\nallow: POST\r\n"),
];

/// Whether the client was refused for its method, with this field, and nothing was asked.
fn tells_methods(alloc: Global, seen: &Exchange, allow: &str) -> Result<bool, Fail> {
    let head = format!(in alloc;
        "HTTP/1.1 405 Method Not Allowed\r\ncontent-type: application/json\r\ncache-control: no-store{allow}"
    )?;
    let begins = seen.begins(&head);
    drop(head);
    Ok(begins && seen.ends("{\"refused\":\"WrongMethod\"}") && seen.asked(b""))
}

#[test]
fn a_wrong_method_is_told_the_right_ones(rt: HostRuntime) -> Result<(), Fail> {
    for (line, allow) in WRONG_METHODS {
        let seen = ask(&rt, RingValue::new(rt.alloc()), line, "")?;
        let are_told = tells_methods(rt.alloc(), &seen, allow);
        drop(seen);
        check!(&rt; are_told?, line);
    }
    Ok(())
}

/// Fields that name other origins.
const FOREIGN_ORIGINS: &[&str] = &[
    "Origin: http://evil.example\r\n",
    "Origin: null\r\n",
    "Origin: http://127.0.0.1:7002\r\n",
    "Origin: https://127.0.0.1:7001\r\n",
    "Origin: http://localhost:70011\r\n",
    "Origin: http://localhost:7001\r\nOrigin: http://evil.example\r\n",
];

/// Whether a request with this field is refused for its origin, and asks nothing.
fn is_foreign(rt: &HostRuntime, line: &str, origin: &str) -> Result<bool, Fail> {
    let seen = ask_with_fields(rt, line, origin)?;
    let is_refused = seen.begins("HTTP/1.1 403 Forbidden\r\n")
        && seen.ends("{\"refused\":\"ForeignOrigin\"}")
        && seen.asked(b"");
    drop(seen);
    Ok(is_refused)
}

#[test]
fn a_foreign_origin_does_nothing(rt: HostRuntime) -> Result<(), Fail> {
    for origin in FOREIGN_ORIGINS {
        for line in [
            "POST /stop",
            "POST /nodes",
            "POST /nodes/0/crash",
            "GET /ring",
        ] {
            assert!(rt; is_foreign(&rt, line, origin)?, "{origin} {line}");
        }
    }
    Ok(())
}

#[test]
fn the_own_origin_acts(rt: HostRuntime) -> Result<(), Fail> {
    for origin in [
        "Origin: http://127.0.0.1:7001\r\n",
        "Origin: http://localhost:7001\r\n",
    ] {
        let seen = ask_with_fields(&rt, "POST /nodes/0/leave", origin)?;
        let is_done = seen.begins("HTTP/1.1 202 Accepted\r\n") && seen.asked(b"l");
        drop(seen);
        check!(&rt; is_done, origin);
    }
    Ok(())
}

/// Requests for other hosts.
const FOREIGN_HOSTS: &[&str] = &[
    "POST /stop HTTP/1.1\r\nHost: evil.example:7001\r\n\r\n",
    "POST /stop HTTP/1.1\r\nHost: 127.0.0.1\r\n\r\n",
    "POST /stop HTTP/1.1\r\nHost: 127.0.0.1:7002\r\n\r\n",
    "POST /stop HTTP/1.1\r\nHost: localhost.evil.example:7001\r\n\r\n",
    "POST http://evil.example/stop HTTP/1.1\r\nHost: 127.0.0.1:7001\r\n\r\n",
    "POST http://127.0.0.1:7001/stop HTTP/1.1\r\nHost: evil.example\r\n\r\n",
    "POST /stop HTTP/1.0\r\n\r\n",
];

#[test]
fn a_foreign_host_does_nothing(rt: HostRuntime) -> Result<(), Fail> {
    for sent in FOREIGN_HOSTS {
        let seen = serve_text(&rt, RingValue::new(rt.alloc()), sent)?;
        let is_refused = seen.ends("{\"refused\":\"ForeignHost\"}") && seen.asked(b"");
        drop(seen);
        check!(&rt; is_refused, sent);
    }
    Ok(())
}

/// Requests for the port's own hosts.
const OWN_HOSTS: &[&str] = &[
    "GET /health HTTP/1.1\r\nHost: 127.0.0.1:7001\r\n\r\n",
    "GET /health HTTP/1.1\r\nHost: localhost:7001\r\n\r\n",
    "GET http://localhost:7001/health HTTP/1.1\r\nHost: localhost:7001\r\n\r\n",
];

#[test]
fn the_own_hosts_are_answered(rt: HostRuntime) -> Result<(), Fail> {
    for sent in OWN_HOSTS {
        let seen = serve_text(&rt, RingValue::new(rt.alloc()), sent)?;
        let is_answered = seen.begins("HTTP/1.1 200 OK\r\n") && seen.asked(b"h");
        drop(seen);
        check!(&rt; is_answered, sent);
    }
    Ok(())
}

/// A join whose body has this many bytes.
fn join_of_length(rt: &HostRuntime, len: usize) -> Result<Exchange, Fail> {
    let body = spaces_behind(rt.alloc(), "{}", len)?;
    let seen = ask(rt, RingValue::new(rt.alloc()), "POST /nodes", &body);
    drop(body);
    seen
}

/// The text, and behind it spaces up to this length.
fn spaces_behind(alloc: Global, text: &str, len: usize) -> Result<String, Fail> {
    Ok(format!(in alloc; "{text:<len$}")?)
}

#[test]
fn a_body_has_at_most_4096_bytes(rt: HostRuntime) -> Result<(), Fail> {
    let seen = join_of_length(&rt, 4096)?;
    let is_done = seen.begins("HTTP/1.1 201 Created\r\n") && seen.asked(b"j");
    drop(seen);
    check!(&rt; is_done, "4096");
    let seen = join_of_length(&rt, 4097)?;
    let is_refused = seen.begins("HTTP/1.1 413 Payload Too Large\r\n") && seen.asked(b"");
    drop(seen);
    check!(&rt; is_refused, "4097");
    Ok(())
}

/// A join by node 1.
const JOIN: &[u8] =
    b"POST /nodes HTTP/1.1\r\nHost: 127.0.0.1:7001\r\nContent-Length: 9\r\n\r\n{\"via\":1}";

#[test]
fn a_request_that_is_cut_does_nothing(rt: HostRuntime) -> Result<(), Fail> {
    for len in 1..JOIN.len() {
        let seen = serve_bytes(&rt, RingValue::new(rt.alloc()), &JOIN[..len])?;
        let is_refused = seen.begins("HTTP/1.1 400 Bad Request\r\n") && seen.asked(b"");
        drop(seen);
        assert!(rt; is_refused, "{len}");
    }
    Ok(())
}
