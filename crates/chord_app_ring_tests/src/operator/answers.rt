//! Answers to what looks.

use super::devices::{ask, ask_with_fields};
use super::operators::RingValue;
use super::sights::{RING_JSON, RING_METRICS, RING_TABLE, WHOLE_TABLE, ring, whole_ring};
use crate::checks::check;
use chord_app_operator::{
    HealthSight, Holder, PairsRequest, ToJson, array, holder_value, id_text, metrics_text,
    optional, ring_table, ring_text,
};
use chord_ident::Id;
use serde_json::Value;
use std::alloc::{AllocError, Global};
use std::test::Fail;

#[test]
fn a_ring_is_the_json_of_its_nodes(rt: HostRuntime) -> Result<(), Fail> {
    let seen = ask(&rt, RingValue::new(rt.alloc()), "GET /ring", "")?;
    check!(&rt;
        seen.begins(
            "HTTP/1.1 200 OK\r\ncontent-type: application/json\r\ncache-control: no-store\r\n"
        )
    );
    check!(&rt; seen.ends(RING_JSON));
    check!(&rt; seen.asked(b"s"), "it looks once");
    drop(seen);
    Ok(())
}

/// A ring is a table where the first field `accept` is this type and nothing else.
#[test]
fn a_ring_is_the_table_of_its_nodes(rt: HostRuntime) -> Result<(), Fail> {
    let seen = ask_with_fields(
        &rt,
        "GET /ring",
        "Accept: text/plain\r\nAccept: text/html\r\n",
    )?;
    check!(&rt;
        seen.begins(
            "HTTP/1.1 200 OK\r\ncontent-type: text/plain; charset=utf-8\r\ncache-control: no-store\r\n"
        )
    );
    check!(&rt; seen.ends(RING_TABLE));
    check!(&rt; seen.asked(b"s"), "it looks once");
    drop(seen);
    for fields in [
        "Accept: text/plain, */*\r\n",
        "Accept: */*\r\nAccept: text/plain\r\n",
    ] {
        let seen = ask_with_fields(&rt, "GET /ring", fields)?;
        let is_json = seen.ends(RING_JSON);
        drop(seen);
        check!(&rt; is_json, fields);
    }
    Ok(())
}

/// A node that is gone is shown where all are asked for.
#[test]
fn all_nodes_are_shown_where_they_are_asked_for(rt: HostRuntime) -> Result<(), Fail> {
    let seen = ask_with_fields(&rt, "GET /ring?all", "Accept: text/plain\r\n")?;
    check!(&rt; seen.ends(WHOLE_TABLE));
    check!(&rt; seen.asked(b"s"), "it looks once");
    drop(seen);
    Ok(())
}

/// A refusal is a line there.
#[test]
fn a_refusal_is_a_line_of_text(rt: HostRuntime) -> Result<(), Fail> {
    let seen = ask_with_fields(&rt, "GET /stop", "Accept: text/plain\r\n")?;
    check!(&rt;
        seen.got_text(
            "HTTP/1.1 405 Method Not Allowed\r\ncontent-type: text/plain; charset=utf-8\r\ncache-control: no-store\r\nallow: POST\r\ncontent-length: 20\r\n\r\nrefused WrongMethod\n"
        )
    );
    drop(seen);
    Ok(())
}

#[test]
fn metrics_are_those_of_the_ring(rt: HostRuntime) -> Result<(), Fail> {
    let seen = ask(&rt, RingValue::new(rt.alloc()), "GET /metrics", "")?;
    check!(&rt;
        seen.begins("HTTP/1.1 200 OK\r\ncontent-type: text/plain; version=0.0.4; charset=utf-8\r\n")
    );
    check!(&rt; seen.ends(RING_METRICS));
    check!(&rt; seen.asked(b"s"), "it looks once");
    drop(seen);
    Ok(())
}

/// A server that serves.
const HEALTH: HealthSight = HealthSight {
    has_node: true,
    has_caller: true,
    is_stopped: false,
};

/// A request about a server's health, what it tells, and how the answer ends.
const STATES: [(&str, HealthSight, bool, &str); 7] = [
    ("GET /health", HEALTH, true, "\r\n\r\nok\n"),
    ("GET /ready", HEALTH, true, "\r\n\r\nok\n"),
    (
        "GET /health",
        HealthSight {
            has_caller: false,
            ..HEALTH
        },
        true,
        "\r\n\r\nok\n",
    ),
    (
        "GET /ready",
        HealthSight {
            has_caller: false,
            ..HEALTH
        },
        false,
        "\r\n\r\nno caller is free\n",
    ),
    (
        "GET /health",
        HealthSight {
            has_node: false,
            ..HEALTH
        },
        false,
        "\r\n\r\nno node is staying\n",
    ),
    (
        "GET /ready",
        HealthSight {
            has_node: false,
            ..HEALTH
        },
        false,
        "\r\n\r\nno node is staying\n",
    ),
    (
        "GET /health",
        HealthSight {
            is_stopped: true,
            ..HEALTH
        },
        false,
        "\r\n\r\nthe server stops\n",
    ),
];

#[test]
fn health_and_readiness_are_told(rt: HostRuntime) -> Result<(), Fail> {
    for (line, health, is_good, end) in STATES {
        let mut operator = RingValue::new(rt.alloc());
        operator.health = health;
        let seen = ask(&rt, operator, line, "")?;
        let begin = if is_good {
            "HTTP/1.1 200 OK\r\n"
        } else {
            "HTTP/1.1 503 Service Unavailable\r\n"
        };
        check!(&rt; seen.begins(begin));
        check!(&rt; seen.ends(end));
        check!(&rt; seen.asked(b"h"));
        drop(seen);
    }
    Ok(())
}

#[test]
fn head_is_answered_as_get_without_the_body(rt: HostRuntime) -> Result<(), Fail> {
    let seen = ask(&rt, RingValue::new(rt.alloc()), "HEAD /health", "")?;
    check!(&rt;
        seen.got_text(
            "HTTP/1.1 200 OK\r\ncontent-type: text/plain; charset=utf-8\r\ncache-control: no-store\r\ncontent-length: 3\r\n\r\n"
        )
    );
    drop(seen);
    Ok(())
}

#[test]
fn the_page_asks_nothing_of_the_operator(rt: HostRuntime) -> Result<(), Fail> {
    let seen = ask(&rt, RingValue::new(rt.alloc()), "GET /", "")?;
    check!(&rt;
        seen.begins(
            "HTTP/1.1 200 OK\r\ncontent-type: text/html; charset=utf-8\r\ncache-control: no-store\r\ncontent-security-policy: default-src 'none'; "
        )
    );
    check!(&rt; seen.ends("</html>\n"));
    check!(&rt; seen.asked(b""));
    drop(seen);
    Ok(())
}

/// Who holds the key `abc`, and the end of the answer.
const HOLDERS: &[(Holder, &str)] = &[
    (
        Holder::Node(3),
        "\r\n\r\n{\"id\":\"a9993e364706816aba3e25717850c26c\",\"node\":3}",
    ),
    (
        Holder::Handover {
            from: 1,
            to: 2,
            number: 7,
        },
        "\r\n\r\n{\"from\":1,\"handover\":7,\"id\":\"a9993e364706816aba3e25717850c26c\",\"to\":2}",
    ),
    (Holder::Moved, "\r\n\r\nnull"),
];

#[test]
fn a_holder_is_a_node_or_a_handover(rt: HostRuntime) -> Result<(), Fail> {
    for (holder, end) in HOLDERS {
        let mut operator = RingValue::new(rt.alloc());
        operator.holder = *holder;
        let seen = ask(&rt, operator, "GET /holder/abc", "")?;
        let is_told = seen.ends(end) && seen.asked(b"o");
        drop(seen);
        check!(&rt; is_told, end);
    }
    Ok(())
}

#[test]
fn a_key_is_percent_encoded(rt: HostRuntime) -> Result<(), Fail> {
    let seen = ask(&rt, RingValue::new(rt.alloc()), "GET /holder/a%62c", "")?;
    let held = seen.operator.held;
    drop(seen);
    // SHA-1 of `abc` begins with these bytes.
    let abc = Id::new(0xa9993e36_4706816a_ba3e2571_7850c26c);
    check!(&rt; held == Some(abc));
    Ok(())
}

#[test]
fn pairs_are_lines_and_the_next_identifier(rt: HostRuntime) -> Result<(), Fail> {
    let seen = ask(
        &rt,
        RingValue::new(rt.alloc()),
        "GET /pairs?limit=2&after=000000000000000000000000000000FF",
        "",
    )?;
    check!(&rt;
        seen.got_text(
            "HTTP/1.1 200 OK\r\ncontent-type: text/plain; charset=utf-8\r\ncache-control: no-store\r\nchord-page: held\r\nchord-next: 000000000000000000000000000000ff\r\ncontent-length: 39\r\n\r\ninsert x:616263 x:78\ninsert x:- x:00ff\n"
        )
    );
    let asked = PairsRequest {
        after: Some(Id::new(255)),
        limit: 2,
    };
    check!(&rt; seen.operator.pairs == Some(asked));
    drop(seen);
    Ok(())
}

#[test]
fn a_page_has_100_pairs_without_a_limit(rt: HostRuntime) -> Result<(), Fail> {
    let seen = ask(&rt, RingValue::new(rt.alloc()), "GET /pairs", "")?;
    let pairs = seen.operator.pairs;
    drop(seen);
    let asked = PairsRequest {
        after: None,
        limit: 100,
    };
    check!(&rt; pairs == Some(asked));
    Ok(())
}

/// Whether the value is written so.
fn is_written(alloc: Global, value: Result<Value, AllocError>, wanted: &str) -> Option<bool> {
    let value = value.ok()?;
    let text = value.to_string(alloc);
    drop(value);
    is_text(text, wanted)
}

/// Whether the text is this one.
fn is_text(text: Result<String, AllocError>, wanted: &str) -> Option<bool> {
    let text = text.ok()?;
    let is_wanted = text.as_str() == wanted;
    drop(text);
    Some(is_wanted)
}

/// An identifier and its digits.
const TEN: Id = Id { number: 10 };

const DIGITS_OF_TEN: &str = "0000000000000000000000000000000a";

#[test]
fn values_are_those_of_their_types(rt: HostRuntime) {
    let alloc = rt.alloc();
    let list = [3u64, 4];
    check!(&rt; is_written(alloc, array(alloc, &list), "[3,4]") == Some(true));
    check!(&rt; is_written(alloc, Ok(optional(Some(3))), "3") == Some(true));
    check!(&rt; is_written(alloc, Ok(optional(None)), "null") == Some(true));
    let id = TEN.to_json(alloc);
    check!(&rt; is_written(alloc, id, "\"0000000000000000000000000000000a\"") == Some(true));
    let held = holder_value(alloc, TEN, Holder::Node(2));
    let wanted = "{\"id\":\"0000000000000000000000000000000a\",\"node\":2}";
    check!(&rt; is_written(alloc, held, wanted) == Some(true));
}

#[test]
fn texts_are_those_of_the_answers(rt: HostRuntime) -> Result<(), Fail> {
    check!(&rt; is_text(id_text(rt.alloc(), TEN), DIGITS_OF_TEN) == Some(true));
    let sight = ring(rt.alloc())?;
    let is_ring = is_text(ring_text(rt.alloc(), &sight), RING_JSON);
    let is_table = is_text(ring_table(rt.alloc(), &sight), RING_TABLE);
    drop(sight);
    let sight = whole_ring(rt.alloc())?;
    let are_metrics = is_text(metrics_text(rt.alloc(), &sight), RING_METRICS);
    drop(sight);
    check!(&rt; is_ring == Some(true));
    check!(&rt; are_metrics == Some(true));
    check!(&rt; is_table == Some(true));
    Ok(())
}
