//! A ring of one node, one that crashed, and one that is gone.

use crate::samples::{empty_node, empty_ring, filled, peopled};
use chord_app_operator::{RingSight, StoreKind, StoredNode, TimeCount};
use chord_ident::{Id, Span};
use chord_sight::{AskCounts, HandoverCounts, NodeSight, OutboxSight, Phase, SegmentSight};
use std::alloc::{AllocError, Global};

/// Puts in the lists of the node that stays.
fn fill(node: &mut NodeSight) -> Result<(), AllocError> {
    let span = Span::new(Id::new(16), Id::new(32));
    node.successors.push(1)?;
    node.successors.push(0)?;
    node.segments.push(SegmentSight { span, kept: 12 })?;
    let item = OutboxSight {
        to: 2,
        number: 1,
        span,
        pairs: 64,
    };
    Ok(node.outbox.push(item)?)
}

fn staying(alloc: Global) -> Result<StoredNode, AllocError> {
    let mut node = empty_node(alloc, 0, 32, Phase::Staying);
    node.sight.predecessor = Some(1);
    node.sight.fingers = 7;
    node.sight.pairs = 1234;
    node.sight.counts.asks = AskCounts {
        told: 100,
        forwarded: 3,
        dropped: 2,
        full: 1,
    };
    node.sight.counts.handovers = HandoverCounts {
        given: 1,
        taken: 2,
        declined: 0,
    };
    node.sight.counts.ticks = 42;
    filled(fill(&mut node.sight), node)
}

fn crashed(alloc: Global) -> StoredNode {
    let mut node = empty_node(alloc, 1, 64, Phase::Crashed);
    node.store = StoreKind::Capped;
    node.sight.counts.ticks = 9;
    node
}

/// Puts in both nodes.
fn put_nodes(alloc: Global, nodes: &mut Vec<StoredNode>) -> Result<(), AllocError> {
    nodes.push(staying(alloc)?)?;
    Ok(nodes.push(crashed(alloc))?)
}

/// Puts in how many requests took at most 50 microseconds, and how many 10 seconds.
fn put_times(within: &mut Vec<TimeCount>) -> Result<(), AllocError> {
    within.push(TimeCount {
        upto: 50,
        count: 34,
    })?;
    Ok(within.push(TimeCount {
        upto: 10_000_000,
        count: 35,
    })?)
}

/// Puts in all lists of the ring.
fn put_lists(alloc: Global, ring: &mut RingSight) -> Result<(), AllocError> {
    put_times(&mut ring.times.within)?;
    put_nodes(alloc, &mut ring.nodes)
}

/// The ring without the node that is gone.
pub fn ring(alloc: Global) -> Result<RingSight, AllocError> {
    let mut ring = empty_ring(alloc);
    let outcome = put_lists(alloc, &mut ring);
    peopled(outcome, ring)
}

fn gone(alloc: Global) -> StoredNode {
    let mut node = empty_node(alloc, 3, 96, Phase::Gone);
    node.sight.counts.asks.forwarded = 5;
    node.sight.counts.ticks = 7;
    node
}

/// The ring with that node.
pub fn whole_ring(alloc: Global) -> Result<RingSight, AllocError> {
    let mut whole = ring(alloc)?;
    let outcome = match whole.nodes.push(gone(alloc)) {
        Ok(()) => Ok(()),
        Err(_) => Err(AllocError),
    };
    peopled(outcome, whole)
}

/// The ring without the node that is gone, as JSON: each object's members in the order of their
/// names.
pub const RING_JSON: &str =
    "{\"answers\":{\"frames\":{\"full\":25,\"memory\":27,\"noanswer\":26,\"refused\":28,\"reply\":24},\"redis\":{\"full\":30,\"memory\":32,\"noanswer\":31,\"refused\":33,\"reply\":29}},\"callers\":{\"all\":64,\"open\":3,\"pending\":2},\"connections\":5,\"ends\":{\"callersspent\":18,\"ended\":10,\"idle\":19,\"malformed\":12,\"memory\":17,\"protocol\":13,\"read\":14,\"truncated\":11,\"turnsspent\":16,\"write\":15},\"nodes\":[{\"asks\":{\"dropped\":2,\"forwarded\":3,\"full\":1,\"told\":100},\"fingers\":7,\"handovers\":{\"declined\":0,\"given\":1,\"taken\":2},\"id\":\"00000000000000000000000000000020\",\"node\":0,\"outbox\":[{\"after\":\"00000000000000000000000000000010\",\"number\":1,\"pairs\":64,\"to\":2,\"upto\":\"00000000000000000000000000000020\"}],\"pairs\":1234,\"phase\":\"staying\",\"predecessor\":1,\"segments\":[{\"after\":\"00000000000000000000000000000010\",\"kept\":12,\"upto\":\"00000000000000000000000000000020\"}],\"store\":\"tree\",\"successors\":[1,0],\"ticks\":42},{\"asks\":{\"dropped\":0,\"forwarded\":0,\"full\":0,\"told\":0},\"fingers\":0,\"handovers\":{\"declined\":0,\"given\":0,\"taken\":0},\"id\":\"00000000000000000000000000000040\",\"node\":1,\"outbox\":[],\"pairs\":0,\"phase\":\"crashed\",\"predecessor\":null,\"segments\":[],\"store\":\"capped\",\"successors\":[],\"ticks\":9}],\"nodes_gone\":39,\"premise\":true,\"sessions\":{\"dropped\":22,\"kept\":20,\"refused\":23,\"resumed\":21},\"slots\":16,\"successors\":4,\"uptime_ms\":12345}";

/// The same as a table.
pub const RING_TABLE: &str = concat!(
    "up 12 s, 2 of 16 slots used, 39 gone, 4 successors, 5 connections, 3 of 64 callers open\n",
    "node  identifier                        phase       share      pairs  segments  outbox\n",
    "   0  00000000000000000000000000000020  staying     0.00%       1234         1  64 to 2\n",
    "   1  00000000000000000000000000000040  crashed     0.00%          0         0  -\n",
);

/// The ring with the node that is gone as a table.
pub const WHOLE_TABLE: &str = concat!(
    "up 12 s, 3 of 16 slots used, 39 gone, 4 successors, 5 connections, 3 of 64 callers open\n",
    "node  identifier                        phase       share      pairs  segments  outbox\n",
    "   0  00000000000000000000000000000020  staying     0.00%       1234         1  64 to 2\n",
    "   1  00000000000000000000000000000040  crashed     0.00%          0         0  -\n",
    "   3  00000000000000000000000000000060  gone        0.00%          0         0  -\n",
);

/// The same in Prometheus's text format. The node that is gone has no line of its own.
pub const RING_METRICS: &str =
    "# HELP chord_nodes Nodes by phase.\n# TYPE chord_nodes gauge\nchord_nodes{phase=\"staying\"} 1\nchord_nodes{phase=\"leaving\"} 0\nchord_nodes{phase=\"crashed\"} 1\nchord_nodes{phase=\"rescuing\"} 0\n# HELP chord_nodes_gone_total Nodes that are gone.\n# TYPE chord_nodes_gone_total counter\nchord_nodes_gone_total 39\n# HELP chord_ring_premise 1 as long as the ring allowed each crash.\n# TYPE chord_ring_premise gauge\nchord_ring_premise 1\n# HELP chord_pairs Pairs that a node holds.\n# TYPE chord_pairs gauge\nchord_pairs{node=\"0\"} 1234\nchord_pairs{node=\"1\"} 0\n# HELP chord_segments Segments that a node holds.\n# TYPE chord_segments gauge\nchord_segments{node=\"0\"} 1\nchord_segments{node=\"1\"} 0\n# HELP chord_outbox_items Handovers that a node gives and that are not taken yet.\n# TYPE chord_outbox_items gauge\nchord_outbox_items{node=\"0\"} 1\nchord_outbox_items{node=\"1\"} 0\n# HELP chord_asks_total Requests that a node got, by what it did.\n# TYPE chord_asks_total counter\nchord_asks_total{node=\"0\",answer=\"told\"} 100\nchord_asks_total{node=\"1\",answer=\"told\"} 0\nchord_asks_total{node=\"0\",answer=\"forwarded\"} 3\nchord_asks_total{node=\"1\",answer=\"forwarded\"} 0\nchord_asks_total{node=\"0\",answer=\"dropped\"} 2\nchord_asks_total{node=\"1\",answer=\"dropped\"} 0\nchord_asks_total{node=\"0\",answer=\"full\"} 1\nchord_asks_total{node=\"1\",answer=\"full\"} 0\n# HELP chord_handovers_total Handovers that a node took part in.\n# TYPE chord_handovers_total counter\nchord_handovers_total{node=\"0\",kind=\"given\"} 1\nchord_handovers_total{node=\"1\",kind=\"given\"} 0\nchord_handovers_total{node=\"0\",kind=\"taken\"} 2\nchord_handovers_total{node=\"1\",kind=\"taken\"} 0\nchord_handovers_total{node=\"0\",kind=\"declined\"} 0\nchord_handovers_total{node=\"1\",kind=\"declined\"} 0\n# HELP chord_ticks_total Rounds of upkeep that a node had.\n# TYPE chord_ticks_total counter\nchord_ticks_total{node=\"0\"} 42\nchord_ticks_total{node=\"1\"} 9\n# HELP chord_connections Clients that are connected.\n# TYPE chord_connections gauge\nchord_connections 5\n# HELP chord_callers_open Callers that are open.\n# TYPE chord_callers_open gauge\nchord_callers_open 3\n# HELP chord_callers_pending Callers that wait for an answer of the ring.\n# TYPE chord_callers_pending gauge\nchord_callers_pending 2\n# HELP chord_connections_total Connections that ended, by how.\n# TYPE chord_connections_total counter\nchord_connections_total{result=\"ended\"} 10\nchord_connections_total{result=\"truncated\"} 11\nchord_connections_total{result=\"malformed\"} 12\nchord_connections_total{result=\"protocol\"} 13\nchord_connections_total{result=\"read\"} 14\nchord_connections_total{result=\"write\"} 15\nchord_connections_total{result=\"turnsspent\"} 16\nchord_connections_total{result=\"memory\"} 17\nchord_connections_total{result=\"callersspent\"} 18\nchord_connections_total{result=\"idle\"} 19\n# HELP chord_sessions_kept Sessions without a connection.\n# TYPE chord_sessions_kept gauge\nchord_sessions_kept 20\n# HELP chord_sessions_total Sessions that were resumed, dropped or refused.\n# TYPE chord_sessions_total counter\nchord_sessions_total{kind=\"resumed\"} 21\nchord_sessions_total{kind=\"dropped\"} 22\nchord_sessions_total{kind=\"refused\"} 23\n\
# HELP chord_answers_total Answers to requests of clients, by what was answered.\n\
# TYPE chord_answers_total counter\n\
chord_answers_total{protocol=\"frames\",answer=\"reply\"} 24\n\
chord_answers_total{protocol=\"frames\",answer=\"full\"} 25\n\
chord_answers_total{protocol=\"frames\",answer=\"no_answer\"} 26\n\
chord_answers_total{protocol=\"frames\",answer=\"memory\"} 27\n\
chord_answers_total{protocol=\"frames\",answer=\"refused\"} 28\n\
chord_answers_total{protocol=\"redis\",answer=\"reply\"} 29\n\
chord_answers_total{protocol=\"redis\",answer=\"full\"} 30\n\
chord_answers_total{protocol=\"redis\",answer=\"no_answer\"} 31\n\
chord_answers_total{protocol=\"redis\",answer=\"memory\"} 32\n\
chord_answers_total{protocol=\"redis\",answer=\"refused\"} 33\n\
# HELP chord_request_seconds How long the ring took to answer a request.\n\
# TYPE chord_request_seconds histogram\n\
chord_request_seconds_bucket{le=\"50e-6\"} 34\n\
chord_request_seconds_bucket{le=\"10000000e-6\"} 35\n\
chord_request_seconds_bucket{le=\"+Inf\"} 36\n\
chord_request_seconds_sum 1234567e-6\n\
chord_request_seconds_count 36\n\
# HELP chord_forwards_total Requests that nodes passed on to other nodes.\n\
# TYPE chord_forwards_total counter\n\
chord_forwards_total 48\n\
# HELP chord_bytes_total Bytes that connections of clients carried.\n\
# TYPE chord_bytes_total counter\n\
chord_bytes_total{direction=\"read\"} 37\n\
chord_bytes_total{direction=\"written\"} 38\n\
# HELP chord_build_info 1, with the version of the program.\n\
# TYPE chord_build_info gauge\n\
chord_build_info{version=\"0.1.0\"} 1\n\
# HELP chord_uptime_seconds How long the server has run.\n\
# TYPE chord_uptime_seconds gauge\n\
chord_uptime_seconds 12345e-3\n\
# HELP process_resident_memory_bytes Memory that the process has.\n\
# TYPE process_resident_memory_bytes gauge\n\
process_resident_memory_bytes 4096\n\
# HELP process_cpu_seconds_total Time of a processor that the process took.\n\
# TYPE process_cpu_seconds_total counter\n\
process_cpu_seconds_total 1250e-3\n";
