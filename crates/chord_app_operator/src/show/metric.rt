//! The table of metrics.

use super::answer_count::AnswerCount;
use super::node_count::NodeCount;
use super::ring_count::RingCount;
use chord_sight::Phase;

/// The lines of a metric with the same labels: those of a node come behind `node`, those of a ring
/// with their braces.
#[derive(Clone, Copy, Debug)]
pub enum Series {
    /// A line for each node that is not gone.
    Node(&'static str, NodeCount),
    /// One line.
    Ring(&'static str, RingCount),
    /// The lines of a histogram of how long requests took.
    Times,
}

/// A metric.
#[derive(Clone, Copy, Debug)]
pub struct Metric {
    pub name: &'static str,
    pub help: &'static str,
    /// `gauge`, `counter` for what only grows, or `histogram`.
    pub kind: &'static str,
    pub series: &'static [Series],
}

/// All metrics, in their order.
pub const METRICS: [Metric; 23] = [
    Metric {
        name: "chord_nodes",
        help: "Nodes by phase.",
        kind: "gauge",
        series: &[
            Series::Ring("{phase=\"staying\"}", RingCount::Nodes(Phase::Staying)),
            Series::Ring("{phase=\"leaving\"}", RingCount::Nodes(Phase::Leaving)),
            Series::Ring("{phase=\"crashed\"}", RingCount::Nodes(Phase::Crashed)),
            Series::Ring("{phase=\"rescuing\"}", RingCount::Nodes(Phase::Rescuing)),
        ],
    },
    Metric {
        name: "chord_nodes_gone_total",
        help: "Nodes that are gone.",
        kind: "counter",
        series: &[Series::Ring("", RingCount::Gone)],
    },
    Metric {
        name: "chord_ring_premise",
        help: "1 as long as the ring allowed each crash.",
        kind: "gauge",
        series: &[Series::Ring("", RingCount::Premise)],
    },
    Metric {
        name: "chord_pairs",
        help: "Pairs that a node holds.",
        kind: "gauge",
        series: &[Series::Node("", NodeCount::Pairs)],
    },
    Metric {
        name: "chord_segments",
        help: "Segments that a node holds.",
        kind: "gauge",
        series: &[Series::Node("", NodeCount::Segments)],
    },
    Metric {
        name: "chord_outbox_items",
        help: "Handovers that a node gives and that are not taken yet.",
        kind: "gauge",
        series: &[Series::Node("", NodeCount::OutboxItems)],
    },
    Metric {
        name: "chord_asks_total",
        help: "Requests that a node got, by what it did.",
        kind: "counter",
        series: &[
            Series::Node(",answer=\"told\"", NodeCount::Told),
            Series::Node(",answer=\"forwarded\"", NodeCount::Forwarded),
            Series::Node(",answer=\"dropped\"", NodeCount::Dropped),
            Series::Node(",answer=\"full\"", NodeCount::Full),
        ],
    },
    Metric {
        name: "chord_handovers_total",
        help: "Handovers that a node took part in.",
        kind: "counter",
        series: &[
            Series::Node(",kind=\"given\"", NodeCount::Given),
            Series::Node(",kind=\"taken\"", NodeCount::Taken),
            Series::Node(",kind=\"declined\"", NodeCount::Declined),
        ],
    },
    Metric {
        name: "chord_ticks_total",
        help: "Rounds of upkeep that a node had.",
        kind: "counter",
        series: &[Series::Node("", NodeCount::Ticks)],
    },
    Metric {
        name: "chord_connections",
        help: "Clients that are connected.",
        kind: "gauge",
        series: &[Series::Ring("", RingCount::Connections)],
    },
    Metric {
        name: "chord_callers_open",
        help: "Callers that are open.",
        kind: "gauge",
        series: &[Series::Ring("", RingCount::CallersOpen)],
    },
    Metric {
        name: "chord_callers_pending",
        help: "Callers that wait for an answer of the ring.",
        kind: "gauge",
        series: &[Series::Ring("", RingCount::CallersPending)],
    },
    Metric {
        name: "chord_connections_total",
        help: "Connections that ended, by how.",
        kind: "counter",
        series: &[
            Series::Ring("{result=\"ended\"}", RingCount::Ended),
            Series::Ring("{result=\"truncated\"}", RingCount::Truncated),
            Series::Ring("{result=\"malformed\"}", RingCount::Malformed),
            Series::Ring("{result=\"protocol\"}", RingCount::Protocol),
            Series::Ring("{result=\"read\"}", RingCount::Read),
            Series::Ring("{result=\"write\"}", RingCount::Write),
            Series::Ring("{result=\"turnsspent\"}", RingCount::TurnsSpent),
            Series::Ring("{result=\"memory\"}", RingCount::Memory),
            Series::Ring("{result=\"callersspent\"}", RingCount::CallersSpent),
            Series::Ring("{result=\"idle\"}", RingCount::Idle),
        ],
    },
    Metric {
        name: "chord_sessions_kept",
        help: "Sessions without a connection.",
        kind: "gauge",
        series: &[Series::Ring("", RingCount::Kept)],
    },
    Metric {
        name: "chord_sessions_total",
        help: "Sessions that were resumed, dropped or refused.",
        kind: "counter",
        series: &[
            Series::Ring("{kind=\"resumed\"}", RingCount::Resumed),
            Series::Ring("{kind=\"dropped\"}", RingCount::Dropped),
            Series::Ring("{kind=\"refused\"}", RingCount::Refused),
        ],
    },
    Metric {
        name: "chord_answers_total",
        help: "Answers to requests of clients, by what was answered.",
        kind: "counter",
        series: &[
            Series::Ring(
                "{protocol=\"frames\",answer=\"reply\"}",
                RingCount::Frames(AnswerCount::Reply),
            ),
            Series::Ring(
                "{protocol=\"frames\",answer=\"full\"}",
                RingCount::Frames(AnswerCount::Full),
            ),
            Series::Ring(
                "{protocol=\"frames\",answer=\"no_answer\"}",
                RingCount::Frames(AnswerCount::NoAnswer),
            ),
            Series::Ring(
                "{protocol=\"frames\",answer=\"memory\"}",
                RingCount::Frames(AnswerCount::Memory),
            ),
            Series::Ring(
                "{protocol=\"frames\",answer=\"refused\"}",
                RingCount::Frames(AnswerCount::Refused),
            ),
            Series::Ring(
                "{protocol=\"redis\",answer=\"reply\"}",
                RingCount::Redis(AnswerCount::Reply),
            ),
            Series::Ring(
                "{protocol=\"redis\",answer=\"full\"}",
                RingCount::Redis(AnswerCount::Full),
            ),
            Series::Ring(
                "{protocol=\"redis\",answer=\"no_answer\"}",
                RingCount::Redis(AnswerCount::NoAnswer),
            ),
            Series::Ring(
                "{protocol=\"redis\",answer=\"memory\"}",
                RingCount::Redis(AnswerCount::Memory),
            ),
            Series::Ring(
                "{protocol=\"redis\",answer=\"refused\"}",
                RingCount::Redis(AnswerCount::Refused),
            ),
        ],
    },
    Metric {
        name: "chord_request_seconds",
        help: "How long the ring took to answer a request.",
        kind: "histogram",
        series: &[Series::Times],
    },
    Metric {
        name: "chord_forwards_total",
        help: "Requests that nodes passed on to other nodes.",
        kind: "counter",
        series: &[Series::Ring("", RingCount::Forwards)],
    },
    Metric {
        name: "chord_bytes_total",
        help: "Bytes that connections of clients carried.",
        kind: "counter",
        series: &[
            Series::Ring("{direction=\"read\"}", RingCount::BytesRead),
            Series::Ring("{direction=\"written\"}", RingCount::BytesWritten),
        ],
    },
    Metric {
        name: "chord_build_info",
        help: "1, with the version of the program.",
        kind: "gauge",
        series: &[Series::Ring("{version=\"0.1.0\"}", RingCount::One)],
    },
    Metric {
        name: "chord_uptime_seconds",
        help: "How long the server has run.",
        kind: "gauge",
        series: &[Series::Ring("", RingCount::Uptime)],
    },
    Metric {
        name: "process_resident_memory_bytes",
        help: "Memory that the process has.",
        kind: "gauge",
        series: &[Series::Ring("", RingCount::Resident)],
    },
    Metric {
        name: "process_cpu_seconds_total",
        help: "Time of a processor that the process took.",
        kind: "counter",
        series: &[Series::Ring("", RingCount::Processor)],
    },
];
