//! What tests of an operator and of `chord ring` share: a node that holds nothing, as
//! `empty_node(alloc, 3, 0, Phase::Gone)`, and a ring without nodes.

use chord_app_operator::{
    AnswerCounts, ByteCounts, CallerCounts, EndCounts, ProcessSight, ProtocolAnswers, RequestTimes,
    RingSight, SessionCounts, StoreKind, StoredNode,
};
use chord_ident::Id;
use chord_sight::{AskCounts, HandoverCounts, NodeCounts, NodeSight, Phase};
use std::alloc::{AllocError, Global};

const NO_COUNTS: NodeCounts = NodeCounts {
    asks: AskCounts {
        told: 0,
        forwarded: 0,
        dropped: 0,
        full: 0,
    },
    handovers: HandoverCounts {
        given: 0,
        taken: 0,
        declined: 0,
    },
    ticks: 0,
};

/// A node that knows and holds nothing, and did nothing.
pub fn empty_node(alloc: Global, node: u64, number: u128, phase: Phase) -> StoredNode {
    StoredNode {
        sight: NodeSight {
            number: node,
            id: Id::new(number),
            phase,
            predecessor: None,
            successors: Vec::new(alloc),
            fingers: 0,
            segments: Vec::new(alloc),
            pairs: 0,
            outbox: Vec::new(alloc),
            counts: NO_COUNTS,
        },
        store: StoreKind::Tree,
    }
}

/// The node, if it got its lists.
pub fn filled(outcome: Result<(), AllocError>, node: StoredNode) -> Result<StoredNode, AllocError> {
    match outcome {
        Ok(()) => Ok(node),
        Err(refused) => {
            drop(node);
            Err(refused)
        }
    }
}

/// A ring without nodes, each of whose counts is another number.
pub fn empty_ring(alloc: Global) -> RingSight {
    RingSight {
        successors: 4,
        slots: 16,
        ever: 41,
        premise: true,
        callers: CallerCounts {
            open: 3,
            all: 64,
            pending: 2,
        },
        connections: 5,
        ends: EndCounts {
            ended: 10,
            truncated: 11,
            malformed: 12,
            protocol: 13,
            read: 14,
            write: 15,
            turns_spent: 16,
            memory: 17,
            callers_spent: 18,
            idle: 19,
        },
        sessions: SessionCounts {
            kept: 20,
            resumed: 21,
            dropped: 22,
            refused: 23,
        },
        answers: ProtocolAnswers {
            frames: AnswerCounts {
                reply: 24,
                full: 25,
                no_answer: 26,
                memory: 27,
                refused: 28,
            },
            redis: AnswerCounts {
                reply: 29,
                full: 30,
                no_answer: 31,
                memory: 32,
                refused: 33,
            },
        },
        times: RequestTimes {
            within: Vec::new(alloc),
            count: 36,
            sum: 1234567,
        },
        bytes: ByteCounts {
            read: 37,
            written: 38,
        },
        process: ProcessSight {
            resident: 4096,
            processor_ms: 1250,
        },
        uptime_ms: 12345,
        past_forwards: 40,
        nodes: Vec::new(alloc),
    }
}

/// The ring, if it got its nodes.
pub fn peopled(outcome: Result<(), AllocError>, ring: RingSight) -> Result<RingSight, AllocError> {
    match outcome {
        Ok(()) => Ok(ring),
        Err(refused) => {
            drop(ring);
            Err(refused)
        }
    }
}
