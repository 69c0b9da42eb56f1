//! The numbers of a ring and its server.
ghost use Rattle.std.specs.Prelude.{◌≡◌};
ghost use Rattle.std.specs.List.{count_by};
ghost use Rattle.chord_app_operator.specs.Metrics.{forwards_of, is_in, ring_count, scale};

use super::answer_count::AnswerCount;
use crate::sight::{RingSight, StoredNode};
use chord_sight::Phase;

/// A number of a ring or of its server.
#[derive(Clone, Copy, Debug, PartialEq, Eq)]
pub enum RingCount {
    /// The nodes in this phase.
    Nodes(Phase),
    /// The nodes that are gone, of all that ever were.
    Gone,
    /// 1 as long as the ring allowed each crash.
    Premise,
    Connections,
    CallersOpen,
    CallersPending,
    Ended,
    Truncated,
    Malformed,
    Protocol,
    Read,
    Write,
    TurnsSpent,
    Memory,
    CallersSpent,
    Idle,
    Kept,
    Resumed,
    Dropped,
    Refused,
    /// Of the answers in frames.
    Frames(AnswerCount),
    /// Of the answers in Redis's protocol.
    Redis(AnswerCount),
    /// How often nodes passed requests on, all together.
    Forwards,
    BytesRead,
    BytesWritten,
    /// 1, which carries labels.
    One,
    /// In milliseconds.
    Uptime,
    Resident,
    /// In milliseconds.
    Processor,
}

// How many nodes are in the phase.
fn count_in(phase: Phase, nodes: &[StoredNode]) -> u64
    ensures { result ≡ count_by (is_in phase) nodes.now }
{
    let mut count = 0u64;
    for node in nodes {
        if node.sight.phase == phase {
            count += 1;
        }
    }
    count
}

// How often the nodes passed requests on, and `past` times more; a sum that does not fit is
// 2^64 - 1.
fn forwards_of(past: u64, nodes: &[StoredNode]) -> u64
    ensures { result ≡ forwards_of past nodes.now }
{
    let mut all = past;
    for node in nodes {
        all = all.saturating_add(node.sight.counts.asks.forwarded);
    }
    all
}

impl RingCount {
    /// The number.
    pub fn of(self, ring: &RingSight) -> u64
        ensures { result ≡ ring_count self ring.now }
    {
        match self {
            RingCount::Nodes(phase) => count_in(phase, &ring.nodes),
            RingCount::Gone => ring.gone(),
            RingCount::Premise => u64::from(ring.premise),
            RingCount::Connections => ring.connections,
            RingCount::CallersOpen => ring.callers.open,
            RingCount::CallersPending => ring.callers.pending,
            RingCount::Ended => ring.ends.ended,
            RingCount::Truncated => ring.ends.truncated,
            RingCount::Malformed => ring.ends.malformed,
            RingCount::Protocol => ring.ends.protocol,
            RingCount::Read => ring.ends.read,
            RingCount::Write => ring.ends.write,
            RingCount::TurnsSpent => ring.ends.turns_spent,
            RingCount::Memory => ring.ends.memory,
            RingCount::CallersSpent => ring.ends.callers_spent,
            RingCount::Idle => ring.ends.idle,
            RingCount::Kept => ring.sessions.kept,
            RingCount::Resumed => ring.sessions.resumed,
            RingCount::Dropped => ring.sessions.dropped,
            RingCount::Refused => ring.sessions.refused,
            RingCount::Frames(count) => count.of(&ring.answers.frames),
            RingCount::Redis(count) => count.of(&ring.answers.redis),
            RingCount::Forwards => forwards_of(ring.past_forwards, &ring.nodes),
            RingCount::BytesRead => ring.bytes.read,
            RingCount::BytesWritten => ring.bytes.written,
            RingCount::One => 1,
            RingCount::Uptime => ring.uptime_ms,
            RingCount::Resident => ring.process.resident,
            RingCount::Processor => ring.process.processor_ms,
        }
    }

    /// What stands behind the number so that it is in seconds.
    pub(super) fn scale(self) -> &'static str
        ensures { result.now ≡ scale self }
    {
        match self {
            RingCount::Uptime | RingCount::Processor => "e-3",
            _ => "",
        }
    }
}
