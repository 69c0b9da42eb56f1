//! A ring as JSON.
ghost use Rattle.std.specs.Prelude.{◌≡◌, string_bytes, IfOk, OnOk};
ghost use Rattle.serde_json.specs.Written.{compact_text};
ghost use Rattle.serde_json.specs.View.{view, members_view};
ghost use Rattle.chord_app_operator.specs.Json.{with_members, span_members, server_members, name_members, link_members, held_members, done_members, segment_data, outbox_data, asks_data, handovers_data, callers_data, answers_data, protocols_data, ends_data, sessions_data, node_data, ring_data};

use super::json::{ToJson, array, optional};
use super::members::{counts_value, put_counts, put_id, put_word};
use crate::sight::{
    AnswerCounts, CallerCounts, EndCounts, ProtocolAnswers, RingSight, SessionCounts, StoredNode,
};
use chord_ident::Span;
use chord_sight::{AskCounts, HandoverCounts, NodeSight, OutboxSight, SegmentSight};
use serde_json::{Map, Value, put};
use std::alloc::{AllocError, Global};

// Where the identifiers of a span lie.
fn put_span(alloc: Global, span: Span, members: &mut Map<String, Value>) -> Result<(), AllocError>
    ensures { OnOk result (members_view members.new.entries ≡ with_members (members_view members.old.entries) (span_members span)) }
{
    put_id(alloc, "after", span.after, members)?;
    put_id(alloc, "upto", span.upto, members)
}

impl ToJson for SegmentSight {
    ghost data_of = { segment_data };

    fn to_json(&self, alloc: Global) -> Result<Value, AllocError> {
        let mut members = Map::new(alloc);
        put_span(alloc, self.span, &mut members)?;
        put_counts(alloc, &[("kept", self.kept)], &mut members)?;
        Ok(Value::Object(members))
    }
}

impl ToJson for OutboxSight {
    ghost data_of = { outbox_data };

    fn to_json(&self, alloc: Global) -> Result<Value, AllocError> {
        let mut members = Map::new(alloc);
        put_counts(
            alloc,
            &[("to", self.to), ("number", self.number)],
            &mut members,
        )?;
        put_span(alloc, self.span, &mut members)?;
        put_counts(alloc, &[("pairs", self.pairs)], &mut members)?;
        Ok(Value::Object(members))
    }
}

impl ToJson for AskCounts {
    ghost data_of = { asks_data };

    fn to_json(&self, alloc: Global) -> Result<Value, AllocError> {
        let counts = [
            ("told", self.told),
            ("forwarded", self.forwarded),
            ("dropped", self.dropped),
            ("full", self.full),
        ];
        counts_value(alloc, &counts)
    }
}

impl ToJson for EndCounts {
    ghost data_of = { ends_data };

    fn to_json(&self, alloc: Global) -> Result<Value, AllocError> {
        let counts = [
            ("ended", self.ended),
            ("truncated", self.truncated),
            ("malformed", self.malformed),
            ("protocol", self.protocol),
            ("read", self.read),
            ("write", self.write),
            ("turnsspent", self.turns_spent),
            ("memory", self.memory),
            ("callersspent", self.callers_spent),
            ("idle", self.idle),
        ];
        counts_value(alloc, &counts)
    }
}

impl ToJson for SessionCounts {
    ghost data_of = { sessions_data };

    fn to_json(&self, alloc: Global) -> Result<Value, AllocError> {
        let counts = [
            ("kept", self.kept),
            ("resumed", self.resumed),
            ("dropped", self.dropped),
            ("refused", self.refused),
        ];
        counts_value(alloc, &counts)
    }
}

impl ToJson for HandoverCounts {
    ghost data_of = { handovers_data };

    fn to_json(&self, alloc: Global) -> Result<Value, AllocError> {
        let counts = [
            ("given", self.given),
            ("taken", self.taken),
            ("declined", self.declined),
        ];
        counts_value(alloc, &counts)
    }
}

impl ToJson for CallerCounts {
    ghost data_of = { callers_data };

    fn to_json(&self, alloc: Global) -> Result<Value, AllocError> {
        let counts = [
            ("open", self.open),
            ("all", self.all),
            ("pending", self.pending),
        ];
        counts_value(alloc, &counts)
    }
}

impl ToJson for AnswerCounts {
    ghost data_of = { answers_data };

    fn to_json(&self, alloc: Global) -> Result<Value, AllocError> {
        let counts = [
            ("reply", self.reply),
            ("full", self.full),
            ("noanswer", self.no_answer),
            ("memory", self.memory),
            ("refused", self.refused),
        ];
        counts_value(alloc, &counts)
    }
}

impl ToJson for ProtocolAnswers {
    ghost data_of = { protocols_data };

    fn to_json(&self, alloc: Global) -> Result<Value, AllocError> {
        let mut members = Map::new(alloc);
        put(&mut members, alloc, "frames", self.frames.to_json(alloc)?)?;
        put(&mut members, alloc, "redis", self.redis.to_json(alloc)?)?;
        Ok(Value::Object(members))
    }
}

// Which node it is.
fn put_name(
    alloc: Global,
    node: &StoredNode,
    members: &mut Map<String, Value>,
) -> Result<(), AllocError>
    ensures { OnOk result (members_view members.new.entries ≡ with_members (members_view members.old.entries) (name_members node.now)) }
{
    put(members, alloc, "node", Value::from(node.sight.number))?;
    put_id(alloc, "id", node.sight.id, members)?;
    put_word(alloc, "phase", node.sight.phase.word(), members)?;
    put_word(alloc, "store", node.store.word(), members)
}

// Its links.
fn put_links(
    alloc: Global,
    node: &NodeSight,
    members: &mut Map<String, Value>,
) -> Result<(), AllocError>
    ensures { OnOk result (members_view members.new.entries ≡ with_members (members_view members.old.entries) (link_members node.now)) }
{
    put(members, alloc, "predecessor", optional(node.predecessor))?;
    put(
        members,
        alloc,
        "successors",
        array(alloc, &node.successors)?,
    )?;
    put(members, alloc, "fingers", Value::from(node.fingers))
}

// What it holds.
fn put_held(
    alloc: Global,
    node: &NodeSight,
    members: &mut Map<String, Value>,
) -> Result<(), AllocError>
    ensures { OnOk result (members_view members.new.entries ≡ with_members (members_view members.old.entries) (held_members node.now)) }
{
    put(members, alloc, "segments", array(alloc, &node.segments)?)?;
    put(members, alloc, "pairs", Value::from(node.pairs))?;
    put(members, alloc, "outbox", array(alloc, &node.outbox)?)
}

// What it did.
fn put_done(
    alloc: Global,
    node: &NodeSight,
    members: &mut Map<String, Value>,
) -> Result<(), AllocError>
    ensures { OnOk result (members_view members.new.entries ≡ with_members (members_view members.old.entries) (done_members node.now)) }
{
    put(members, alloc, "asks", node.counts.asks.to_json(alloc)?)?;
    put(
        members,
        alloc,
        "handovers",
        node.counts.handovers.to_json(alloc)?,
    )?;
    put(members, alloc, "ticks", Value::from(node.counts.ticks))
}

impl ToJson for StoredNode {
    ghost data_of = { node_data };

    fn to_json(&self, alloc: Global) -> Result<Value, AllocError> {
        let mut members = Map::new(alloc);
        put_name(alloc, self, &mut members)?;
        put_links(alloc, &self.sight, &mut members)?;
        put_held(alloc, &self.sight, &mut members)?;
        put_done(alloc, &self.sight, &mut members)?;
        Ok(Value::Object(members))
    }
}

// What a ring has beside its nodes.
fn put_server(
    alloc: Global,
    ring: &RingSight,
    members: &mut Map<String, Value>,
) -> Result<(), AllocError>
    ensures { OnOk result (members_view members.new.entries ≡ with_members (members_view members.old.entries) (server_members ring.now)) }
{
    let sizes = [
        ("successors", ring.successors),
        ("slots", ring.slots),
        ("nodes_gone", ring.gone()),
    ];
    put_counts(alloc, &sizes, members)?;
    put(members, alloc, "premise", Value::from(ring.premise))?;
    put(members, alloc, "callers", ring.callers.to_json(alloc)?)?;
    put_counts(alloc, &[("connections", ring.connections)], members)?;
    put(members, alloc, "ends", ring.ends.to_json(alloc)?)?;
    put(members, alloc, "sessions", ring.sessions.to_json(alloc)?)?;
    put(members, alloc, "answers", ring.answers.to_json(alloc)?)?;
    put_counts(alloc, &[("uptime_ms", ring.uptime_ms)], members)
}

impl ToJson for RingSight {
    ghost data_of = { ring_data };

    fn to_json(&self, alloc: Global) -> Result<Value, AllocError> {
        let mut members = Map::new(alloc);
        put_server(alloc, self, &mut members)?;
        let nodes = array(alloc, &self.nodes)?;
        put(&mut members, alloc, "nodes", nodes)?;
        Ok(Value::Object(members))
    }
}

/// A ring as the text of `GET /ring`.
pub fn ring_text(alloc: Global, sight: &RingSight) -> Result<String, AllocError>
    ensures { IfOk result (λ text. string_bytes text ≡ compact_text (ring_data sight.now)) }
{
    let value = sight.to_json(alloc)?;
    let text = value.to_string(alloc);
    drop(value);
    text
}
