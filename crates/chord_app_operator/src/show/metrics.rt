//! A ring in Prometheus's text format.
ghost use Rattle.std.specs.Prelude.{◌≡◌, ◌++◌, string_bytes, IfOk, OnOk};
ghost use Rattle.std.specs.List.{flat_map};
ghost use Rattle.chord_app_operator.specs.Metrics.{value_line, line_of_node, node_line, ring_line, bound_label, within_line, whole_label, whole_line, times_lines, comment_line, lines_of, text_of, metrics_text};

use super::metric::{METRICS, Metric, Series};
use super::node_count::NodeCount;
use crate::request::Rows;
use crate::sight::{RequestTimes, RingSight, StoredNode, TimeCount};
use itoa::Buffer;
use std::alloc::{AllocError, Global};

// A number, what stands behind it, and the end of its line.
fn add_value(text: &mut String, value: u64, scale: &str) -> Result<(), AllocError>
    ensures { OnOk result (string_bytes text.new ≡ string_bytes text.old ++ value_line value scale.now) }
{
    let mut buffer = Buffer::new();
    text.push_str(" ")?;
    text.push_str(buffer.format(value))?;
    text.push_str(scale)?;
    text.push_str("\n")
}

fn add_line_of_node(
    text: &mut String,
    name: &str,
    labels: &str,
    count: NodeCount,
    node: &StoredNode,
) -> Result<(), AllocError>
    ensures { OnOk result (string_bytes text.new
        ≡ string_bytes text.old ++ line_of_node name.now labels.now count node.now) }
{
    let mut buffer = Buffer::new();
    text.push_str(name)?;
    text.push_str("{node=\"")?;
    text.push_str(buffer.format(node.sight.number))?;
    text.push_str("\"")?;
    text.push_str(labels)?;
    text.push_str("}")?;
    add_value(text, count.of(&node.sight), "")
}

// The same, unless the node is gone.
fn add_node_line(
    text: &mut String,
    name: &str,
    labels: &str,
    count: NodeCount,
    node: &StoredNode,
) -> Result<(), AllocError>
    ensures { OnOk result (string_bytes text.new ≡ string_bytes text.old ++ node_line name.now labels.now count node.now) }
{
    if Rows::Present.has(node.sight.phase) {
        add_line_of_node(text, name, labels, count, node)
    } else {
        Ok(())
    }
}

fn add_node_lines(
    text: &mut String,
    name: &str,
    labels: &str,
    count: NodeCount,
    nodes: &[StoredNode],
) -> Result<(), AllocError>
    ensures { OnOk result (string_bytes text.new ≡ string_bytes text.old ++ flat_map (node_line name.now labels.now count) nodes.now) }
{
    for node in nodes {
        add_node_line(text, name, labels, count, node)?;
    }
    Ok(())
}

// The line of a number of the ring.
fn add_ring_line(
    text: &mut String,
    name: &str,
    labels: &str,
    value: u64,
    scale: &str,
) -> Result<(), AllocError>
    ensures { OnOk result (string_bytes text.new ≡ string_bytes text.old ++ ring_line name.now labels.now value scale.now) }
{
    text.push_str(name)?;
    text.push_str(labels)?;
    add_value(text, value, scale)
}

// A bound in millionths of a second, as the label of a line.
fn add_bound(text: &mut String, upto: u64) -> Result<(), AllocError>
    ensures { OnOk result (string_bytes text.new ≡ string_bytes text.old ++ bound_label upto) }
{
    let mut buffer = Buffer::new();
    text.push_str("{le=\"")?;
    text.push_str(buffer.format(upto))?;
    text.push_str("e-6\"}")
}

// How many requests took at most a time.
fn add_within(text: &mut String, name: &str, within: &TimeCount) -> Result<(), AllocError>
    ensures { OnOk result (string_bytes text.new ≡ string_bytes text.old ++ within_line name.now within.now) }
{
    text.push_str(name)?;
    text.push_str("_bucket")?;
    add_bound(text, within.upto)?;
    add_value(text, within.count, "")
}

fn add_all_within(text: &mut String, name: &str, all: &[TimeCount]) -> Result<(), AllocError>
    ensures { OnOk result (string_bytes text.new ≡ string_bytes text.old ++ flat_map (within_line name.now) all.now) }
{
    for within in all {
        add_within(text, name, within)?;
    }
    Ok(())
}

// The label of all requests, however long they took.
fn add_whole_label(text: &mut String) -> Result<(), AllocError>
    ensures { OnOk result (string_bytes text.new ≡ string_bytes text.old ++ whole_label) }
{
    text.push_str("{le=\"+Inf\"}")
}

// How many requests there were.
fn add_whole(text: &mut String, name: &str, count: u64) -> Result<(), AllocError>
    ensures { OnOk result (string_bytes text.new ≡ string_bytes text.old ++ whole_line name.now count) }
{
    text.push_str(name)?;
    text.push_str("_bucket")?;
    add_whole_label(text)?;
    add_value(text, count, "")
}

fn add_times(text: &mut String, name: &str, times: &RequestTimes) -> Result<(), AllocError>
    ensures { OnOk result (string_bytes text.new ≡ string_bytes text.old ++ times_lines name.now times.now) }
{
    add_all_within(text, name, &times.within)?;
    add_whole(text, name, times.count)?;
    add_ring_line(text, name, "_sum", times.sum, "e-6")?;
    add_ring_line(text, name, "_count", times.count, "")
}

fn add_series(
    text: &mut String,
    name: &str,
    series: &Series,
    ring: &RingSight,
) -> Result<(), AllocError>
    ensures { OnOk result (string_bytes text.new ≡ string_bytes text.old ++ lines_of name.now ring.now series.now) }
{
    match series {
        Series::Node(labels, count) => add_node_lines(text, name, labels, *count, &ring.nodes),
        Series::Ring(labels, count) => {
            add_ring_line(text, name, labels, count.of(ring), count.scale())
        }
        Series::Times => add_times(text, name, &ring.times),
    }
}

fn add_all_series(
    text: &mut String,
    name: &str,
    all: &[Series],
    ring: &RingSight,
) -> Result<(), AllocError>
    ensures { OnOk result (string_bytes text.new ≡ string_bytes text.old ++ flat_map (lines_of name.now ring.now) all.now) }
{
    for series in all {
        add_series(text, name, series, ring)?;
    }
    Ok(())
}

// A line of what a metric says, or of its kind.
fn add_comment(text: &mut String, word: &str, name: &str, said: &str) -> Result<(), AllocError>
    ensures { OnOk result (string_bytes text.new ≡ string_bytes text.old ++ comment_line word.now name.now said.now) }
{
    text.push_str(word)?;
    text.push_str(name)?;
    text.push_str(" ")?;
    text.push_str(said)?;
    text.push_str("\n")
}

fn add_metric(text: &mut String, metric: &Metric, ring: &RingSight) -> Result<(), AllocError>
    ensures { OnOk result (string_bytes text.new ≡ string_bytes text.old ++ text_of ring.now metric.now) }
{
    add_comment(text, "# HELP ", metric.name, metric.help)?;
    add_comment(text, "# TYPE ", metric.name, metric.kind)?;
    add_all_series(text, metric.name, metric.series, ring)
}

fn add_metrics(text: &mut String, metrics: &[Metric], ring: &RingSight) -> Result<(), AllocError>
    ensures { OnOk result (string_bytes text.new ≡ string_bytes text.old ++ flat_map (text_of ring.now) metrics.now) }
{
    for metric in metrics {
        add_metric(text, metric, ring)?;
    }
    Ok(())
}

/// A ring as the text of `GET /metrics`.
pub fn metrics_text(alloc: Global, ring: &RingSight) -> Result<String, AllocError>
    ensures { IfOk result (λ text. string_bytes text ≡ metrics_text ring.now) }
{
    let mut text = String::new(alloc);
    add_metrics(&mut text, &METRICS, ring)?;
    Ok(text)
}
