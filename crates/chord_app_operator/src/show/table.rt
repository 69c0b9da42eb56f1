//! A ring as a table.
ghost use Rattle.std.specs.Prelude.{◌≡◌, ◌++◌, length, replicate, string_bytes, IfOk, OnOk};
ghost use Rattle.std.specs.List.{flat_map};
ghost use Rattle.chord_app_operator.specs.Lines.{right, left, two_digits, share_text, item_text, further_item, outbox_text, name_cells, held_cells, node_row, told_text, server_line, premise_line, server_lines, ring_table};

use super::json::id_text;
use super::share::hundredths;
use crate::sight::{RingSight, StoredNode};
use chord_sight::{NodeSight, OutboxSight};
use itoa::Buffer;
use std::alloc::{AllocError, Global};

fn add_spaces(text: &mut String, count: usize) -> Result<(), AllocError>
    ensures { OnOk result (string_bytes text.new ≡ string_bytes text.old ++ replicate count 32) }
{
    for _place in 0..count {
        text.push_str(" ")?;
    }
    Ok(())
}

// A word at the right of a column of this width.
fn add_right(text: &mut String, width: usize, word: &str) -> Result<(), AllocError>
    ensures { OnOk result (string_bytes text.new ≡ string_bytes text.old ++ right width word.now) }
{
    add_spaces(text, width.saturating_sub(word.len()))?;
    text.push_str(word)
}

// A word at the left of such a column.
fn add_left(text: &mut String, width: usize, word: &str) -> Result<(), AllocError>
    ensures { OnOk result (string_bytes text.new ≡ string_bytes text.old ++ left width word.now) }
{
    text.push_str(word)?;
    add_spaces(text, width.saturating_sub(word.len()))
}

fn add_two_digits(text: &mut String, number: u128) -> Result<(), AllocError>
    ensures { OnOk result (string_bytes text.new ≡ string_bytes text.old ++ two_digits number) }
{
    let mut buffer = Buffer::new();
    if number < 10 {
        text.push_str("0")?;
        return text.push_str(buffer.format(number));
    }
    text.push_str(buffer.format(number))
}

// Hundredths of a percent.
fn add_share(text: &mut String, share: u128) -> Result<(), AllocError>
    ensures { OnOk result (string_bytes text.new ≡ string_bytes text.old ++ share_text share) }
{
    let mut buffer = Buffer::new();
    add_right(text, 3, buffer.format(share / 100))?;
    text.push_str(".")?;
    add_two_digits(text, share % 100)?;
    text.push_str("%")
}

// A handover that is under way.
fn add_item(text: &mut String, item: &OutboxSight) -> Result<(), AllocError>
    ensures { OnOk result (string_bytes text.new ≡ string_bytes text.old ++ item_text item.now) }
{
    let mut buffer = Buffer::new();
    text.push_str(buffer.format(item.pairs))?;
    text.push_str(" to ")?;
    text.push_str(buffer.format(item.to))
}

fn add_further_item(text: &mut String, item: &OutboxSight) -> Result<(), AllocError>
    ensures { OnOk result (string_bytes text.new ≡ string_bytes text.old ++ further_item item.now) }
{
    text.push_str(", ")?;
    add_item(text, item)
}

fn add_further_items(text: &mut String, items: &[OutboxSight]) -> Result<(), AllocError>
    ensures { OnOk result (string_bytes text.new ≡ string_bytes text.old ++ flat_map further_item items.now) }
{
    for item in items {
        add_further_item(text, item)?;
    }
    Ok(())
}

fn add_outbox(text: &mut String, outbox: &[OutboxSight]) -> Result<(), AllocError>
    ensures { OnOk result (string_bytes text.new ≡ string_bytes text.old ++ outbox_text outbox.now) }
{
    match outbox.split_first() {
        Some((first, rest)) => {
            add_item(text, first)?;
            add_further_items(text, rest)
        }
        None => text.push_str("-"),
    }
}

// Which node it is.
fn add_name(alloc: Global, text: &mut String, node: &NodeSight) -> Result<(), AllocError>
    ensures { OnOk result (string_bytes text.new ≡ string_bytes text.old ++ name_cells node.now) }
{
    let mut buffer = Buffer::new();
    let id = id_text(alloc, node.id)?;
    add_right(text, 4, buffer.format(node.number))?;
    text.push_str("  ")?;
    text.push_str(&id)?;
    text.push_str("  ")?;
    add_left(text, 8, node.phase.word())?;
    text.push_str("  ")
}

// What it holds.
fn add_held(text: &mut String, node: &NodeSight) -> Result<(), AllocError>
    ensures { OnOk result (string_bytes text.new ≡ string_bytes text.old ++ held_cells node.now) }
{
    let mut buffer = Buffer::new();
    add_share(text, hundredths(&node.segments))?;
    text.push_str("  ")?;
    add_right(text, 9, buffer.format(node.pairs))?;
    text.push_str("  ")?;
    add_right(text, 8, buffer.format(node.segments.len()))?;
    text.push_str("  ")
}

fn add_row(alloc: Global, text: &mut String, node: &StoredNode) -> Result<(), AllocError>
    ensures { OnOk result (string_bytes text.new ≡ string_bytes text.old ++ node_row node.now) }
{
    add_name(alloc, text, &node.sight)?;
    add_held(text, &node.sight)?;
    add_outbox(text, &node.sight.outbox)?;
    text.push_str("\n")
}

fn add_rows(alloc: Global, text: &mut String, nodes: &[StoredNode]) -> Result<(), AllocError>
    ensures { OnOk result (string_bytes text.new ≡ string_bytes text.old ++ flat_map node_row nodes.now) }
{
    for node in nodes {
        add_row(alloc, text, node)?;
    }
    Ok(())
}

// A number, and what stands behind it.
#[derive(Clone, Copy)]
struct Told(u64, &'static str);

fn add_told(text: &mut String, told: &Told) -> Result<(), AllocError>
    ensures { OnOk result (string_bytes text.new ≡ string_bytes text.old ++ told_text told.now) }
{
    let mut buffer = Buffer::new();
    text.push_str(buffer.format(told.0))?;
    text.push_str(told.1)
}

fn add_all_told(text: &mut String, all: &[Told]) -> Result<(), AllocError>
    ensures { OnOk result (string_bytes text.new ≡ string_bytes text.old ++ flat_map told_text all.now) }
{
    for told in all {
        add_told(text, told)?;
    }
    Ok(())
}

fn nodes_of(ring: &RingSight) -> u64
    ensures { result ≡ length ring.now.nodes.items }
{
    ring.nodes.len() as u64
}

// What a server tells of itself.
fn add_server(text: &mut String, ring: &RingSight) -> Result<(), AllocError>
    ensures { OnOk result (string_bytes text.new ≡ string_bytes text.old ++ server_line ring.now) }
{
    let all = [
        Told(ring.uptime_ms / 1000, " s, "),
        Told(nodes_of(ring), " of "),
        Told(ring.slots, " slots used, "),
        Told(ring.gone(), " gone, "),
        Told(ring.successors, " successors, "),
        Told(ring.connections, " connections, "),
        Told(ring.callers.open, " of "),
        Told(ring.callers.all, " callers open\n"),
    ];
    text.push_str("up ")?;
    add_all_told(text, &all)
}

fn add_premise(text: &mut String, premise: bool) -> Result<(), AllocError>
    ensures { OnOk result (string_bytes text.new ≡ string_bytes text.old ++ premise_line premise) }
{
    if premise {
        return Ok(());
    }
    text.push_str("a crash was forced that the ring did not allow: start a new ring\n")
}

fn add_head(text: &mut String, ring: &RingSight) -> Result<(), AllocError>
    ensures { OnOk result (string_bytes text.new ≡ string_bytes text.old ++ server_lines ring.now) }
{
    add_server(text, ring)?;
    add_premise(text, ring.premise)
}

/// A ring as people read it: what the server tells of itself, in a line or two, a line for the
/// columns, and one for each node.
pub fn ring_table(alloc: Global, ring: &RingSight) -> Result<String, AllocError>
    ensures { IfOk result (λ table. string_bytes table ≡ ring_table ring.now) }
{
    let mut text = String::new(alloc);
    add_head(&mut text, ring)?;
    text.push_str(
        "node  identifier                        phase       share      pairs  segments  outbox\n",
    )?;
    add_rows(alloc, &mut text, &ring.nodes)?;
    Ok(text)
}
