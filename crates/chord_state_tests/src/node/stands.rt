//! How a node stands between the lines of a script.

use chord_node::Node;
use chord_store::EntryStore;
use chord_testkit::{SpanText, Text};

/// Its phase, what it holds, what is in its outbox, and what it took.
pub fn stands<S: EntryStore>(node: &Node<S>) -> Text {
    let phase = node.phase();
    let text = Text::of(format_args!("{phase:?}"));
    let text = text.and_str(held(node).as_str(), 100);
    let text = with_pairs(text, node.pair_count());
    let text = text.and_str(outbox(node).as_str(), 100);
    with_taken(text, node)
}

/// The spans that it holds, and how many there are if that is another number.
fn held<S: EntryStore>(node: &Node<S>) -> Text {
    let mut text = Text::of("");
    let mut count = 0usize;
    for place in 0..8usize {
        if let Some(span) = node.span(place) {
            let span = SpanText(span);
            text = text.and(format_args!(" {span}"), 80);
            count = count.saturating_add(1);
        }
    }
    with_count(text, count, node.held_count())
}

fn with_count(text: Text, shown: usize, count: usize) -> Text {
    if shown == count {
        return text;
    }
    text.and(format_args!(" of {count}"), 24)
}

fn with_pairs(text: Text, pairs: u64) -> Text {
    if pairs == 0 {
        return text;
    }
    text.and(format_args!(" pairs {pairs}"), 32)
}

/// The items of the outbox, and how many there are if that is another number.
fn outbox<S: EntryStore>(node: &Node<S>) -> Text {
    let mut text = Text::of("");
    let mut count = 0usize;
    for place in 0..8u64 {
        if let Some((to, number, span)) = node.outbox_item(place) {
            let span = SpanText(span);
            let pairs = node.outbox_pairs(place).unwrap_or(usize::MAX);
            text = text.and(format_args!(" out {to}#{number} {span} {pairs}"), 80);
            count = count.saturating_add(1);
        }
    }
    with_count(text, count, node.outbox_len())
}

/// The numbers of the last handovers that it took from nodes 0, 1 and 2, if it took any.
fn with_taken<S: EntryStore>(text: Text, node: &Node<S>) -> Text {
    let of_0 = node.last_taken(0);
    let of_1 = node.last_taken(1);
    let of_2 = node.last_taken(2);
    if of_0 == 0 && of_1 == 0 && of_2 == 0 {
        return text;
    }
    text.and(format_args!(" took {of_0} {of_1} {of_2}"), 64)
}
