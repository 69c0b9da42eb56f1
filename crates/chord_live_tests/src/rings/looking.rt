//! What scripts look at in a ring.
//!
//! - `sight 0`: how a node looks to an operator (`of_sight`); `seen 0`: its phase and how many pairs
//!   it has. `page 0 A`: the page of one pair from
//!   an identifier on, and where the next one begins. `holding 0 A`: who holds the identifier, as
//!   node 0 knows.
//! - `lists 0`: the nodes that it lists. `finger 0 1`: its first finger at node 1. `all-links`: the
//!   nodes whose links are read at once, which must be those that each has, and of how many.
//!   `skips B`: whether a list of a member skips the identifier. `safe`: whether each list has a
//!   member, and the ring allowed each crash; `premise`: the latter alone.
//! - `passed-on 2 9`: whether nodes 1, 2 and 3 passed on from 2 to 9 requests in all.
//! - `phase 0`, `live 0`, `admitted 0`, `nodes`, `settings`, `stopped`.
//! - `rest 5`: whether a rest of 5 ms ended early. `begin-journal`, `mark`.

use super::running::place;
use chord_app_text::{GrammarFault, LineFault, Words};
use chord_ident::{Id, between};
use chord_links::Links;
use chord_live_ring::Ring;
use chord_node::PairsPage;
use chord_sight::NodeSight;
use chord_store::EntryStore;
use chord_table::Naming;
use chord_testkit::{IdText, PairText, SpanText, Text, name_of, yes_or_no};
use std::alloc::Global;
use std::sync::Wait;
use std::time::Clock;

pub fn look<J: Naming, S: EntryStore, R: Wait + Clock>(
    rt: &R,
    alloc: Global,
    ring: &Ring<J, S>,
    words: &mut Words,
) -> Result<Text, LineFault> {
    let line = *words;
    match words.word()? {
        "premise" => Ok(yes_or_no(ring.holds_premise(rt))),
        "safe" => Ok(yes_or_no(is_safe(rt, ring))),
        "skips" => Ok(yes_or_no(skips_any(rt, ring, place(words)?))),
        "all-links" => all_links(rt, alloc, ring),
        "passed-on" => {
            let passed = passed_on(rt, alloc, ring);
            let least = words.number()?;
            Ok(yes_or_no(least <= passed && passed <= words.number()?))
        }
        "nodes" => Ok(name_of(&ring.node_count())),
        "past-forwards" => Ok(name_of(&ring.past_forwards())),
        "settings" => Ok(name_of(&ring.settings())),
        "stopped" => Ok(yes_or_no(ring.is_stopped())),
        "rest" => Ok(yes_or_no(ring.rest(rt, words.number()?))),
        "begin-journal" => Ok(yes_or_no(ring.begin_journal())),
        "mark" => Ok(name_of(&ring.journal_mark())),
        _ => {
            *words = line;
            look_at_node(rt, alloc, ring, words)
        }
    }
}

fn look_at_node<J: Naming, S: EntryStore, R: Wait>(
    rt: &R,
    alloc: Global,
    ring: &Ring<J, S>,
    words: &mut Words,
) -> Result<Text, LineFault> {
    let deed = words.word()?;
    let number = words.number()?;
    match deed {
        "sight" => match ring.sight(rt, alloc, number)? {
            Some(sight) => {
                let text = of_sight(&sight);
                drop(sight);
                Ok(text)
            }
            None => Ok(Text::of("None")),
        },
        "seen" => match ring.sight(rt, alloc, number)? {
            Some(sight) => {
                let phase = sight.phase;
                let pairs = sight.pairs;
                drop(sight);
                Ok(Text::of(format_args!("{phase:?} pairs {pairs}")))
            }
            None => Ok(Text::of("None")),
        },
        "page" => match ring.pairs_from(rt, alloc, number, place(words)?, 1)? {
            Some(page) => {
                let text = of_page(&page);
                drop(page);
                Ok(text)
            }
            None => Ok(Text::of("None")),
        },
        "holding" => Ok(name_of(&ring.holding(rt, number, place(words)?))),
        "phase" => Ok(name_of(&ring.phase_of(rt, number))),
        "live" => Ok(yes_or_no(ring.is_live(number))),
        "admitted" => Ok(yes_or_no(ring.has_slot(number))),
        "lists" => Ok(lists(ring.links_of(rt, number))),
        "finger" => {
            let at = words.number()?;
            Ok(name_of(&finger_at(ring.links_of(rt, number), at)))
        }
        _ => Err(GrammarFault::NoLine.into()),
    }
}

/// How a node looks, if there is one, and memory to look.
pub fn sight_of<J: Naming, S: EntryStore, R: Wait>(
    rt: &R,
    alloc: Global,
    ring: &Ring<J, S>,
    number: u64,
) -> Option<NodeSight> {
    ring.sight(rt, alloc, number).ok()?
}

/// How many requests nodes 1, 2 and 3 passed on.
fn passed_on<J: Naming, S: EntryStore, R: Wait>(rt: &R, alloc: Global, ring: &Ring<J, S>) -> u64 {
    let mut passed = 0u64;
    for number in 1..4u64 {
        if let Some(sight) = sight_of(rt, alloc, ring, number) {
            passed = passed.saturating_add(sight.counts.asks.forwarded);
            drop(sight);
        }
    }
    passed
}

/// Its number, identifier and phase; its predecessor and successors; how many fingers; each segment
/// with the replies that it keeps; how many pairs; what it gives, as `1#2 (A C] 3`; the requests
/// that it told, passed on, dropped and had no room for; the handovers that it gave, took and had
/// declined; and its rounds.
fn of_sight(sight: &NodeSight) -> Text {
    let number = sight.number;
    let id = IdText(sight.id);
    let phase = sight.phase;
    let before = sight.predecessor;
    let behind = name_of(&sight.successors.as_slice());
    let behind = behind.as_str();
    let text = Text::of(format_args!("{number}@{id} {phase:?} {before:?} {behind}"));
    let fingers = sight.fingers;
    let text = text.and(format_args!(" fingers {fingers}"), 40);
    let pairs = sight.pairs;
    let text = with_held(text, sight).and(format_args!(" pairs {pairs}"), 40);
    let asks = sight.counts.asks;
    let given = sight.counts.handovers.given;
    let taken = sight.counts.handovers.taken;
    let declined = sight.counts.handovers.declined;
    let ticks = sight.counts.ticks;
    let text = text.and(
        format_args!(
            " asks {} {} {} {}",
            asks.told, asks.forwarded, asks.dropped, asks.full
        ),
        60,
    );
    text.and(
        format_args!(" handovers {given} {taken} {declined} ticks {ticks}"),
        60,
    )
}

/// What it holds and what it gives.
fn with_held(mut text: Text, sight: &NodeSight) -> Text {
    for segment in sight.segments.as_slice() {
        let span = SpanText(segment.span);
        let kept = segment.kept;
        text = text.and(format_args!(" {span} {kept}"), 90);
    }
    for item in sight.outbox.as_slice() {
        let span = SpanText(item.span);
        let to = item.to;
        let number = item.number;
        let pairs = item.pairs;
        text = text.and(format_args!(" gives {to}#{number} {span} {pairs}"), 90);
    }
    text
}

/// Its pairs, whose identifiers must be those of their keys, and where the next one begins.
fn of_page(page: &PairsPage) -> Text {
    let mut text = Text::of("page");
    for placed in page.pairs.as_slice() {
        let pair = PairText(&placed.pair);
        let mark = if placed.id == Id::of_bytes(placed.pair.key.as_slice()) {
            ""
        } else {
            "?"
        };
        text = text.and(format_args!(" {pair}{mark}"), 60);
    }
    match page.next {
        Some(next) => {
            let next = IdText(next);
            text.and(format_args!(" next {next}"), 40)
        }
        None => text,
    }
}

fn lists(links: Option<Links>) -> Text {
    let Some(links) = links else {
        return Text::of("None");
    };
    let mut text = Text::of("list");
    for peer in links.list().entries() {
        let number = peer.number;
        text = text.and(format_args!(" {number}"), 24);
    }
    text
}

/// The first finger that is at this node.
fn finger_at(links: Option<Links>, number: u64) -> Option<usize> {
    let links = links?;
    for finger in 1..129 {
        if matches!(links.fingers().get(finger), Some(peer) if peer.number == number) {
            return Some(finger);
        }
    }
    None
}

fn all_links<J: Naming, S: EntryStore, R: Wait>(
    rt: &R,
    alloc: Global,
    ring: &Ring<J, S>,
) -> Result<Text, LineFault> {
    let rows = ring.links_at_once(rt, alloc)?;
    let mut text = Text::of("");
    for row in &rows {
        let number = row.me().number;
        let mark = if ring.links_of(rt, number) == Some(*row) {
            ""
        } else {
            "?"
        };
        text = text.and(format_args!("{number}{mark} "), 24);
    }
    drop(rows);
    let count = ring.node_count();
    Ok(text.and(format_args!("of {count}"), 24))
}

/// Whether a list skips an identifier.
fn skips(links: &Links, x: Id) -> bool {
    let mut before = links.me().id;
    for peer in links.list().entries() {
        if between(before, x, peer.id) {
            return true;
        }
        before = peer.id;
    }
    false
}

fn skips_any<J: Naming, S: EntryStore, R: Wait>(rt: &R, ring: &Ring<J, S>, id: Id) -> bool {
    for number in 0..ring.node_count() {
        if let Some(links) = ring.links_of(rt, number) {
            if ring.is_live(number) && skips(&links, id) {
                return true;
            }
        }
    }
    false
}

fn has_live_entry<J: Naming, S: EntryStore, R: Wait>(rt: &R, ring: &Ring<J, S>, node: u64) -> bool {
    match ring.links_of(rt, node) {
        Some(links) => links
            .list()
            .entries()
            .iter()
            .any(|peer| ring.is_live(peer.number)),
        None => false,
    }
}

fn is_safe<J: Naming, S: EntryStore, R: Wait>(rt: &R, ring: &Ring<J, S>) -> bool {
    for number in 0..ring.node_count() {
        if ring.is_live(number) && !has_live_entry(rt, ring, number) {
            return false;
        }
    }
    ring.holds_premise(rt)
}
