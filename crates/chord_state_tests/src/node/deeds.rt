//! What scripts do with a node.
//!
//! - `ask 2 floor 1 retrieve abc`: call 2 of caller 0, with floor 1. The floor is 0 and the hops
//!   are 255 where a line says nothing. What comes is the answer, with the call that was executed.
//! - `node`, `list`, `segments`, `find A`, `page 0 2`: its number and phase, the nodes that it
//!   lists, the segments that it holds, whether it holds an identifier, and the page of two pairs
//!   from one on.
//! - `cut 0 B`, `merge 0 1`: by the indexes of its segments.
//! - `may-give 0 1`, `give 0 1`: segment 0 to node 1. `resend 1#2 3`: part 3 of its second handover
//!   to node 1. `got 0#1 to 1`, `declined 0#1 to 1`: the answer to a handover.
//! - `take 0#1 to 1 1/2 (A B]`: a part without pairs. `take-x`: the handover of node 0 to node 1
//!   with (A, C] and x under `abc`. `placed g 4`: the identifier of a pair.
//! - `leave`, `retire`.

use super::calls::{ask, send};
use super::{C, found};
use chord_app_text::{GrammarFault, LineFault, Words};
use chord_handover::{Part, Ticket};
use chord_ident::{Id, Span};
use chord_map::{Bytes, Pair};
use chord_node::{Node, PairsPage, PlacedPair};
use chord_segment::Segment;
use chord_store::{CappedStore, EntryStore};
use chord_testkit::{
    IdText, MEMORY, PairText, PartText, SegmentText, Text, ident, name_of, span, ticket,
    two_numbers, yes_or_no,
};
use std::alloc::{AllocError, Global};
use std::fmt::Debug;

/// Does what the words say, and tells the outcome.
pub fn deed<S: EntryStore>(
    alloc: Global,
    node: &mut Node<S>,
    is_lent: bool,
    words: &mut Words,
) -> Result<Text, LineFault> {
    match words.word()? {
        "ask" => Ok(send(alloc, node, is_lent, ask(alloc, words)?)),
        "cut" => Ok(of_result(node.cut_at(index(words)?, ident(words)?))),
        "merge" => Ok(of_result(node.merge(index(words)?, index(words)?))),
        "give" => Ok(give(node, index(words)?, words.number()?)),
        "got" => Ok(got(node, ticket(words)?)),
        "declined" => Ok(declined(node, ticket(words)?)),
        "take" => Ok(take(node, empty_part(alloc, words)?)),
        "take-x" => Ok(take_given(alloc, node)),
        "leave" => Ok(leave(node)),
        "retire" => Ok(of_result(node.retire())),
        word => look(alloc, node, word, words),
    }
}

/// What changes nothing.
fn look<S: EntryStore>(
    alloc: Global,
    node: &Node<S>,
    word: &str,
    words: &mut Words,
) -> Result<Text, LineFault> {
    match word {
        "node" => Ok(name(node)),
        "list" => Ok(list(node)),
        "segments" => Ok(segments(node)),
        "find" => Ok(find(node, ident(words)?)),
        "page" => page(alloc, node, words),
        "placed" => Ok(placed(pair(alloc, words)?)),
        "may-give" => Ok(of_result(node.may_give(index(words)?, words.number()?))),
        "resend" => resend(node, words),
        _ => Err(GrammarFault::NoLine.into()),
    }
}

fn index(words: &mut Words) -> Result<usize, LineFault> {
    Ok(words.number()? as usize)
}

/// A key and a value.
pub fn pair(alloc: Global, words: &mut Words) -> Result<Pair, LineFault> {
    let key = words.word()?;
    let value = words.word()?;
    Ok(Pair {
        key: Bytes::from_slice(alloc, key.as_bytes())?,
        value: Bytes::from_slice(alloc, value.as_bytes())?,
    })
}

fn of_result<F: Debug + Drop>(answer: Result<(), F>) -> Text {
    match answer {
        Ok(()) => Text::of("Ok"),
        Err(fault) => {
            let text = name_of(&fault);
            drop(fault);
            text
        }
    }
}

fn leave<S: EntryStore>(node: &mut Node<S>) -> Text {
    match node.begin_leave() {
        Ok(()) => Text::of("Ok"),
        Err(fault) => Text::of(fault),
    }
}

pub fn name<S: EntryStore>(node: &Node<S>) -> Text {
    let number = node.number();
    let phase = node.phase();
    Text::of(format_args!("{number} {phase:?}"))
}

/// The nodes that it lists.
fn list<S: EntryStore>(node: &Node<S>) -> Text {
    let mut text = Text::of("list");
    for entry in node.links().list().entries() {
        let number = entry.number;
        let id = IdText(entry.id);
        text = text.and(format_args!(" {number}@{id}"), 64);
    }
    text
}

/// The segments that it holds.
fn segments<S: EntryStore>(node: &Node<S>) -> Text {
    let mut text = Text::of("segments");
    for place in 0..8usize {
        if let Some(segment) = node.segment(place) {
            let segment = SegmentText(segment);
            text = text.and(format_args!(" {segment}"), 120);
        }
    }
    text
}

fn find<S: EntryStore>(node: &Node<S>, id: Id) -> Text {
    yes_or_no(node.holds(id))
}

/// The identifiers of keys, which begin their SHA-1.
const KEYS: &[(&str, u128)] = &[
    ("c", 0x84a516841ba77a5b4648de2cd0dfcb30),
    ("d", 0x3c363836cf4e16666669a25da280a186),
    ("g", 0x54fd1711209fb1c0781092374132c66e),
    ("h", 0x27d5482eebd075de44389774fce28c69),
    ("i", 0x042dc4512fa3d391c5170cf3aa61e6a6),
];

/// The key that has this identifier, or else the identifier.
fn key_at(id: Id) -> Text {
    match KEYS.iter().find(|(_, number)| *number == id.number) {
        Some((key, _)) => Text::of(*key),
        None => Text::of(IdText(id)),
    }
}

fn page<S: EntryStore>(
    alloc: Global,
    node: &Node<S>,
    words: &mut Words,
) -> Result<Text, LineFault> {
    let mut ahead = *words;
    let word = ahead.word()?;
    let first = match KEYS.iter().find(|(key, _)| *key == word) {
        Some((_, number)) => {
            *words = ahead;
            Id::new(*number)
        }
        None => ident(words)?,
    };
    let limit = words.number()?.max(1);
    match node.pairs_from(alloc, first, limit) {
        Ok(Some(page)) => Ok(show_page(page)),
        Ok(None) => Ok(Text::of("no page")),
        Err(_) => Ok(Text::of(MEMORY)),
    }
}

/// Its pairs with the keys that have their identifiers, and where reading goes on.
fn show_page(page: PairsPage) -> Text {
    let mut text = Text::of("page");
    for placed in page.pairs.as_slice() {
        let key = key_at(placed.id);
        let key = key.as_str();
        let pair = PairText(&placed.pair);
        text = text.and(format_args!(" {key}:{pair}"), 64);
    }
    let next = page.next;
    drop(page);
    match next {
        Some(next) => text.and_str(" next ", 8).and_str(key_at(next).as_str(), 40),
        None => text,
    }
}

fn placed(pair: Pair) -> Text {
    let placed = PlacedPair::of(pair);
    let key = key_at(placed.id);
    let key = key.as_str();
    let pair = PairText(&placed.pair);
    let text = Text::of(format_args!("{key}:{pair}"));
    drop(placed);
    text
}

fn show_part(part: Part) -> Text {
    let text = Text::of(PartText(&part));
    drop(part);
    text
}

fn give<S: EntryStore>(node: &mut Node<S>, place: usize, to: u64) -> Text {
    match node.give(place, to) {
        Ok(part) => show_part(part),
        Err(fault) => name_of(&fault),
    }
}

fn resend<S: EntryStore>(node: &Node<S>, words: &mut Words) -> Result<Text, LineFault> {
    let (to, number) = two_numbers(words, "#")?;
    let place = words.number()?;
    match node.resend_part(to, number, place) {
        Ok(part) => Ok(show_part(part)),
        Err(fault) => Ok(name_of(&fault)),
    }
}

fn got<S: EntryStore>(node: &mut Node<S>, ticket: Ticket) -> Text {
    if ticket.from != node.number() {
        return Text::of("NotItsOwn");
    }
    if node.on_got(&ticket) {
        Text::of("Freed")
    } else {
        Text::of("NotThere")
    }
}

fn declined<S: EntryStore>(node: &mut Node<S>, ticket: Ticket) -> Text {
    if ticket.from != node.number() {
        return Text::of("NotItsOwn");
    }
    match node.on_declined(&ticket) {
        Ok(back) => name_of(&back),
        Err(_) => Text::of(MEMORY),
    }
}

/// A part without pairs. Only the first has the segment.
fn empty_part(alloc: Global, words: &mut Words) -> Result<Part, LineFault> {
    let ticket = ticket(words)?;
    let (place, of) = two_numbers(words, "/")?;
    let span = span(words)?;
    if place == 0 || of < place {
        return Err(GrammarFault::NoLine.into());
    }
    let segment = if place == 1 {
        Some(empty_segment(alloc, span)?)
    } else {
        None
    };
    Ok(Part {
        from: ticket.from,
        to: ticket.to,
        number: ticket.number,
        place,
        of,
        segment,
        pairs: Vec::new(alloc),
    })
}

fn empty_segment(alloc: Global, span: Span) -> Result<Box<Segment>, AllocError> {
    Ok(Box::new(alloc, Segment::empty(alloc, span))?)
}

fn take<S: EntryStore>(node: &mut Node<S>, part: Part) -> Text {
    if part.to != node.number() {
        drop(part);
        return Text::of("NotItsOwn");
    }
    let answer = node.on_give(&part);
    drop(part);
    match answer {
        Ok(answer) => name_of(&answer),
        Err(_) => Text::of(MEMORY),
    }
}

/// Node 0, which holds the circle with x under `abc`, gives (A, C] to node 1.
fn give_half(alloc: Global, node: &mut Node<CappedStore>) -> Option<Part> {
    let call = ask(alloc, &mut Words::new("1 insert abc x")).ok()?;
    let sent = send(alloc, node, true, call);
    if sent.as_str() == MEMORY {
        return None;
    }
    node.cut_at(0, Id::new(C)).ok()?;
    node.give(0, 1).ok()
}

fn given(alloc: Global) -> Option<Part> {
    let mut node = found(alloc, CappedStore::new(alloc, 1))?;
    let part = give_half(alloc, &mut node);
    drop(node);
    part
}

fn take_given<S: EntryStore>(alloc: Global, node: &mut Node<S>) -> Text {
    match given(alloc) {
        Some(part) => take(node, part),
        None => Text::of(MEMORY),
    }
}
