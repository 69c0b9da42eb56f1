//! Scripts of the outbox of node 3, with items for node 1, and of parts and payloads by themselves.
//!
//! - `give`: an item of the whole circle without pairs. `give-two`: one that keeps call 2 of caller
//!   7, with floor 1, and has two pairs. What comes is the item's number.
//! - `copy 1`: a copy of the item of this number. `part 1 2`: part 2 of it. `got 1`, `declined 1`:
//!   its receiver took it, or declined it. `reserve`: room for an item.
//! - `same 0#1 1/2 0..64 0#1 1/2 0..63`: whether two parts, as in `taking`, are equal. `copied` of
//!   one part: whether its copy is equal.
//! - `only 0#1 to 2`: the first part of the empty payload, in this handover.
//! - `chunks 65`: how many parts 65 pairs make, and how many pairs parts 1, 2 and 3 have. `last
//!   65`: whether the last of 65 pairs is the first of part 2.
//!
//! A payload is its segment, with how many pairs it has, which must be under `abc` with the values
//! from 0 on. Behind `; ` stand the number of the next item for node 1, and the items: `1#2 (A A]`.

use super::parts::{PartRow, are_from_zero, pairs_of};
use super::taking::part;
use super::{CIRCLE, empty_payload};
use chord_app_text::{GrammarFault, LineFault, Words};
use chord_handover::{
    Gather, Outbox, OutboxGiveFault, Part, Payload, Taken, Ticket, Verdict, copy_chunk, count_parts,
};
use chord_ident::Id;
use chord_map::{Done, Pair, Reply, Request};
use chord_segment::{Past, Segment};
use chord_testkit::{
    Fresh, MEMORY, PartText, SegmentText, SpanText, Subject, Text, ticket, yes_or_no,
};
use std::alloc::{AllocError, Global};

#[derive(Drop)]
pub struct Giving {
    alloc: Global,
    outbox: Outbox,
}

impl Fresh for Giving {
    fn fresh(alloc: Global) -> Giving {
        Giving {
            alloc,
            outbox: Outbox::new(alloc, 3),
        }
    }
}

impl Subject for Giving {
    fn act(&mut self, words: &mut Words) -> Result<Text, LineFault> {
        let alloc = self.alloc;
        match words.word()? {
            "reserve" => Ok(reserve(&mut self.outbox)),
            "give" => Ok(give(&mut self.outbox, empty_payload(alloc))),
            "give-two" => Ok(give_made(&mut self.outbox, payload_of_two(alloc))),
            "copy" => Ok(copy(&self.outbox, words.number()?)),
            "part" => Ok(show_part_of(&self.outbox, words.number()?, words.number()?)),
            "got" => Ok(show(self.outbox.got(1, words.number()?))),
            "declined" => Ok(show(self.outbox.declined(1, words.number()?))),
            word => look(alloc, word, words),
        }
    }

    fn show(&self) -> Text {
        let mut text = match self.outbox.next_number(1) {
            Some(number) => Text::of(format_args!("next {number}")),
            None => Text::of("no next"),
        };
        let mut count = 0usize;
        for place in 0..8u64 {
            if let Some(name) = item(&self.outbox, place) {
                text = text.and_str(" ", 1).and_str(name.as_str(), 80);
                count = count.saturating_add(1);
            }
        }
        with_len(&self.outbox, text, count)
    }
}

fn item(outbox: &Outbox, place: u64) -> Option<Text> {
    let (to, number) = outbox.nth(place)?;
    let span = SpanText(outbox.nth_payload(place)?.segment().span());
    Some(Text::of(format_args!("{to}#{number} {span}")))
}

/// What the outbox says of its length, if that is not what was shown.
fn with_len(outbox: &Outbox, text: Text, count: usize) -> Text {
    let len = outbox.len();
    let is_empty = outbox.is_empty();
    if len == count && is_empty == (count == 0) {
        return text;
    }
    text.and(format_args!(" of {len}, empty {is_empty}"), 64)
}

fn look(alloc: Global, word: &str, words: &mut Words) -> Result<Text, LineFault> {
    match word {
        "same" => Ok(same(part(alloc, words)?, part(alloc, words)?)),
        "copied" => Ok(copied(part(alloc, words)?)),
        "only" => Ok(only_part(alloc, ticket(words)?)),
        "chunks" => Ok(chunks(alloc, words.number()?)?),
        "last" => Ok(last(alloc, words.number()?)?),
        _ => Err(GrammarFault::NoLine.into()),
    }
}

fn reserve(outbox: &mut Outbox) -> Text {
    match outbox.reserve() {
        Ok(()) => Text::of("Reserved"),
        Err(_) => Text::of(MEMORY),
    }
}

fn payload_text(payload: &Payload) -> Text {
    let segment = SegmentText(payload.segment());
    let count = payload.pairs().len();
    if are_from_zero(payload.pairs()) {
        Text::of(format_args!("{segment} with {count}"))
    } else {
        Text::of(format_args!("{segment} with others"))
    }
}

/// A payload that is refused must come back.
fn give(outbox: &mut Outbox, payload: Payload) -> Text {
    let given = payload_text(&payload);
    match outbox.give(1, payload) {
        Ok(number) => Text::of(format_args!("{number}")),
        Err(ungiven) => {
            let back = payload_text(&ungiven.payload);
            let is_memory = ungiven.fault == OutboxGiveFault::Memory;
            drop(ungiven);
            if back.as_str() != given.as_str() {
                return Text::of("another payload came back");
            }
            Text::of(if is_memory { MEMORY } else { "NumbersSpent" })
        }
    }
}

fn give_made(outbox: &mut Outbox, payload: Option<Payload>) -> Text {
    match payload {
        Some(payload) => give(outbox, payload),
        None => Text::of(MEMORY),
    }
}

fn show(payload: Option<Payload>) -> Text {
    let Some(payload) = payload else {
        return Text::of("NoItem");
    };
    let text = payload_text(&payload);
    drop(payload);
    text
}

fn copy(outbox: &Outbox, number: u64) -> Text {
    let Some(payload) = outbox.item(1, number) else {
        return Text::of("NoItem");
    };
    match payload.try_copy() {
        Ok(copy) => show(Some(copy)),
        Err(_) => Text::of(MEMORY),
    }
}

fn show_part(part: Part) -> Text {
    let text = Text::of(PartText(&part));
    drop(part);
    text
}

fn show_part_of(outbox: &Outbox, number: u64, place: u64) -> Text {
    match outbox.part(1, number, place) {
        Ok(Some(part)) => show_part(part),
        Ok(None) => Text::of("NoPart"),
        Err(_) => Text::of(MEMORY),
    }
}

fn only_part(alloc: Global, ticket: Ticket) -> Text {
    let payload = empty_payload(alloc);
    let part = payload.part(ticket, 1);
    drop(payload);
    match part {
        Ok(part) => show_part(part),
        Err(_) => Text::of(MEMORY),
    }
}

fn same(part: Part, other: Part) -> Text {
    let is_equal = part.equals(&other);
    drop(part);
    drop(other);
    yes_or_no(is_equal)
}

fn copied(part: Part) -> Text {
    match part.try_copy() {
        Ok(copy) => same(part, copy),
        Err(_) => {
            drop(part);
            Text::of(MEMORY)
        }
    }
}

/// That many pairs, from 0 on.
fn pairs_from_zero(alloc: Global, count: u64) -> Result<Vec<Pair>, AllocError> {
    let row = PartRow {
        from: 0,
        number: 1,
        place: 1,
        of: 1,
        first: 0,
        count,
    };
    pairs_of(alloc, row)
}

fn chunk_len(alloc: Global, pairs: &[Pair], part: u64) -> Result<usize, AllocError> {
    let copies = copy_chunk(alloc, pairs, part)?;
    Ok(copies.len())
}

fn chunks(alloc: Global, count: u64) -> Result<Text, AllocError> {
    let pairs = pairs_from_zero(alloc, count)?;
    let parts = count_parts(&pairs);
    let first = chunk_len(alloc, &pairs, 1)?;
    let second = chunk_len(alloc, &pairs, 2)?;
    let third = chunk_len(alloc, &pairs, 3)?;
    Ok(Text::of(format_args!("{parts}: {first} {second} {third}")))
}

fn last(alloc: Global, count: u64) -> Result<Text, AllocError> {
    let pairs = pairs_from_zero(alloc, count)?;
    let second = copy_chunk(alloc, &pairs, 2)?;
    let is_last = second.first() == pairs.last();
    Ok(yes_or_no(is_last))
}

/// The second call of caller 7, which added x under `abc`.
fn added(alloc: Global) -> Option<Done> {
    let request = Request::insert(alloc, b"abc", b"x").ok()?;
    Some(Done {
        caller: 7,
        number: 2,
        request,
        reply: Reply::Added,
    })
}

/// Keeps the call, with floor 1.
fn keep(segment: &mut Segment, done: Done) -> bool {
    let is_inside = segment.span().contains(Id::of_bytes(done.request.key()));
    if is_inside && done.number == 2 {
        if let Past::New = segment.find(done.caller, done.number) {
            let kept = segment.append(done, 1);
            let is_kept = kept.is_ok();
            drop(kept);
            return is_kept;
        }
    }
    drop(done);
    false
}

/// The whole circle with that call.
fn with_a_call(alloc: Global) -> Option<Segment> {
    let done = added(alloc)?;
    let mut segment = Segment::empty(alloc, CIRCLE);
    if keep(&mut segment, done) {
        return Some(segment);
    }
    drop(segment);
    None
}

/// The only part of a handover of that segment with two pairs.
fn part_of_two(alloc: Global) -> Option<Part> {
    let pairs = pairs_from_zero(alloc, 2).ok()?;
    let segment = with_a_call(alloc)?;
    Some(Part {
        from: 0,
        to: 1,
        number: 1,
        place: 1,
        of: 1,
        segment: Some(Box::new(alloc, segment).ok()?),
        pairs,
    })
}

/// What that part makes.
fn made_of_two(alloc: Global) -> Option<Gather> {
    let part = part_of_two(alloc)?;
    let taken = Taken::new(alloc);
    let made = if taken.judge(part.from, part.number) == Verdict::Next {
        taken.whole_with(&part).ok()
    } else {
        None
    };
    drop(taken);
    drop(part);
    made
}

/// The payload of that handover.
fn payload_of_two(alloc: Global) -> Option<Payload> {
    match made_of_two(alloc)? {
        Gather::Whole(payload) => Some(payload),
        other => {
            drop(other);
            None
        }
    }
}
