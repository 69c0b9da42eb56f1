//! Scripts of one segment, and of a second one.
//!
//! A call is `0#3 abc`: call 3 of caller 0, which inserts x under `abc` and is answered Added.
//! - `begin (A C] 5#1 abc 3#1 abc`: a segment with these calls, at floor 0. The one before is the
//!   second then.
//! - `keep 2 0#3 abc`: keeps the call, with floor 2. `reserve 7`: room for a call of caller 7.
//! - `cut B`, `split B`: cuts it, and the second one is what is behind B; by `cut`, which takes the
//!   segment over, and by `split_off`.
//! - `join`, `absorb`: joins it with the second one; by `join`, which takes both over, and by
//!   `absorb`.
//! - `copy`: the second one is a copy. `same`: whether it equals the second one. `equals 5#1 abc`:
//!   whether it has these calls alone, at floor 0.
//! - `floor 0 1`, `find 0#3 1#2`: floors of callers, and calls, in it | in the second one.
//! - `inside (A B] (B A]`: whether a copy of its first caller keeps a call of that caller, whether
//!   it does once what is not inside the first span was dropped, and whether that keeps a call of
//!   what is inside the second span; and then what it keeps.
//!
//! Behind `; ` stands the segment, and behind `|` the second one.

use chord_app_text::{GrammarFault, LineFault, Words};
use chord_ident::{Id, Span};
use chord_map::{Done, Reply, Request};
use chord_segment::{Past, Segment, Uncut, Unjoined};
use chord_testkit::{
    DoneText, DonesText, Fresh, MEMORY, SegmentText, Subject, Text, ident, name_of, span,
    two_numbers,
};
use std::alloc::Global;
use std::fmt::Debug;
use std::mem;

#[derive(Drop)]
pub struct Holding {
    alloc: Global,
    first: Option<Segment>,
    second: Option<Segment>,
}

impl Fresh for Holding {
    /// There is no segment.
    fn fresh(alloc: Global) -> Holding {
        Holding {
            alloc,
            first: None,
            second: None,
        }
    }
}

impl Subject for Holding {
    fn act(&mut self, words: &mut Words) -> Result<Text, LineFault> {
        let alloc = self.alloc;
        let word = words.word()?;
        if word == "begin" {
            let span = span(words)?;
            return Ok(begin(self, with_calls(alloc, span, words)?));
        }
        match &mut self.first {
            Some(first) => deed(alloc, first, &mut self.second, word, words),
            None => Err(GrammarFault::NoLine.into()),
        }
    }

    fn show(&self) -> Text {
        let Some(first) = &self.first else {
            return Text::of("no segment");
        };
        let first = Text::of(SegmentText(first));
        match &self.second {
            Some(second) => of_two(first, Text::of(SegmentText(second))),
            None => first,
        }
    }
}

fn of_two(first: Text, second: Text) -> Text {
    let first = first.as_str();
    let second = second.as_str();
    Text::of(format_args!("{first} | {second}"))
}

fn deed(
    alloc: Global,
    first: &mut Segment,
    second: &mut Option<Segment>,
    word: &str,
    words: &mut Words,
) -> Result<Text, LineFault> {
    match word {
        "keep" => Ok(keep(first, words.number()?, call(alloc, words)?)),
        "reserve" => Ok(reserve(first, words.number()?)),
        "cut" => Ok(cut(alloc, first, second, ident(words)?)),
        "split" => Ok(split(first, second, ident(words)?)),
        "join" => join(alloc, first, second),
        "absorb" => absorb(first, second),
        "copy" => Ok(copy(first, second)),
        "equals" => Ok(equals(first, with_calls(alloc, first.span(), words)?)),
        "same" => same(first, second),
        "inside" => inside(first, span(words)?, span(words)?),
        "floor" | "find" => look_at_both(first, second, word, words),
        _ => Err(GrammarFault::NoLine.into()),
    }
}

fn call(alloc: Global, words: &mut Words) -> Result<Done, LineFault> {
    let (caller, number) = two_numbers(words, "#")?;
    let key = words.word()?;
    Ok(Done {
        caller,
        number,
        request: Request::insert(alloc, key.as_bytes(), b"x")?,
        reply: Reply::Added,
    })
}

/// Keeps the call if it meets what `append` requires. A call refused memory is given back.
fn put(segment: &mut Segment, done: Done, floor: u64) -> Result<bool, Done> {
    let inside = segment.span().contains(Id::of_bytes(done.request.key()));
    if inside && done.number > floor && done.number - floor <= 16 {
        if let Past::New = segment.find(done.caller, done.number) {
            return match segment.append(done, floor) {
                Ok(()) => Ok(true),
                Err(refused) => Err(refused.value),
            };
        }
    }
    drop(done);
    Ok(false)
}

/// A segment with the calls that the words say, at floor 0.
fn with_calls(alloc: Global, span: Span, words: &mut Words) -> Result<Segment, LineFault> {
    let mut segment = Segment::empty(alloc, span);
    for _ in 0..8u64 {
        if words.has_more() {
            put_next(&mut segment, call(alloc, words)?)?;
        }
    }
    Ok(segment)
}

fn put_next(segment: &mut Segment, done: Done) -> Result<(), LineFault> {
    match put(segment, done, 0) {
        Ok(true) => Ok(()),
        Ok(false) => Err(GrammarFault::NoLine.into()),
        Err(back) => {
            drop(back);
            Err(LineFault::OutOfMemory)
        }
    }
}

/// Puts a segment into a place.
fn set(place: &mut Option<Segment>, segment: Segment) {
    let before = mem::replace(place, Some(segment));
    drop(before);
}

fn begin(holding: &mut Holding, segment: Segment) -> Text {
    let first = mem::replace(&mut holding.first, Some(segment));
    let second = mem::replace(&mut holding.second, first);
    drop(second);
    Text::of("Begun")
}

fn of_fault<F: Debug + Drop>(fault: F) -> Text {
    let text = name_of(&fault);
    drop(fault);
    text
}

/// A call that is refused memory must come back.
fn keep(segment: &mut Segment, floor: u64, done: Done) -> Text {
    let call = Text::of(DoneText(&done));
    match put(segment, done, floor) {
        Ok(true) => Text::of("Kept"),
        Ok(false) => Text::of("NotKept"),
        Err(back) => {
            let came = Text::of(DoneText(&back));
            drop(back);
            if came.as_str() == call.as_str() {
                Text::of(MEMORY)
            } else {
                Text::of("another call came back")
            }
        }
    }
}

fn reserve(segment: &mut Segment, caller: u64) -> Text {
    match segment.reserve(caller) {
        Ok(()) => Text::of("Ok"),
        Err(_) => Text::of(MEMORY),
    }
}

/// Takes the segment out of its place, for what takes it over.
fn take_out(alloc: Global, place: &mut Segment) -> Segment {
    let span = place.span();
    mem::replace(place, Segment::empty(alloc, span))
}

/// Puts a segment into a place in which there is one.
fn put_back(place: &mut Segment, segment: Segment) {
    let before = mem::replace(place, segment);
    drop(before);
}

fn cut(alloc: Global, first: &mut Segment, second: &mut Option<Segment>, at: Id) -> Text {
    match take_out(alloc, first).cut(at) {
        Ok((before, behind)) => {
            put_back(first, before);
            set(second, behind);
            Text::of("Ok")
        }
        Err(uncut) => {
            let Uncut { fault, segment } = uncut;
            put_back(first, segment);
            of_fault(fault)
        }
    }
}

fn split(first: &mut Segment, second: &mut Option<Segment>, at: Id) -> Text {
    match first.split_off(at) {
        Ok(behind) => {
            set(second, behind);
            Text::of("Ok")
        }
        Err(fault) => of_fault(fault),
    }
}

fn join(alloc: Global, place: &mut Segment, next: &mut Option<Segment>) -> Result<Text, LineFault> {
    let Some(second) = mem::replace(next, None) else {
        return Err(GrammarFault::NoLine.into());
    };
    match take_out(alloc, place).join(second) {
        Ok(whole) => {
            put_back(place, whole);
            Ok(Text::of("Ok"))
        }
        Err(unjoined) => {
            let Unjoined {
                fault,
                first,
                second,
            } = unjoined;
            put_back(place, first);
            set(next, second);
            Ok(of_fault(fault))
        }
    }
}

fn absorb(first: &mut Segment, second: &mut Option<Segment>) -> Result<Text, LineFault> {
    let Some(next) = second else {
        return Err(GrammarFault::NoLine.into());
    };
    match first.absorb(next) {
        Ok(()) => Ok(Text::of("Ok")),
        Err(fault) => Ok(of_fault(fault)),
    }
}

fn copy(first: &Segment, second: &mut Option<Segment>) -> Text {
    match first.try_copy() {
        Ok(copy) => {
            set(second, copy);
            Text::of("Ok")
        }
        Err(_) => Text::of(MEMORY),
    }
}

fn are_equal(first: &Segment, second: &Segment) -> Text {
    match (first.equals(second), second.equals(first)) {
        (true, true) => Text::of("Yes"),
        (false, false) => Text::of("No"),
        _ => Text::of("one equals the other"),
    }
}

fn equals(segment: &Segment, other: Segment) -> Text {
    let text = are_equal(segment, &other);
    drop(other);
    text
}

fn same(first: &Segment, second: &Option<Segment>) -> Result<Text, LineFault> {
    match second {
        Some(second) => Ok(are_equal(first, second)),
        None => Err(GrammarFault::NoLine.into()),
    }
}

fn inside(segment: &Segment, first: Span, second: Span) -> Result<Text, LineFault> {
    let Some(own) = segment.callers().first() else {
        return Err(GrammarFault::NoLine.into());
    };
    let mut copy = own.try_copy()?;
    let mut other = own.try_copy()?;
    let before = own.any_twice(&copy);
    copy.keep_inside(first);
    other.keep_inside(second);
    let after = own.any_twice(&copy);
    let together = other.any_twice(&copy);
    let kept = Text::of(DonesText(copy.kept()));
    let kept = kept.as_str();
    drop(other);
    drop(copy);
    Ok(Text::of(format_args!("twice {before} {after} {together}{kept}")))
}

fn look_at_both(
    first: &Segment,
    second: &Option<Segment>,
    word: &str,
    words: &mut Words,
) -> Result<Text, LineFault> {
    let mut again = *words;
    let text = look(first, word, words)?;
    match second {
        Some(second) => Ok(of_two(text, look(second, word, &mut again)?)),
        None => Ok(text),
    }
}

/// Floors of callers, or calls.
fn look(segment: &Segment, word: &str, words: &mut Words) -> Result<Text, LineFault> {
    let mut text = Text::of(word);
    for _ in 0..8u64 {
        if words.has_more() {
            let next = if word == "floor" {
                floor(segment, words.number()?)
            } else {
                find(segment, two_numbers(words, "#")?)
            };
            text = text.and_str(" ", 1).and_str(next.as_str(), 64);
        }
    }
    Ok(text)
}

fn floor(segment: &Segment, caller: u64) -> Text {
    let floor = segment.floor(caller);
    Text::of(format_args!("{floor}"))
}

fn find(segment: &Segment, (caller, number): (u64, u64)) -> Text {
    match segment.find(caller, number) {
        Past::New => Text::of("New"),
        Past::Seen => Text::of("Seen"),
        Past::Kept(done) => Text::of(DoneText(done)),
    }
}
