//! Scripts of what a receiver took and buffered, and of what its parts make together.
//!
//! A part is `0#1 2/2 64..65`: the second of two of node 0's first handover, whose pairs are under
//! `abc`, with the numbers from 64 up to 65 as values. `taken 1 0 0` are the numbers of the last
//! handovers that were taken from nodes 0, 1 and 2.

use super::CIRCLE;
use super::parts::{PartRow, are_from_zero, part_with};
use chord_app_text::{GrammarFault, LineFault, Words};
use chord_handover::{Gather, Part, Payload, Taken, Verdict};
use chord_testkit::{Fresh, MEMORY, Subject, Text, name_of, sum_of, two_numbers};
use std::alloc::Global;

#[derive(Drop)]
pub struct Taking {
    alloc: Global,
    taken: Taken,
}

impl Fresh for Taking {
    /// Nothing is taken.
    fn fresh(alloc: Global) -> Taking {
        Taking {
            alloc,
            taken: Taken::new(alloc),
        }
    }
}

impl Subject for Taking {
    fn act(&mut self, words: &mut Words) -> Result<Text, LineFault> {
        match words.word()? {
            "judge" => judge(&self.taken, words),
            "reserve" => Ok(reserve(&mut self.taken)),
            "mark" => Ok(mark(&mut self.taken, words.number()?)),
            "gather" => Ok(gather(&self.taken, part(self.alloc, words)?)),
            "buffer" => Ok(buffer(&mut self.taken, part(self.alloc, words)?)),
            "forget" => Ok(forget(&mut self.taken)),
            _ => Err(GrammarFault::NoLine.into()),
        }
    }

    fn show(&self) -> Text {
        let of_0 = self.taken.last(0);
        let of_1 = self.taken.last(1);
        let of_2 = self.taken.last(2);
        Text::of(format_args!("taken {of_0} {of_1} {of_2}"))
    }

    fn sum(&self) -> u64 {
        sum_of(&self.taken)
    }
}

/// The part that the words say.
pub fn part(alloc: Global, words: &mut Words) -> Result<Part, LineFault> {
    let (from, number) = two_numbers(words, "#")?;
    let (place, of) = two_numbers(words, "/")?;
    let (first, end) = two_numbers(words, "..")?;
    if place == 0 || of < place || end < first {
        return Err(GrammarFault::NoLine.into());
    }
    let row = PartRow {
        from,
        number,
        place,
        of,
        first,
        count: end - first,
    };
    Ok(part_with(alloc, row)?)
}

fn judge(taken: &Taken, words: &mut Words) -> Result<Text, LineFault> {
    let (from, number) = two_numbers(words, "#")?;
    Ok(name_of(&taken.judge(from, number)))
}

fn reserve(taken: &mut Taken) -> Text {
    match taken.reserve() {
        Ok(()) => Text::of("Reserved"),
        Err(_) => Text::of(MEMORY),
    }
}

/// The next handover of the node was taken.
fn mark(taken: &mut Taken, from: u64) -> Text {
    if taken.reserve().is_err() {
        return Text::of(MEMORY);
    }
    if taken.last(from) == u64::MAX {
        return Text::of("NotNext");
    }
    taken.mark(from);
    Text::of("Marked")
}

/// The whole circle, with this many values from 0 on.
fn made_of(payload: &Payload) -> Text {
    let pairs = payload.pairs();
    if payload.segment().span() != CIRCLE || !are_from_zero(pairs) {
        return Text::of("OtherPayload");
    }
    let count = pairs.len();
    Text::of(format_args!("Whole {count}"))
}

fn show_made(gathered: Gather) -> Text {
    let text = match &gathered {
        Gather::More => Text::of("More"),
        Gather::Unfit => Text::of("Unfit"),
        Gather::Whole(payload) => made_of(payload),
    };
    drop(gathered);
    text
}

/// What the part makes with the buffered parts.
fn gather(taken: &Taken, part: Part) -> Text {
    if taken.judge(part.from, part.number) != Verdict::Next {
        drop(part);
        return Text::of("NotNext");
    }
    let gathered = taken.whole_with(&part);
    drop(part);
    match gathered {
        Ok(gathered) => show_made(gathered),
        Err(_) => Text::of(MEMORY),
    }
}

fn buffer(taken: &mut Taken, part: Part) -> Text {
    if taken.judge(part.from, part.number) != Verdict::Next {
        drop(part);
        return Text::of("NotNext");
    }
    let buffered = taken.buffer(&part);
    drop(part);
    match buffered {
        Ok(()) => Text::of("Buffered"),
        Err(_) => Text::of(MEMORY),
    }
}

fn forget(taken: &mut Taken) -> Text {
    taken.forget_buffered();
    Text::of("Forgotten")
}
