//! Scripts of a store of any kind.
//!
//! - `insert a x`, `remove a x`, `values a`. `copy (A C]`: the pairs of a span, in order.
//! - `take-out (A C]`: removes the pairs of a span. `drop-copied (A C]`: removes them by their
//!   copies, and tells how many they were.
//! - `fill a`: the values from 0000 to 0999. `numbered a`: how many values from 0001 on there are,
//!   if there are no others.
//! - `put-two`: x under `a` and under `b` at once, into an empty store. `put-all`: pairs 0 to 35.
//!   `put 5`: pair 5, which has 25 bytes 5 under a key of 25 bytes 1: the number by three. So pairs
//!   are sorted by number, and need memory. `all`: whether it has these 36 pairs alone. `fifth`:
//!   whether it has values 15, 16 and 17 alone under key 5.
//!
//! Behind `; ` stands how many pairs it has. No pair may change if memory is refused.

use super::put_list;
use chord_app_text::{GrammarFault, LineFault, Words};
use chord_ident::{Id, Span};
use chord_map::{Bytes, Pair, PairList, Values};
use chord_store::{EntryStore, StoreFault};
use chord_testkit::{MEMORY, PairText, Subject, Text, name_of, span, sum_of, yes_or_no};
use std::alloc::{AllocError, Global};
use std::str::from_utf8;

#[derive(Drop)]
pub struct Storing<S: EntryStore> {
    pub alloc: Global,
    pub store: S,
}

impl<S: EntryStore> Subject for Storing<S> {
    fn act(&mut self, words: &mut Words) -> Result<Text, LineFault> {
        let alloc = self.alloc;
        match words.word()? {
            "insert" => Ok(insert(&mut self.store, pair(alloc, words)?)),
            "remove" => Ok(remove(&mut self.store, pair(alloc, words)?)),
            "take-out" => Ok(take_out(&mut self.store, span(words)?)),
            "drop-copied" => Ok(drop_copied(alloc, &mut self.store, span(words)?)),
            "fill" => fill(alloc, &mut self.store, words.word()?),
            "put-two" => Ok(put_at_once(&mut self.store, two(alloc)?)),
            "put-all" => Ok(put_at_once(&mut self.store, long_list(alloc)?)),
            "put" => Ok(insert(&mut self.store, long_pair(alloc, words.number()?)?)),
            word => look(alloc, &self.store, word, words),
        }
    }

    fn show(&self) -> Text {
        let count = self.store.count();
        Text::of(format_args!("count {count}"))
    }

    fn sum(&self) -> u64 {
        let Ok(pairs) = all_pairs(self.alloc, &self.store) else {
            return 0;
        };
        let sum = sum_of(&pairs);
        drop(pairs);
        sum
    }
}

fn look<S: EntryStore>(
    alloc: Global,
    store: &S,
    word: &str,
    words: &mut Words,
) -> Result<Text, LineFault> {
    match word {
        "values" => Ok(values(alloc, store, words.word()?)?),
        "numbered" => Ok(numbered(alloc, store, words.word()?)?),
        "copy" => Ok(copy(alloc, store, span(words)?)),
        "all" => Ok(all(alloc, store)?),
        "fifth" => Ok(fifth(alloc, store)?),
        _ => Err(GrammarFault::NoLine.into()),
    }
}

fn pair_of(alloc: Global, key: &[u8], value: &[u8]) -> Result<Pair, AllocError> {
    Ok(Pair {
        key: Bytes::from_slice(alloc, key)?,
        value: Bytes::from_slice(alloc, value)?,
    })
}

fn pair(alloc: Global, words: &mut Words) -> Result<Pair, LineFault> {
    let key = words.word()?;
    let value = words.word()?;
    Ok(pair_of(alloc, key.as_bytes(), value.as_bytes())?)
}

fn insert<S: EntryStore>(store: &mut S, pair: Pair) -> Text {
    let answer = store.insert(Id::of_bytes(pair.key.as_slice()), &pair.key, &pair.value);
    drop(pair);
    match answer {
        Ok(inserted) => name_of(&inserted),
        Err(fault) => name_of(&fault),
    }
}

fn remove<S: EntryStore>(store: &mut S, pair: Pair) -> Text {
    let id = Id::of_bytes(pair.key.as_slice());
    let was_there = store.remove(id, &pair.key, pair.value.as_slice());
    drop(pair);
    Text::of(if was_there { "Removed" } else { "NotThere" })
}

fn take_out<S: EntryStore>(store: &mut S, span: Span) -> Text {
    store.take_out(&span);
    Text::of("TakenOut")
}

fn drop_copied<S: EntryStore>(alloc: Global, store: &mut S, span: Span) -> Text {
    let Ok(copies) = store.copy_span(alloc, &span) else {
        return Text::of(MEMORY);
    };
    store.drop_copied(&span, &copies);
    let count = copies.len();
    drop(copies);
    Text::of(format_args!("{count}"))
}

/// The number as four digits.
fn digits(number: usize) -> Text {
    Text::of(format_args!("{number:04}"))
}

fn fill<S: EntryStore>(alloc: Global, store: &mut S, key: &str) -> Result<Text, LineFault> {
    for number in 0..1000usize {
        let value = digits(number);
        let pair = pair_of(alloc, key.as_bytes(), value.as_str().as_bytes())?;
        let inserted = insert(store, pair);
        if inserted.as_str() != "Added" {
            return Ok(inserted);
        }
    }
    Ok(Text::of("Filled"))
}

fn values_under<S: EntryStore>(alloc: Global, store: &S, key: &[u8]) -> Result<Values, AllocError> {
    let key = Bytes::from_slice(alloc, key)?;
    let values = store.values(alloc, Id::of_bytes(key.as_slice()), &key);
    drop(key);
    values
}

fn values<S: EntryStore>(alloc: Global, store: &S, key: &str) -> Result<Text, AllocError> {
    let values = values_under(alloc, store, key.as_bytes())?;
    let mut text = Text::of("values");
    for value in values.as_slice() {
        let value = from_utf8(value.as_slice()).unwrap_or("?");
        text = text.and_str(" ", 1).and_str(value, 16);
    }
    drop(values);
    Ok(text)
}

fn numbered<S: EntryStore>(alloc: Global, store: &S, key: &str) -> Result<Text, AllocError> {
    let values = values_under(alloc, store, key.as_bytes())?;
    let count = values.as_slice().len();
    let are_numbered = values.as_slice().iter().enumerate().all(|(place, value)| {
        value.as_slice() == digits(place.saturating_add(1)).as_str().as_bytes()
    });
    drop(values);
    if are_numbered {
        Ok(Text::of(format_args!("{count}")))
    } else {
        Ok(Text::of("others"))
    }
}

fn copy<S: EntryStore>(alloc: Global, store: &S, span: Span) -> Text {
    let Ok(pairs) = store.copy_span(alloc, &span) else {
        return Text::of(MEMORY);
    };
    let mut text = Text::of("pairs");
    for pair in pairs.as_slice() {
        let pair = PairText(pair);
        text = text.and(format_args!(" {pair}"), 64);
    }
    drop(pairs);
    text
}

/// Puts the pairs into the store at once if it is empty.
fn put_at_once<S: EntryStore>(store: &mut S, list: PairList) -> Text {
    if store.count() != 0 {
        drop(list);
        return Text::of("NotEmpty");
    }
    let put = put_list(store, &list);
    drop(list);
    match put {
        Ok(()) => Text::of("Put"),
        Err(fault) => name_of(&fault),
    }
}

fn two(alloc: Global) -> Result<PairList, AllocError> {
    let mut pairs = PairList::new(alloc);
    pairs.insert(b"a", b"x")?;
    pairs.insert(b"b", b"x")?;
    Ok(pairs)
}

// How many long pairs there are.
const COUNT: u8 = 36;

// A length that needs memory.
const LONG: usize = 25;

fn long_pair(alloc: Global, number: u64) -> Result<Pair, LineFault> {
    if number >= COUNT as u64 {
        return Err(GrammarFault::NoLine.into());
    }
    let number = number as u8;
    Ok(pair_of(alloc, &[number / 3; LONG], &[number; LONG])?)
}

fn long_list(alloc: Global) -> Result<PairList, AllocError> {
    let mut list = PairList::new(alloc);
    for number in 0..COUNT {
        list.insert(&[number / 3; LONG], &[number; LONG])?;
    }
    Ok(list)
}

/// Copies of all pairs, tried again if memory was refused.
fn all_pairs<S: EntryStore>(alloc: Global, store: &S) -> Result<Vec<Pair>, AllocError> {
    let id = Id::new(7);
    let circle = Span::new(id, id);
    match store.copy_span(alloc, &circle) {
        Ok(pairs) => Ok(pairs),
        Err(_) => store.copy_span(alloc, &circle),
    }
}

fn is_long(bytes: &[u8], number: usize) -> bool {
    bytes == [(number % 256) as u8; LONG].as_slice()
}

/// Whether it is pair `number`.
fn is_long_pair(number: usize, pair: &Pair) -> bool {
    is_long(pair.key.as_slice(), number / 3) && is_long(pair.value.as_slice(), number)
}

fn all<S: EntryStore>(alloc: Global, store: &S) -> Result<Text, AllocError> {
    let pairs = all_pairs(alloc, store)?;
    let are_all = pairs.len() == COUNT as usize
        && pairs
            .iter()
            .enumerate()
            .all(|(number, pair)| is_long_pair(number, pair));
    drop(pairs);
    Ok(yes_or_no(are_all))
}

fn fifth<S: EntryStore>(alloc: Global, store: &S) -> Result<Text, AllocError> {
    let values = values_under(alloc, store, &[5; LONG])?;
    let are_there = values.as_slice().len() == 3
        && values.as_slice().iter().enumerate().all(|(place, value)| is_long(
            value.as_slice(),
            place.saturating_add(15),
        ));
    drop(values);
    Ok(yes_or_no(are_there))
}
