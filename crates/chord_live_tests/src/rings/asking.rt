//! What scripts do with callers and clients of a ring.
//!
//! - `call 0 insert a x`, `ask`, `try`: the answer to a request from node 0 on, which this thread
//!   carries, which goes through inboxes, or which is tried once. `""` is an empty key.
//! - `begin 0 retrieve a`: the number of a request that is sent.
//! - `again 0 1`, `retry 0 1`, `try-again 0 1`: request 1 once more, as for the first three; of
//!   callers `collect 1`.
//! - `surely 0 insert a x`, `surely-collect 0 1`: the answer, for which the request is sent again
//!   where memory was refused.
//! - `fill 0 300`: 300 inserts of keys of two bytes, from 0 on; the last answer, or the first other
//!   than `added`.
//! - `state`: the floor, the least number that waits, and which of 1, 2 and 3 wait. `look`.

use chord_app_text::{GrammarFault, LineFault, ReplyText, Words};
use chord_live::{AskingCore, Caller, RingCaller};
use chord_live_types::{AskFault, BeginFault};
use chord_map::{Reply, Request};
use chord_store::EntryStore;
use chord_table::Naming;
use chord_testkit::{CallText, MEMORY, Text, name_of};
use std::alloc::Global;
use std::fmt::Debug;
use std::sync::Wait;
use std::time::Clock;

fn bytes(word: &str) -> &[u8] {
    if word == "\"\"" {
        b"".as_slice()
    } else {
        word.as_bytes()
    }
}

fn request(alloc: Global, words: &mut Words) -> Result<Request, LineFault> {
    let name = words.word()?;
    let key = bytes(words.word()?);
    match name {
        "retrieve" => Ok(Request::retrieve(alloc, key)?),
        "insert" => Ok(Request::insert(alloc, key, bytes(words.word()?))?),
        "remove" => Ok(Request::remove(alloc, key, bytes(words.word()?))?),
        _ => Err(GrammarFault::NoLine.into()),
    }
}

/// What was answered, or why nothing was.
pub fn said<F: Debug + Copy>(answer: Result<Reply, F>) -> Text {
    match answer {
        Ok(reply) => {
            let text = Text::of(ReplyText(&reply));
            drop(reply);
            text
        }
        Err(fault) => name_of(&fault),
    }
}

/// The same of a new request, which is not submitted where memory was refused to that.
fn said_of_new(answer: Result<Reply, AskFault>) -> Text {
    let text = said(answer);
    match text.as_str() {
        "Begin(Submit(Memory))" => Text::of(MEMORY),
        _ => text,
    }
}

pub fn asked<J: Naming, S: EntryStore, C: AskingCore, R: Wait + Clock>(
    rt: &R,
    alloc: Global,
    asker: &mut RingCaller<'_, J, S, C>,
    words: &mut Words,
) -> Result<Text, LineFault> {
    let deed = words.word()?;
    match deed {
        "state" => return Ok(state(asker)),
        "look" => {
            asker.look();
            return Ok(Text::of("Done"));
        }
        _ => {}
    }
    let via = words.number()?;
    match deed {
        "call" => Ok(said_of_new(asker.call(rt, via, request(alloc, words)?))),
        "ask" => Ok(said_of_new(asker.ask(rt, via, request(alloc, words)?))),
        "try" => Ok(said_of_new(asker.try_call(rt, via, request(alloc, words)?))),
        "begin" => Ok(begun(asker.begin(rt, via, request(alloc, words)?))),
        "again" => Ok(said(asker.call_again(rt, via, words.number()?))),
        "retry" => Ok(said(asker.retry(rt, via, words.number()?))),
        "try-again" => Ok(said(asker.try_call_again(rt, via, words.number()?))),
        "fill" => fill(rt, alloc, asker, via, words.number()?),
        "surely" => {
            let came = said_of_new(asker.ask(rt, via, request(alloc, words)?));
            Ok(surely(rt, asker, via, came))
        }
        _ => Err(GrammarFault::NoLine.into()),
    }
}

fn fill<J: Naming, S: EntryStore, C: AskingCore, R: Wait + Clock>(
    rt: &R,
    alloc: Global,
    asker: &mut RingCaller<'_, J, S, C>,
    via: u64,
    count: u64,
) -> Result<Text, LineFault> {
    let mut came = Text::of("added");
    for number in 0..count {
        let key = [(number / 256 % 256) as u8, (number % 256) as u8];
        if came.as_str() == "added" {
            let request = Request::insert(alloc, key.as_slice(), b"x")?;
            came = said(asker.call(rt, via, request));
        }
    }
    Ok(came)
}

fn begun(begun: Result<u64, BeginFault>) -> Text {
    match begun {
        Ok(number) => name_of(&number),
        Err(fault) => {
            let text = name_of(&fault);
            match text.as_str() {
                "Submit(Memory)" => Text::of(MEMORY),
                _ => text,
            }
        }
    }
}

/// The answer to a request that got this: where it is pending still, that of sending it again,
/// three times at most. It is carried where no worker answers.
pub fn surely<J: Naming, S: EntryStore, C: AskingCore, R: Wait + Clock>(
    rt: &R,
    asker: &mut RingCaller<'_, J, S, C>,
    via: u64,
    came: Text,
) -> Text {
    let mut came = came;
    for _ in 0..3u64 {
        if let Some(number) = asker.pending() {
            came = said(asker.retry(rt, via, number));
        }
        if let Some(number) = asker.pending() {
            came = said(asker.call_again(rt, via, number));
        }
    }
    came
}

fn state<J: Naming, S: EntryStore, C: AskingCore>(asker: &RingCaller<'_, J, S, C>) -> Text {
    let floor = asker.floor();
    let pending = asker.pending();
    let mut text = Text::of(format_args!("floor {floor}, least {pending:?}, waits"));
    for number in 1..4u64 {
        if asker.is_pending(number) {
            text = text.and(format_args!(" {number}"), 24);
        }
    }
    text
}

/// How many calls a caller took, and those that it was told of.
pub fn calls<J: Naming, S: EntryStore>(caller: &Caller<'_, J, S>) -> Text {
    let mine = caller.mine().len();
    let mut text = Text::of(format_args!("mine {mine}, told"));
    for done in caller.told() {
        let call = CallText::of(done);
        text = text.and(format_args!(" {call}"), 64);
    }
    text
}
