//! Calls of caller 0 to a node.

use chord_app_text::{GrammarFault, LineFault, Words};
use chord_caller::Ask;
use chord_ident::Id;
use chord_journal::JournalBuffer;
use chord_map::{Done, Request};
use chord_node::{Answered, Node};
use chord_segment::Past;
use chord_store::EntryStore;
use chord_testkit::{AnsweredText, CallText, MEMORY, Text, number_after};
use std::alloc::Global;

fn request(alloc: Global, words: &mut Words) -> Result<Request, LineFault> {
    let kind = words.word()?;
    let key = words.word()?;
    let value = if kind == "retrieve" {
        ""
    } else {
        words.word()?
    };
    let (key, value) = (key.as_bytes(), value.as_bytes());
    let request = match kind {
        "insert" => Request::insert(alloc, key, value),
        "remove" => Request::remove(alloc, key, value),
        "retrieve" => Request::retrieve(alloc, key),
        _ => return Err(GrammarFault::NoLine.into()),
    };
    Ok(request?)
}

/// The call that the words say.
pub fn ask(alloc: Global, words: &mut Words) -> Result<Ask, LineFault> {
    let number = words.number()?;
    let floor = number_after(words, "floor", 0)?;
    let hops = number_after(words, "hops", 255)?;
    if floor >= number || number - floor > 16 || hops > 255 {
        return Err(GrammarFault::NoLine.into());
    }
    let request = request(alloc, words)?;
    Ok(Ask {
        caller: 0,
        number,
        floor,
        request,
        hops: hops as u8,
    })
}

/// What the node answers, and what it executes.
pub fn send<S: EntryStore>(alloc: Global, node: &mut Node<S>, is_lent: bool, ask: Ask) -> Text {
    if is_lent {
        lend(node, ask)
    } else {
        hand_over(alloc, node, ask)
    }
}

fn lend<S: EntryStore>(node: &mut Node<S>, ask: Ask) -> Text {
    let answer = node.on_ask(&ask);
    drop(ask);
    match answer {
        Ok((answered, done)) => with_done(answer_of(answered), done),
        Err(_) => Text::of(MEMORY),
    }
}

fn hand_over<S: EntryStore>(alloc: Global, node: &mut Node<S>, ask: Ask) -> Text {
    let number = ask.number;
    let was_kept = kept(node, number).is_some();
    let id = Id::of_bytes(ask.request.key());
    let Ok(answered) = node.take_ask(id, ask, &mut JournalBuffer::none(alloc)) else {
        return Text::of(MEMORY);
    };
    let text = answer_of(answered);
    match kept(node, number) {
        Some(done) if !was_kept => with_executed(text, done),
        _ => text,
    }
}

/// What the node's segment keeps of the call of this number.
fn kept<S: EntryStore>(node: &Node<S>, number: u64) -> Option<&Done> {
    match node.segment(0)?.find(0, number) {
        Past::Kept(done) => Some(done),
        _ => None,
    }
}

fn answer_of(answered: Answered) -> Text {
    let text = Text::of(AnsweredText(&answered));
    drop(answered);
    text
}

fn with_done(text: Text, done: Option<Done>) -> Text {
    let text = match &done {
        Some(done) => with_executed(text, done),
        None => text,
    };
    drop(done);
    text
}

fn with_executed(text: Text, done: &Done) -> Text {
    let text = text.as_str();
    let call = CallText::of(done);
    Text::of(format_args!("{text}, executed {call}"))
}
