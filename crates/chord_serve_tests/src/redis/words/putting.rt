//! The bytes of answers.

use crate::escapes::{EscapedText, escaped, escaped_word};
use chord_app_text::{GrammarFault, LineFault, Words};
use chord_map::{Bytes, Values};
use chord_resp::{
    Progress, ProtocolError, Refusal, Verb, put_bulk, put_bulks, put_count, put_error, put_integer,
    put_integers, put_null, put_refusal, put_simple,
};
use chord_testkit::{MEMORY, Text, two_numbers};
use std::alloc::{AllocError, Global};

/// An output that has an answer.
const BEFORE: &[u8] = b"+OK\r\n";

/// The output behind an answer. One that was refused memory may not have changed.
fn outcome(put: Result<(), AllocError>, out: Vec<u8>) -> Text {
    let text = match put {
        Ok(()) => Text::of(EscapedText(&out)),
        Err(_) if out.as_slice() == BEFORE => Text::of(MEMORY),
        Err(_) => Text::of("a part of an answer"),
    };
    drop(out);
    text
}

/// Adds the answer of this name.
pub fn put(alloc: Global, name: &str, words: &mut Words) -> Result<Text, LineFault> {
    let mut out = Vec::from_slice(alloc, BEFORE)?;
    let put = match name {
        "simple" => put_simple(&mut out, &escaped(alloc, words)?),
        "error" => put_error(&mut out, &escaped(alloc, words)?),
        "integer" => put_integer(&mut out, words.number()?),
        "null" => put_null(&mut out),
        "bulk" => put_bulk(&mut out, &bulk(alloc, words)?),
        "count" => put_count(&mut out, words.number()? as usize),
        "bulks" => {
            let values = values(alloc, words)?;
            let put = put_bulks(&mut out, values.as_slice());
            drop(values);
            put
        }
        "integers" => put_integers(&mut out, &[words.number()?, words.number()?]),
        _ => return Err(GrammarFault::NoLine.into()),
    };
    Ok(outcome(put, out))
}

/// The word, or no byte.
fn bulk(alloc: Global, words: &mut Words) -> Result<Vec<u8>, LineFault> {
    if words.has_more() {
        escaped_word(alloc, words)
    } else {
        Ok(Vec::new(alloc))
    }
}

fn values(alloc: Global, words: &mut Words) -> Result<Values, LineFault> {
    let mut values = Values::new(alloc);
    for _ in 0..8u64 {
        if words.has_more() {
            let value = escaped_word(alloc, words)?;
            values.push(Bytes::from_slice(alloc, &value)?)?;
        }
    }
    Ok(values)
}

fn progress(words: &mut Words) -> Result<Progress, LineFault> {
    let (done, of) = two_numbers(words, "/")?;
    Ok(Progress { done, of })
}

/// The error of a refusal.
pub fn refusal(alloc: Global, words: &mut Words) -> Result<Text, LineFault> {
    let mut out = Vec::from_slice(alloc, BEFORE)?;
    let refusal = match words.word()? {
        "SetFull" => Refusal::SetFull(progress(words)?),
        "StoreFull" => Refusal::StoreFull(progress(words)?),
        "NoAnswer" => Refusal::NoAnswer(progress(words)?),
        "BadCount" => Refusal::Protocol(ProtocolError::BadCount),
        "BadLength" => Refusal::Protocol(ProtocolError::BadLength),
        "TooLong" => Refusal::Protocol(ProtocolError::TooLong),
        "Unbalanced" => Refusal::Protocol(ProtocolError::Unbalanced),
        "NoDollar" => match escaped_word(alloc, words)?.as_slice() {
            [byte] => Refusal::Protocol(ProtocolError::NoDollar(*byte)),
            _ => return Err(GrammarFault::NoLine.into()),
        },
        "WrongNumber" => Refusal::WrongNumber(Verb::Sadd),
        _ => return Err(GrammarFault::NoLine.into()),
    };
    let put = put_refusal(alloc, &mut out, &refusal);
    drop(refusal);
    Ok(outcome(put, out))
}
