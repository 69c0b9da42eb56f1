//! Words of lines that `Words` does not read.

use chord_app_text::{GrammarFault, LineFault, Words};
use chord_handover::Ticket;
use chord_ident::{Id, Span};
use chord_links::Peer;

/// Two numbers with this between them, as `1/2`.
pub fn two_numbers(words: &mut Words, between: &str) -> Result<(u64, u64), LineFault> {
    let word = words.word()?;
    let Some((first, second)) = word.split_once(between) else {
        return Err(GrammarFault::NoLine.into());
    };
    Ok((Words::new(first).number()?, Words::new(second).number()?))
}

/// The number after this name if the name comes next, as `floor 1`, or else the other number.
pub fn number_after(words: &mut Words, name: &str, otherwise: u64) -> Result<u64, LineFault> {
    let mut ahead = *words;
    match ahead.word() {
        Ok(word) if word == name => {}
        _ => return Ok(otherwise),
    }
    *words = ahead;
    words.number()
}

/// The identifier of a word, as `IdText` shows it.
fn id_of(word: &str) -> Result<Id, LineFault> {
    match word {
        "0" => Ok(Id::new(0)),
        "A" => Ok(Id::new(0x40000000000000000000000000000000)),
        "B" => Ok(Id::new(0x80000000000000000000000000000000)),
        "C" => Ok(Id::new(0xc0000000000000000000000000000000)),
        _ => Words::new(word).id(),
    }
}

/// A node with its identifier, as `1@C`.
pub fn peer(words: &mut Words) -> Result<Peer, LineFault> {
    let word = words.word()?;
    let Some((number, id)) = word.split_once("@") else {
        return Err(GrammarFault::NoLine.into());
    };
    Ok(Peer {
        number: Words::new(number).number()?,
        id: id_of(id)?,
    })
}

/// An identifier, as `A`.
pub fn ident(words: &mut Words) -> Result<Id, LineFault> {
    id_of(words.word()?)
}

/// A span, as `(A B]`.
pub fn span(words: &mut Words) -> Result<Span, LineFault> {
    let Some(after) = words.word()?.strip_prefix("(") else {
        return Err(GrammarFault::NoLine.into());
    };
    let Some(upto) = words.word()?.strip_suffix("]") else {
        return Err(GrammarFault::NoLine.into());
    };
    Ok(Span::new(id_of(after)?, id_of(upto)?))
}

/// The name of a handover, as `0#1 to 2`: the first one of node 0 to node 2.
pub fn ticket(words: &mut Words) -> Result<Ticket, LineFault> {
    let (from, number) = two_numbers(words, "#")?;
    if words.word()? != "to" {
        return Err(GrammarFault::NoLine.into());
    }
    let to = words.number()?;
    Ok(Ticket { from, to, number })
}
