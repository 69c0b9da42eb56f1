//! How scripts write the frames of docs/protocol.md.
//!
//! - `insert.1.a.x`, `retrieve.2.a`, `remove.3.a.x`: requests 1, 2 and 3 of version 1, with the key
//!   a and the value x. `insert.2/1.a.#300`: request 2 of version 2, with floor 1, and a value of
//!   300 bytes x.
//! - `open`, `resume`: the session begins, or goes on; its token is the bytes 1 to 16. `close`.
//! - `added.1`, `present.1`, `removed.3`, `absent.3`, `values.2`, `values.2.x.y`: the answers to
//!   requests 1, 2 and 3. `fault.1.8`: fault 8 of request 1.
//! - `opened.3.9`: the session has floor 3 and the last number 9. `closed`.
//! - `x.0000000b`: these bytes.
//!
//! Behind a frame `@17=02` puts the byte 02 at the place 17, from 0, and `:5` leaves the first five
//! bytes. Before it `700*` repeats it. `three` and `twelve` are the requests of `THREE` and
//! `TWELVE`.

use chord_app_text::{GrammarFault, LineFault, Words};
use std::alloc::Global;

/// A value is put under a key, asked for, and removed.
pub const THREE: &str = "insert.1.a.x retrieve.2.a remove.3.a.x";

/// What is inserted once is removed, and inserted again.
pub const TWELVE: &str = "insert.1/0.a.x retrieve.2/0.a remove.3/0.a.x insert.4/0.a.x \
    insert.5/0.a.x retrieve.6/0.a insert.7/0.b.y retrieve.8/0.b remove.9/0.b.z remove.10/0.b.y \
    retrieve.11/0.a retrieve.12/0.b";

/// The frames of all words that are left.
pub fn frames(alloc: Global, words: &mut Words) -> Result<Vec<u8>, LineFault> {
    let mut out = Vec::new(alloc);
    for _ in 0..64u64 {
        if words.has_more() {
            match words.word()? {
                "three" => put_all(alloc, &mut out, THREE)?,
                "twelve" => put_all(alloc, &mut out, TWELVE)?,
                word => put_repeated(alloc, &mut out, word)?,
            }
        }
    }
    Ok(out)
}

/// The frames of a text.
pub fn frames_of(alloc: Global, text: &str) -> Result<Vec<u8>, LineFault> {
    frames(alloc, &mut Words::new(text))
}

fn put_all(alloc: Global, out: &mut Vec<u8>, text: &str) -> Result<(), LineFault> {
    for word in text.split(" ") {
        put_repeated(alloc, out, word)?;
    }
    Ok(())
}

fn put_repeated(alloc: Global, out: &mut Vec<u8>, word: &str) -> Result<(), LineFault> {
    let (count, word) = match word.split_once("*") {
        Some((count, word)) => (Words::new(count).number()?, word),
        None => (1, word),
    };
    let frame = changed(alloc, word)?;
    for _ in 0..count {
        out.extend_from_slice(&frame)?;
    }
    Ok(())
}

/// The frame of a word, with its changes.
fn changed(alloc: Global, word: &str) -> Result<Vec<u8>, LineFault> {
    let (word, most) = match word.split_once(":") {
        Some((word, most)) => (word, Words::new(most).number()? as usize),
        None => (word, usize::MAX),
    };
    let mut parts = word.split("@");
    let mut frame = frame(alloc, parts.next().unwrap_or(""))?;
    for change in parts {
        put_byte(&mut frame, change)?;
    }
    frame.truncate(most);
    Ok(frame)
}

fn put_byte(frame: &mut [u8], change: &str) -> Result<(), LineFault> {
    let Some((place, byte)) = change.split_once("=") else {
        return Err(GrammarFault::NoLine.into());
    };
    let place = Words::new(place).number()? as usize;
    match (frame.get_mut(place), u8::from_str_radix(byte, 16)) {
        (Some(old), Ok(byte)) => {
            *old = byte;
            Ok(())
        }
        _ => Err(GrammarFault::NoLine.into()),
    }
}

fn frame(alloc: Global, word: &str) -> Result<Vec<u8>, LineFault> {
    if let Some(digits) = word.strip_prefix("x.") {
        let bytes = Words::new(digits).bytes(alloc)?;
        return Ok(Vec::from_slice(alloc, bytes.as_slice())?);
    }
    let mut body = Vec::new(alloc);
    put_body(&mut body, word)?;
    let len = (body.len() % 0x1_0000) as u32;
    let mut frame = Vec::from_slice(alloc, &len.to_be_bytes())?;
    frame.extend_from_slice(&body)?;
    Ok(frame)
}

fn put_body(out: &mut Vec<u8>, word: &str) -> Result<(), LineFault> {
    let mut fields = word.split(".");
    let kind = fields.next().unwrap_or("");
    let number = fields.next().unwrap_or("0");
    let (first, second) = (fields.next(), fields.next());
    match kind {
        "insert" => put_request(out, 1, number, [first, second]),
        "retrieve" => put_request(out, 2, number, [first, second]),
        "remove" => put_request(out, 3, number, [first, second]),
        "open" => put_open(out, 0),
        "resume" => put_open(out, 1),
        "close" => put_head(out, [2, 5], &[0, 0]),
        "added" => put_status(out, 0x81, number, 1),
        "present" => put_status(out, 0x81, number, 0),
        "removed" => put_status(out, 0x83, number, 1),
        "absent" => put_status(out, 0x83, number, 0),
        "values" => put_values(out, number, [first, second]),
        "fault" => put_status(out, 0xff, number, (number_of(first)? % 0x100) as u8),
        "opened" => put_head(
            out,
            [1, 0x84],
            &[0, number_of(Some(number))?, number_of(first)?],
        ),
        "closed" => put_head(out, [1, 0x85], &[0]),
        _ => Err(GrammarFault::NoLine.into()),
    }
}

fn number_of(text: Option<&str>) -> Result<u64, LineFault> {
    Words::new(text.unwrap_or("")).number()
}

/// A version and an operation, and then numbers of eight bytes.
fn put_head(out: &mut Vec<u8>, codes: [u8; 2], numbers: &[u64]) -> Result<(), LineFault> {
    out.extend_from_slice(&codes)?;
    for number in numbers {
        out.extend_from_slice(&number.to_be_bytes())?;
    }
    Ok(())
}

/// A request: its number, or its number and its floor, as `2/1`; a key, and a value if it has one.
fn put_request(
    out: &mut Vec<u8>,
    operation: u8,
    number: &str,
    [key, value]: [Option<&str>; 2],
) -> Result<(), LineFault> {
    match number.split_once("/") {
        Some((number, floor)) => {
            let numbers = [Words::new(number).number()?, Words::new(floor).number()?];
            put_head(out, [2, operation], &numbers)?;
        }
        None => put_head(out, [1, operation], &[Words::new(number).number()?])?,
    }
    let key = plain(*out.allocator(), key.unwrap_or(""))?;
    out.push((key.len() % 0x100) as u8)?;
    out.extend_from_slice(&key)?;
    match value {
        Some(value) => put_value(out, value),
        None => Ok(()),
    }
}

/// The bytes of a text; of `#300` 300 times x.
pub fn plain(alloc: Global, text: &str) -> Result<Vec<u8>, LineFault> {
    match text.strip_prefix("#") {
        Some(count) => Ok(vec![in alloc; b'x'; Words::new(count).number()? as usize]?),
        None => Ok(Vec::from_slice(alloc, text.as_bytes())?),
    }
}

fn put_value(out: &mut Vec<u8>, value: &str) -> Result<(), LineFault> {
    let value = plain(*out.allocator(), value)?;
    let len = (value.len() % 0x1_0000) as u16;
    out.extend_from_slice(&len.to_be_bytes())?;
    Ok(out.extend_from_slice(&value)?)
}

fn put_open(out: &mut Vec<u8>, resumes: u8) -> Result<(), LineFault> {
    put_head(out, [2, 4], &[0, 0, 0x0102030405060708, 0x090a0b0c0d0e0f10])?;
    Ok(out.push(resumes)?)
}

fn put_status(out: &mut Vec<u8>, kind: u8, number: &str, status: u8) -> Result<(), LineFault> {
    put_head(out, [1, kind], &[number_of(Some(number))?])?;
    Ok(out.push(status)?)
}

fn put_values(out: &mut Vec<u8>, number: &str, values: [Option<&str>; 2]) -> Result<(), LineFault> {
    put_head(out, [1, 0x82], &[Words::new(number).number()?])?;
    let count = values.iter().flatten().count();
    out.extend_from_slice(&[0, 0, 0, (count % 0x100) as u8])?;
    for value in values.iter().flatten() {
        put_value(out, value)?;
    }
    Ok(())
}
