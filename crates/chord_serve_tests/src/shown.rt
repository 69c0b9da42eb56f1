//! How lines show frames and bytes.

use chord_app_text::{Hex, ReplyText};
use chord_testkit::Text;
use chord_wire::Answer;
use std::fmt;

/// Frames, each behind a space, as `frames` has them, and what is left as digits. A frame of other
/// values is shown by its length, as `values.2#4116`.
#[derive(Clone, Copy, Debug)]
pub struct FramesText<'a>(pub &'a [u8]);

impl fmt::Display for FramesText<'_> {
    fn fmt<W: fmt::Write>(&self, f: &mut fmt::Formatter<W>) -> fmt::Result {
        let mut rest = self.0;
        for _ in 0..self.0.len() {
            let Some((frame, behind)) = first_frame(rest) else {
                break;
            };
            let (count, behind) = repeated(frame, behind);
            let text = frame_text(frame);
            let text = text.as_str();
            if count == 1 {
                write!(f, " {text}")?;
            } else {
                write!(f, " {count}*{text}")?;
            }
            rest = behind;
        }
        if rest.is_empty() {
            return Ok(());
        }
        let rest = Hex(rest);
        write!(f, " x.{rest}")
    }
}

/// The first frame, if it is whole, and what is behind it.
pub fn first_frame(bytes: &[u8]) -> Option<(&[u8], &[u8])> {
    let [a, b, c, d, ..] = bytes else {
        return None;
    };
    let len = u32::from_be_bytes([*a, *b, *c, *d]) as usize;
    bytes.split_at_checked(len.saturating_add(4))
}

/// How often the frame comes, which came once, and what is behind it.
fn repeated<'a>(frame: &[u8], bytes: &'a [u8]) -> (u64, &'a [u8]) {
    let mut rest = bytes;
    let mut count = 1u64;
    for _ in 0..bytes.len() {
        let Some(behind) = rest.strip_prefix(frame) else {
            break;
        };
        count = count.saturating_add(1);
        rest = behind;
    }
    (count, rest)
}

/// The number in eight bytes, and what is behind them.
fn number_at(bytes: &[u8]) -> Option<(u64, &[u8])> {
    let [a, b, c, d, e, f, g, h, rest @ ..] = bytes else {
        return None;
    };
    let number = u64::from_be_bytes([*a, *b, *c, *d, *e, *f, *g, *h]);
    Some((number, rest))
}

fn frame_text(frame: &[u8]) -> Text {
    let shown = match frame {
        [_, _, _, _, 1, operation, rest @ ..] => first_version(*operation, rest),
        [_, _, _, _, 2, operation, rest @ ..] => second_version(*operation, rest),
        _ => None,
    };
    let bytes = Hex(frame);
    shown.unwrap_or(Text::of(format_args!("x.{bytes}")))
}

/// An answer, or a request of version 1.
fn first_version(operation: u8, bytes: &[u8]) -> Option<Text> {
    let (number, rest) = number_at(bytes)?;
    match (operation, rest) {
        (0x81, [1]) => Some(Text::of(format_args!("added.{number}"))),
        (0x81, [0]) => Some(Text::of(format_args!("present.{number}"))),
        (0x83, [1]) => Some(Text::of(format_args!("removed.{number}"))),
        (0x83, [0]) => Some(Text::of(format_args!("absent.{number}"))),
        (0xff, [code]) => Some(Text::of(format_args!("fault.{number}.{code}"))),
        (0x82, values) => Some(values_text(number, values)),
        (0x84, _) if number == 0 => opened_text(rest),
        (0x85, []) if number == 0 => Some(Text::of("closed")),
        _ => request_text(operation, Text::of(format_args!("{number}")), rest),
    }
}

/// A request of version 2, or what begins or ends a session.
fn second_version(operation: u8, bytes: &[u8]) -> Option<Text> {
    let (number, rest) = number_at(bytes)?;
    let (floor, rest) = number_at(rest)?;
    match (operation, rest) {
        (4, [token @ .., 0]) if number == 0 && floor == 0 => named("open", token),
        (4, [token @ .., 1]) if number == 0 && floor == 0 => named("resume", token),
        (5, []) if number == 0 && floor == 0 => Some(Text::of("close")),
        _ => request_text(operation, Text::of(format_args!("{number}/{floor}")), rest),
    }
}

/// The name, if the token is the bytes 1 to 16.
fn named(name: &str, token: &[u8]) -> Option<Text> {
    let is_it = token == [1, 2, 3, 4, 5, 6, 7, 8, 9, 10, 11, 12, 13, 14, 15, 16].as_slice();
    is_it.then_some(Text::of(name))
}

fn opened_text(bytes: &[u8]) -> Option<Text> {
    let (floor, rest) = number_at(bytes)?;
    let (last, rest) = number_at(rest)?;
    rest.is_empty()
        .then_some(Text::of(format_args!("opened.{floor}.{last}")))
}

/// No value, one or two of one byte, or others.
fn values_text(number: u64, bytes: &[u8]) -> Text {
    let text = Text::of(format_args!("values.{number}"));
    match bytes {
        [0, 0, 0, 0] => text,
        [0, 0, 0, 1, 0, 1, one] => with_letter(text, *one),
        [0, 0, 0, 2, 0, 1, one, 0, 1, other] => with_letter(with_letter(text, *one), *other),
        _ => {
            let len = bytes.len().saturating_add(14);
            text.and(format_args!("#{len}"), 16)
        }
    }
}

fn with_letter(text: Text, byte: u8) -> Text {
    let letter = char::from(byte);
    text.and(format_args!(".{letter}"), 8)
}

/// A request with a key and a value of one byte.
fn request_text(operation: u8, number: Text, operands: &[u8]) -> Option<Text> {
    let (name, key, value) = match (operation, operands) {
        (1, [1, key, 0, 1, value]) => ("insert.", *key, Some(*value)),
        (3, [1, key, 0, 1, value]) => ("remove.", *key, Some(*value)),
        (2, [1, key]) => ("retrieve.", *key, None),
        _ => return None,
    };
    let text = with_letter(Text::of(name).and_str(number.as_str(), 48), key);
    match value {
        Some(value) => Some(with_letter(text, value)),
        None => Some(text),
    }
}

/// An answer: `1 added`, or `1 Full`.
pub fn answer_text(answer: &Answer) -> Text {
    match answer {
        Answer::Reply { number, reply } => {
            let reply = ReplyText(reply);
            Text::of(format_args!("{number} {reply}"))
        }
        Answer::Fault { number, code } => Text::of(format_args!("{number} {code:?}")),
    }
}
