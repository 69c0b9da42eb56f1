//! A session without an asker: what is done with each request, and what is kept. This is all that
//! `chord_session` offers. The rules are those of docs/protocol.md.
//!
//! `come 2/1 b B`: request 2, with floor 1, inserts b; if it is to be asked or asked about again,
//! it gets a reply frame of three bytes that begins with B, or none where the line has none. What
//! comes is what is done with it, and the first byte of the frame that is kept under its number.
//! `newest`: the value of the request added last. Behind `; ` stand the floor, the last number, and
//! the bytes of the kept frames.

use chord_app_text::{GrammarFault, LineFault, Words};
use chord_map::{Bytes, Request};
use chord_session::{Move, Session};
use chord_testkit::{Fresh, Subject, Text, follow, two_numbers};
use chord_wire::WireRequest;
use std::alloc::Global;
use std::str::from_utf8;
use std::test::Fail;

#[derive(Drop)]
struct Alone {
    alloc: Global,
    session: Session,
}

impl Fresh for Alone {
    fn fresh(alloc: Global) -> Alone {
        Alone {
            alloc,
            session: Session::new(alloc),
        }
    }
}

impl Subject for Alone {
    fn act(&mut self, words: &mut Words) -> Result<Text, LineFault> {
        let session = &mut self.session;
        match words.word()? {
            "come" => come(self.alloc, session, words),
            "newest" if session.floor() != session.last() => {
                Ok(letters(session.newest().value()))
            }
            _ => Err(GrammarFault::NoLine.into()),
        }
    }

    fn show(&self) -> Text {
        let floor = self.session.floor();
        let last = self.session.last();
        let bytes = self.session.bytes();
        Text::of(format_args!("floor {floor}, last {last}, kept {bytes}"))
    }
}

fn letters(bytes: &[u8]) -> Text {
    Text::of(from_utf8(bytes).unwrap_or("?"))
}

fn come(alloc: Global, session: &mut Session, words: &mut Words) -> Result<Text, LineFault> {
    let (number, floor) = two_numbers(words, "/")?;
    let value = words.word()?.as_bytes();
    let reply = if words.has_more() {
        words.word()?.as_bytes()
    } else {
        b"".as_slice()
    };
    let request = Request::insert(alloc, b"a", value)?;
    if request.check().is_err() || number <= floor || number - floor > 16 {
        return Err(GrammarFault::NoLine.into());
    }
    let wire = WireRequest {
        version: 2,
        number,
        floor,
        request,
    };
    let does = session.accept(&wire);
    match does {
        Move::Ask => session.add(wire.request)?,
        _ => drop(wire),
    }
    if let (Move::Ask | Move::Retry, [first]) = (does, reply) {
        keep(alloc, session, number, *first)?;
    }
    let frame = first_of_frame(session, number);
    let frame = frame.as_str();
    Ok(Text::of(format_args!("{does:?}{frame}")))
}

/// Keeps a reply frame of three bytes.
fn keep(alloc: Global, session: &mut Session, number: u64, first: u8) -> Result<(), LineFault> {
    let frame = Bytes::from_slice(alloc, &[first, 0, 0])?;
    if number <= session.floor() || session.last() < number {
        drop(frame);
        return Err(GrammarFault::NoLine.into());
    }
    session.keep(number, frame);
    Ok(())
}

fn first_of_frame(session: &Session, number: u64) -> Text {
    let text = Text::of(" ");
    if number <= session.floor() {
        return Text::of("");
    }
    match session.frame_of(number).map(|frame| frame.as_slice()) {
        Some([first, ..]) => text.and_str(letters(&[*first]).as_str(), 8),
        _ => Text::of(""),
    }
}

const SCRIPTS: &str = "
== each request has its move
come 2/0 b > Refuse(BadNumber)
come 1/0 a A > Ask A; floor 0, last 1, kept 3
come 1/0 a > Again A
come 1/0 x > Refuse(NumberReused) A
come 2/0 b > Ask; floor 0, last 2, kept 3
come 3/0 c C > Ask C; floor 0, last 3, kept 6
# the floor of a retry drops what is kept at or below it
come 2/1 b B > Retry B; floor 1, last 3, kept 6
come 1/0 a > Refuse(BadNumber)
come 4/3 d > Ask; floor 3, last 4, kept 0
come 5/4 e E > Ask E; floor 4, last 5, kept 3
come 4/3 d > Refuse(BadNumber)

== the request added last is the newest
come 1/0 a > Ask; floor 0, last 1, kept 0
newest > a
come 2/0 b > Ask; floor 0, last 2, kept 0
newest > b
";

#[test]
fn requests_are_met_as_the_table_says(rt: HostRuntime) -> Result<(), Fail> {
    follow::<Alone>(rt.alloc(), SCRIPTS)
}
