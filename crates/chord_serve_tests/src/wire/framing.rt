//! Scripts of frames and what reads and writes them. Bytes stand as docs/protocol.md has them:
//! length, version, operation, number, and the rest.
//!
//! - `stream requests`: begins a stream of requests; of `answers`, of the frames of a `client`, or
//!   of a `server` with sessions. `feed added.1`: feeds these frames; `bytes`: byte by byte;
//!   `pieces`: byte by byte, and nothing is next before each byte. `next`: what is next.
//! - `read requests insert.1.a.x`: what is first in a new stream of these frames; a fault is told
//!   again, and nothing is consumed. `cut client resume`: the same, and nothing is next in each of
//!   its beginnings.
//! - `opens resume:6`: whether a stream of a client begins with an open.
//! - `back client insert.1.a.x`: what is read of the frame is written again, which gives the frame:
//!   its bytes, or how many.
//! - `writable values #4096`: whether a reply has a frame, here of a value of 4,096 bytes.
//! - `code 1`: the fault with this code, its code, what is read of its frame, and its frame. `says
//!   6 7`: its text, and that of the fault of request 7. `token`: how a token is shown.
//!
//! Behind `; ` stands how many bytes are left in the stream.

use crate::frames::{frames, frames_of, plain};
use crate::shown::{FramesText, answer_text};
use chord_app_text::{GrammarFault, Hex, LineFault, Words};
use chord_map::{Bytes, Reply, Values};
use chord_testkit::{Fresh, MEMORY, RequestText, Subject, Text, yes_or_no};
use chord_wire::{
    Answer, Answers, FaultCode, Frames, SessionAnswer, SessionAnswers, SessionFrame, SessionFrames,
    Token, WireFault, WireRequest, is_writable, write_close, write_closed, write_fault, write_open,
    write_opened, write_reply, write_request, write_request_2,
};
use std::alloc::Global;
use std::mem;

#[derive(Drop)]
enum Stream {
    Requests(Frames),
    Answers(Answers),
    Client(SessionFrames),
    Server(SessionAnswers),
}

#[derive(Drop)]
pub struct Framing {
    alloc: Global,
    stream: Stream,
}

impl Fresh for Framing {
    fn fresh(alloc: Global) -> Framing {
        Framing {
            alloc,
            stream: Stream::Requests(Frames::new(alloc)),
        }
    }
}

impl Subject for Framing {
    fn act(&mut self, words: &mut Words) -> Result<Text, LineFault> {
        let alloc = self.alloc;
        match words.word()? {
            "stream" => {
                let stream = stream_of(alloc, words)?;
                let before = mem::replace(&mut self.stream, stream);
                drop(before);
                Ok(Text::of("Begun"))
            }
            "feed" => Ok(fed(feed(&mut self.stream, &frames(alloc, words)?))),
            "bytes" => Ok(feed_bytes(&mut self.stream, &frames(alloc, words)?, false)),
            "pieces" => Ok(feed_bytes(&mut self.stream, &frames(alloc, words)?, true)),
            "next" => Ok(next_text(&mut self.stream)),
            "read" => read(alloc, words),
            "cut" => cut(alloc, words),
            word => look(alloc, word, words),
        }
    }

    fn show(&self) -> Text {
        let left = left(&self.stream);
        Text::of(format_args!("left {left}"))
    }
}

fn look(alloc: Global, word: &str, words: &mut Words) -> Result<Text, LineFault> {
    match word {
        "opens" => opens(alloc, words),
        "back" => back(alloc, words),
        "writable" => writable(alloc, words),
        "code" => code(alloc, words),
        "says" => says(words),
        "token" => {
            let token = Token { bytes: [7; 16] };
            Ok(Text::of(format_args!("{token:?}")))
        }
        _ => Err(GrammarFault::NoLine.into()),
    }
}

/// The bytes between two places, or none.
fn part(bytes: &[u8], from: usize, to: usize) -> Hex<'_> {
    let part = bytes.get(from..to).unwrap_or(&[]);
    Hex(part)
}

/// Length, version, operation, number and the rest of a frame.
fn fields(bytes: &[u8]) -> Text {
    let (length, version, operation) = (part(bytes, 0, 4), part(bytes, 4, 5), part(bytes, 5, 6));
    let (number, rest) = (part(bytes, 6, 14), part(bytes, 14, bytes.len().max(14)));
    Text::of(format_args!("{length} {version} {operation} {number} {rest}"))
}

fn stream_of(alloc: Global, words: &mut Words) -> Result<Stream, LineFault> {
    match words.word()? {
        "requests" => Ok(Stream::Requests(Frames::new(alloc))),
        "answers" => Ok(Stream::Answers(Answers::new(alloc))),
        "client" => Ok(Stream::Client(SessionFrames::new(alloc))),
        "server" => Ok(Stream::Server(SessionAnswers::new(alloc))),
        _ => Err(GrammarFault::NoLine.into()),
    }
}

fn feed(stream: &mut Stream, piece: &[u8]) -> Result<(), WireFault> {
    match stream {
        Stream::Requests(stream) => stream.feed(piece),
        Stream::Answers(stream) => stream.feed(piece),
        Stream::Client(stream) => stream.feed(piece),
        Stream::Server(stream) => stream.feed(piece),
    }
}

fn left(stream: &Stream) -> usize {
    match stream {
        Stream::Requests(stream) => stream.left(),
        Stream::Answers(stream) => stream.left(),
        Stream::Client(stream) => stream.left(),
        Stream::Server(stream) => stream.left(),
    }
}

fn next(stream: &mut Stream) -> Result<Option<Text>, WireFault> {
    match stream {
        Stream::Requests(stream) => Ok(stream.next()?.map(request_text)),
        Stream::Answers(stream) => Ok(stream.next()?.map(told_text)),
        Stream::Client(stream) => Ok(stream.next()?.map(client_text)),
        Stream::Server(stream) => Ok(stream.next()?.map(server_text)),
    }
}

fn request_text(wire: WireRequest) -> Text {
    let version = wire.version;
    let number = wire.number;
    let floor = wire.floor;
    let request = RequestText(&wire.request);
    let text = Text::of(format_args!("version {version} {number}/{floor} {request}"));
    drop(wire);
    text
}

fn told_text(answer: Answer) -> Text {
    let text = answer_text(&answer);
    drop(answer);
    text
}

fn client_text(frame: SessionFrame) -> Text {
    match frame {
        SessionFrame::Request(wire) => request_text(wire),
        SessionFrame::Open(opening) => {
            let name = if opening.resumes { "resume" } else { "open" };
            let token = Hex(&opening.token.bytes);
            Text::of(format_args!("{name} {token}"))
        }
        SessionFrame::Close => Text::of("close"),
    }
}

fn server_text(answer: SessionAnswer) -> Text {
    match answer {
        SessionAnswer::Answer(answer) => told_text(answer),
        SessionAnswer::Opened { floor, last } => Text::of(format_args!("opened {floor} {last}")),
        SessionAnswer::Closed => Text::of("closed"),
    }
}

fn fault_text(fault: WireFault) -> Text {
    let WireFault { code, number } = fault;
    match code {
        FaultCode::Memory => Text::of(MEMORY),
        code => Text::of(format_args!("{code:?} {number}")),
    }
}

fn fed(fed: Result<(), WireFault>) -> Text {
    match fed {
        Ok(()) => Text::of("Fed"),
        Err(fault) => fault_text(fault),
    }
}

fn next_text(stream: &mut Stream) -> Text {
    match next(stream) {
        Ok(text) => text.unwrap_or(Text::of("None")),
        Err(fault) => fault_text(fault),
    }
}

/// Feeds a byte, again if memory was refused and nothing changed.
fn feed_byte(stream: &mut Stream, byte: u8) -> bool {
    let before = left(stream);
    if feed(stream, &[byte]).is_err() {
        return left(stream) == before && feed(stream, &[byte]).is_ok();
    }
    left(stream) == before.saturating_add(1)
}

fn feed_bytes(stream: &mut Stream, bytes: &[u8], looks: bool) -> Text {
    for (place, byte) in bytes.iter().enumerate() {
        if looks && next_text(stream).as_str() != "None" {
            return Text::of(format_args!("something before byte {place}"));
        }
        if !feed_byte(stream, *byte) {
            return Text::of(format_args!("changed by byte {place}, which was refused"));
        }
    }
    Text::of("Fed")
}

/// What is first in a stream that was fed; a fault must come again and leave the stream.
fn first_of(stream: &mut Stream) -> Text {
    let before = left(stream);
    match next(stream) {
        Ok(text) => text.unwrap_or(Text::of("None")),
        Err(fault) if fault.code == FaultCode::Memory => Text::of(MEMORY),
        Err(fault) => {
            let text = fault_text(fault);
            if next(stream).err() == Some(fault) && left(stream) == before {
                text
            } else {
                Text::of("another fault at the second call")
            }
        }
    }
}

fn read(alloc: Global, words: &mut Words) -> Result<Text, LineFault> {
    let mut stream = stream_of(alloc, words)?;
    let input = frames(alloc, words)?;
    if let Err(fault) = feed(&mut stream, &input) {
        return Ok(fault_text(fault));
    }
    let text = first_of(&mut stream);
    drop(stream);
    Ok(text)
}

fn cut(alloc: Global, words: &mut Words) -> Result<Text, LineFault> {
    let kind = words.word()?;
    let input = frames(alloc, words)?;
    let mut text = Text::of("nothing");
    for len in 0..input.len() {
        let (front, rest) = input.split_at(len);
        let mut stream = stream_of(alloc, &mut Words::new(kind))?;
        let is_nothing = feed(&mut stream, front).is_ok()
            && next_text(&mut stream).as_str() == "None"
            && left(&stream) == len
            && feed(&mut stream, rest).is_ok();
        text = first_of(&mut stream);
        let is_whole = left(&stream) == 0;
        drop(stream);
        if !is_nothing || !is_whole {
            let text = text.as_str();
            return Ok(Text::of(format_args!("cut at {len}: {text}")));
        }
    }
    Ok(text)
}

fn opens(alloc: Global, words: &mut Words) -> Result<Text, LineFault> {
    let input = frames(alloc, words)?;
    let mut stream = SessionFrames::new(alloc);
    let is_fed = stream.feed(&input).is_ok();
    let opens = stream.begins_with_open();
    drop(stream);
    match opens {
        _ if !is_fed => Ok(Text::of(MEMORY)),
        Some(opens) => Ok(yes_or_no(opens)),
        None => Ok(Text::of("None")),
    }
}

/// Writes again what is read of a frame, which must be that frame.
fn back(alloc: Global, words: &mut Words) -> Result<Text, LineFault> {
    let kind = words.word()?;
    let input = frames(alloc, words)?;
    let written = if kind == "client" {
        client_frame(alloc, &input)?
    } else {
        server_frame(alloc, &input)?
    };
    let len = written.len();
    if written != input {
        return Ok(Text::of("another frame"));
    }
    if len > 64 {
        return Ok(Text::of(format_args!("{len} bytes")));
    }
    Ok(fields(&written))
}

/// What a line that should be read is, if it is not.
fn unread(fault: WireFault) -> LineFault {
    match fault.code {
        FaultCode::Memory => LineFault::OutOfMemory,
        _ => GrammarFault::NoLine.into(),
    }
}

fn client_frame(alloc: Global, input: &[u8]) -> Result<Vec<u8>, LineFault> {
    let mut stream = SessionFrames::new(alloc);
    stream.feed(input).map_err(unread)?;
    match stream.next().map_err(unread)? {
        Some(SessionFrame::Request(wire)) => request_frame(alloc, &wire),
        Some(SessionFrame::Open(opening)) => Ok(write_open(alloc, opening)?),
        Some(SessionFrame::Close) => Ok(write_close(alloc)?),
        None => Err(GrammarFault::NoLine.into()),
    }
}

/// The frame of a request that keeps the limits.
fn request_frame(alloc: Global, wire: &WireRequest) -> Result<Vec<u8>, LineFault> {
    let (number, floor) = (wire.number, wire.floor);
    if wire.request.check().is_err() || floor >= number || number - floor > 16 {
        return Err(GrammarFault::NoLine.into());
    }
    if wire.version == 1 {
        Ok(write_request(alloc, number, &wire.request)?)
    } else {
        Ok(write_request_2(alloc, number, floor, &wire.request)?)
    }
}

fn server_frame(alloc: Global, input: &[u8]) -> Result<Vec<u8>, LineFault> {
    let mut stream = SessionAnswers::new(alloc);
    stream.feed(input).map_err(unread)?;
    match stream.next().map_err(unread)? {
        Some(SessionAnswer::Answer(answer)) => answer_frame(alloc, &answer),
        Some(SessionAnswer::Opened { floor, last }) => Ok(write_opened(alloc, floor, last)?),
        Some(SessionAnswer::Closed) => Ok(write_closed(alloc)?),
        None => Err(GrammarFault::NoLine.into()),
    }
}

fn answer_frame(alloc: Global, answer: &Answer) -> Result<Vec<u8>, LineFault> {
    match answer {
        Answer::Reply { number, reply } if is_writable(reply) => {
            Ok(write_reply(alloc, *number, reply)?)
        }
        Answer::Fault { number, code } if *code != FaultCode::Memory => {
            Ok(write_fault(alloc, *number, *code)?)
        }
        _ => Err(GrammarFault::NoLine.into()),
    }
}

/// Whether a reply of these values has a frame, or one without values.
fn writable(alloc: Global, words: &mut Words) -> Result<Text, LineFault> {
    if words.word()? == "absent" {
        return Ok(yes_or_no(is_writable(&Reply::Absent)));
    }
    let mut values = Values::new(alloc);
    for _ in 0..8u64 {
        if words.has_more() {
            values.push(Bytes::from_slice(alloc, &plain(alloc, words.word()?)?)?)?;
        }
    }
    let reply = Reply::Values(values.share()?);
    let text = yes_or_no(is_writable(&reply));
    drop(reply);
    Ok(text)
}

fn code(alloc: Global, words: &mut Words) -> Result<Text, LineFault> {
    let number = (words.number()? % 0x100) as u8;
    let frame = Text::of(format_args!("fault.1.{number}"));
    let frame = frames_of(alloc, frame.as_str())?;
    let mut answers = Stream::Answers(Answers::new(alloc));
    if let Err(fault) = feed(&mut answers, &frame) {
        return Ok(fault_text(fault));
    }
    let read = first_of(&mut answers);
    drop(answers);
    let read = read.as_str();
    let Some(code) = FaultCode::from_number(number) else {
        return Ok(Text::of(format_args!("None, read {read}")));
    };
    let fault = Answer::Fault { number: 1, code };
    let written = answer_frame(alloc, &fault)?;
    drop(fault);
    let number = code.to_number();
    let written = FramesText(&written);
    Ok(Text::of(format_args!("{code:?} {number}, read {read}, wrote{written}")))
}

fn says(words: &mut Words) -> Result<Text, LineFault> {
    let number = (words.number()? % 0x100) as u8;
    let Some(code) = FaultCode::from_number(number) else {
        return Err(GrammarFault::NoLine.into());
    };
    if words.has_more() {
        let number = words.number()?;
        return Ok(Text::of(WireFault { code, number }));
    }
    Ok(Text::of(code))
}
