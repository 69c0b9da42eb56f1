//! An answer as its bytes come.
ghost use Rattle.std.specs.Prelude.{length, All};
ghost use Rattle.httparse.specs.Spans.{IsHeaderWithin};

use crate::fault::RingFault;
use chord_app_operator::PageState;
use http1::{Client, Event, ReadError};
use httparse::spans::{EMPTY_HEADER_SPAN, HeaderSpan};
use std::alloc::Global;
use std::str;

/// The most fields of an answer.
const FIELDS: usize = 64;

/// The most bytes of an answer's body. A page of pairs has at most 18 million: 999 pairs before the
/// last identifier, and 1,000 of its key.
const BODY_BYTES: usize = 67_108_864;

/// The field that names the type of an answer.
const TYPE: &[u8] = b"content-type";

/// The field of a page that says who holds its first identifier.
const STATE: &[u8] = b"chord-page";

/// The field of a page that names the identifier to go on behind.
const NEXT: &[u8] = b"chord-next";

/// An answer of the server.
#[derive(Debug, Drop)]
pub struct Answer {
    /// Its status.
    pub status: u16,
    /// Whether it is plain text.
    pub is_text: bool,
    /// Who holds the first identifier of a page, if it is one.
    pub state: Option<PageState>,
    /// The value of its field `chord-next`, if it has one.
    pub next: Option<Vec<u8>>,
    pub body: Vec<u8>,
}

/// What is to be done next.
#[derive(Clone, Copy, Debug, PartialEq, Eq)]
pub enum Turn {
    /// What came has more in it.
    Again,
    /// More is to be read.
    Read,
    /// The answer is whole.
    Done,
}

/// The bytes that came and the answer as far as they spell it.
#[derive(Drop)]
pub struct Inbox {
    client: Client,
    unread: Vec<u8>,
    answer: Answer,
}

fn fault_of(error: ReadError) -> RingFault {
    match error {
        ReadError::UnexpectedEof => RingFault::Lost,
        _ => RingFault::NotUnderstood,
    }
}

/// The value of the first of these fields with this name.
fn value_of<'a>(bytes: &'a [u8], fields: &[HeaderSpan], name: &[u8]) -> Option<&'a [u8]>
    requires { All (IsHeaderWithin (length bytes.now)) fields.now }
{
    for field in fields {
        if field.name.of(bytes).eq_ignore_ascii_case(name) {
            return Some(field.value.of(bytes));
        }
    }
    None
}

/// Whether the type that these fields name is plain text.
fn is_text(bytes: &[u8], fields: &[HeaderSpan]) -> bool
    requires { All (IsHeaderWithin (length bytes.now)) fields.now }
{
    match value_of(bytes, fields, TYPE) {
        Some(kind) => kind.starts_with(b"text/plain"),
        None => false,
    }
}

/// The state that these fields name.
fn state_of(bytes: &[u8], fields: &[HeaderSpan]) -> Option<PageState>
    requires { All (IsHeaderWithin (length bytes.now)) fields.now }
{
    match str::from_utf8(value_of(bytes, fields, STATE)?) {
        Ok(word) => PageState::of_word(word),
        Err(_) => None,
    }
}

impl Inbox {
    /// For the answer to the request that this client wrote.
    pub fn new(alloc: Global, client: Client) -> Inbox {
        Inbox {
            client,
            unread: Vec::new(alloc),
            answer: Answer {
                status: 0,
                is_text: false,
                state: None,
                next: None,
                body: Vec::new(alloc),
            },
        }
    }

    /// Takes in what came.
    pub fn put(&mut self, bytes: &[u8]) -> Result<(), RingFault> {
        Ok(self.unread.extend_from_slice(bytes)?)
    }

    /// Takes one step of what came.
    pub fn turn(&mut self) -> Result<Turn, RingFault> {
        let mut headers = [EMPTY_HEADER_SPAN; FIELDS];
        let read = match self.client.read(&self.unread, &mut headers) {
            Ok(read) => read,
            Err(error) => return Err(fault_of(error)),
        };
        let turn = match read.event {
            Event::NeedMore => Turn::Read,
            Event::Head(head) => {
                self.answer.status = head.code;
                let fields = &headers[..head.headers];
                self.answer.is_text = is_text(&self.unread, fields);
                self.answer.state = state_of(&self.unread, fields);
                self.answer.next = match value_of(&self.unread, fields, NEXT) {
                    Some(value) => Some(Vec::from_slice(*self.unread.allocator(), value)?),
                    None => None,
                };
                Turn::Again
            }
            Event::Informational(_) => Turn::Again,
            Event::Data(span) => {
                if self.answer.body.len() > BODY_BYTES {
                    return Err(RingFault::NotUnderstood);
                }
                self.answer.body.extend_from_slice(span.of(&self.unread))?;
                Turn::Again
            }
            Event::End(_) => Turn::Done,
            Event::Paused | Event::Upgraded | Event::Closed => {
                return Err(RingFault::NotUnderstood);
            }
        };
        drop(self.unread.drain(..read.consumed));
        Ok(turn)
    }

    /// Nothing more comes. Without a stated length that is the end of the answer.
    pub fn end(&mut self) -> Result<Turn, RingFault> {
        match self.client.read_eof() {
            Ok(Event::End(_)) => Ok(Turn::Done),
            Ok(_) => Err(RingFault::Lost),
            Err(error) => Err(fault_of(error)),
        }
    }

    /// The answer.
    pub fn into_answer(self) -> Answer {
        let Inbox {
            client,
            unread,
            answer,
        } = self;
        drop(client);
        drop(unread);
        answer
    }
}
