//! What each answer says.

use super::requests::{CRASH, PLAIN_JOIN};
use super::streams::MadeStream;
use crate::checks::check;
use chord_app_operator::Rows;
use chord_app_ring::{RingCommand, RingFault, exchange, text_of};
use std::alloc::Global;
use std::test::Fail;

/// The text that the answer in this stream says, or why there is none.
fn text_in(
    alloc: Global,
    stream: &mut MadeStream<'_>,
    command: &RingCommand,
) -> Result<Vec<u8>, RingFault> {
    text_of(exchange(alloc, stream, 7001, command)?)
}

/// Whether what is said is this: a text, behind `refused: ` that of a refusal, or why there is none.
fn is_said(said: Result<Vec<u8>, RingFault>, wanted: &str) -> bool {
    let is_wanted = match &said {
        Ok(text) => text.as_slice() == wanted.as_bytes(),
        Err(RingFault::Refused(text)) => {
            wanted.as_bytes().strip_prefix(b"refused: ".as_slice()) == Some(text.as_slice())
        }
        Err(RingFault::Lost) => wanted == "lost",
        Err(RingFault::NotUnderstood) => wanted == "not understood",
        Err(RingFault::ServerMemory) => wanted == "server memory",
        Err(_) => false,
    };
    drop(said);
    is_wanted
}

/// Whether an answer that comes at most `step` bytes at once says this.
pub fn says(
    alloc: Global,
    command: &RingCommand,
    answer: &[u8],
    step: usize,
    wanted: &str,
) -> bool {
    let mut stream = MadeStream::new(alloc, answer, step);
    let said = text_in(alloc, &mut stream, command);
    drop(stream);
    is_said(said, wanted)
}

/// Answers, and what each says: one that is done, in another type, in no type, without a body, one
/// that refuses, and of other statuses; and what is no HTTP.
const ANSWERS: &[(&str, &str)] = &[
    (
        "HTTP/1.1 201 Created\r\ncontent-type: text/plain\r\ncontent-length: 14\r\n\r\nnode 4 joined\n",
        "node 4 joined\n",
    ),
    (
        "HTTP/1.1 200 OK\r\nContent-Type: text/plain; charset=utf-8\r\ncontent-length: 0\r\n\r\n",
        "",
    ),
    (
        "HTTP/1.1 299 Odd\r\ncontent-type: text/plain\r\ncontent-length: 1\r\n\r\nx",
        "x",
    ),
    (
        "HTTP/1.1 200 OK\r\ncontent-type: application/json\r\ncontent-length: 10\r\n\r\n{\"node\":4}",
        "not understood",
    ),
    (
        "HTTP/1.1 200 OK\r\ncontent-length: 1\r\n\r\nx",
        "not understood",
    ),
    (
        "HTTP/1.1 302 Found\r\ncontent-type: text/plain\r\ncontent-length: 0\r\n\r\n",
        "not understood",
    ),
    (
        "HTTP/1.1 409 Conflict\r\ncontent-type: text/plain\r\ncontent-length: 15\r\n\r\nrefused NoSlot\n",
        "refused: refused NoSlot\n",
    ),
    (
        "HTTP/1.1 400 Bad Request\r\ncontent-type: text/plain\r\ncontent-length: 0\r\n\r\n",
        "refused: ",
    ),
    (
        "HTTP/1.1 409 Conflict\r\ncontent-length: 15\r\n\r\nrefused NoSlot\n",
        "not understood",
    ),
    (
        "HTTP/1.1 507 Insufficient Storage\r\ncontent-length: 0\r\n\r\n",
        "server memory",
    ),
    (
        "HTTP/1.1 507 Insufficient Storage\r\ncontent-length: 1\r\n\r\nx",
        "not understood",
    ),
    (
        "HTTP/1.1 503 Service Unavailable\r\ncontent-length: 0\r\n\r\n",
        "not understood",
    ),
    ("+OK\r\n\r\n", "not understood"),
    ("HTTP/1.1 two\r\n\r\n", "not understood"),
    (
        "HTTP/1.1 101 Switching\r\nupgrade: x\r\n\r\n",
        "not understood",
    ),
    (
        "HTTP/1.1 200 OK\r\ncontent-type: text/plain\r\ntransfer-encoding: chunked\r\n\r\n3\r\nnod\r\n2\r\ne\n\r\n0\r\n\r\n",
        "node\n",
    ),
    (
        "HTTP/1.1 100 Continue\r\n\r\nHTTP/1.1 200 OK\r\ncontent-type: text/plain\r\ncontent-length: 2\r\n\r\nx\n",
        "x\n",
    ),
    (
        "HTTP/1.1 200 OK\r\ncontent-type: text/plain\r\nconnection: close\r\n\r\nx\n",
        "x\n",
    ),
];

/// In pieces of one byte, of five, and at once.
#[test]
fn what_answers_say(rt: HostRuntime) -> Result<(), Fail> {
    for (answer, wanted) in ANSWERS {
        for step in [1, 5, 4096] {
            for command in [
                RingCommand::Show(Rows::Present),
                RingCommand::Join(PLAIN_JOIN),
            ] {
                let is_said = says(rt.alloc(), &command, answer.as_bytes(), step, wanted);
                check!(&rt; is_said, answer);
            }
        }
    }
    Ok(())
}

/// Whether an answer is lost that breaks off behind these bytes.
fn is_lost_where_it_breaks(alloc: Global, command: &RingCommand, part: &[u8]) -> bool {
    let mut stream = MadeStream::breaking(alloc, part);
    let said = text_in(alloc, &mut stream, command);
    drop(stream);
    is_said(said, "lost")
}

/// An answer that is cut behind any of its bytes is lost.
#[test]
fn a_cut_answer_is_lost(rt: HostRuntime) -> Result<(), Fail> {
    let (whole, _) = ANSWERS[0];
    let command = RingCommand::Crash(CRASH);
    for len in 0..whole.len() {
        let part = &whole.as_bytes()[..len];
        assert!(rt; says(rt.alloc(), &command, part, 4096, "lost"), "{len}");
        assert!(rt;
            is_lost_where_it_breaks(rt.alloc(), &command, part),
            "{len}"
        );
    }
    Ok(())
}
