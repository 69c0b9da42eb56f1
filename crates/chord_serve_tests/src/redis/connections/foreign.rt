//! HTTP and TLS at the port of Redis's protocol: what a page makes a browser write acts on nothing.
//!
//! - `foreign GET / HTTP/1.1|`: behind three good commands comes this, in two reads, wherever these
//!   are cut: how the connection ends, what it writes, and how many requests it asks.
//! - `hello 1.2`: the same for a ClientHello of TLS. `hello-from 124 1.2`: its bytes from the 124th
//!   on, alone.
//! - `split 17 PING|`: these bytes in two reads, of which the first has 17.

use super::talking::with_answers;
use crate::askers::{NO_TROUBLE, Scripted, server};
use crate::escapes::escaped;
use crate::options::differs;
use chord_app_text::{GrammarFault, LineFault, Words};
use chord_resp_serve::CommandProtocol;
use chord_serve::{ReadSize, drive};
use chord_testkit::{Text, name_of};
use std::alloc::Global;
use std::io::Read;

/// Two commands on a set, of which the first is an array and the second a line, and PING.
const COMMANDS: &[u8] = b"*3\r\n$4\r\nSADD\r\n$1\r\nk\r\n$1\r\nv\r\nSMEMBERS k\r\nPING\r\n";

/// The ClientHello of OpenSSL 3.0.19 for TLS 1.2, with a session whose ticket is a command in a
/// line of its own. Its session was stored by `s_client -tls1_2 -sess_out` from a server of ours,
/// its ticket was exchanged in that file, and `s_client -tls1_2 -sess_in` wrote these bytes to a
/// port that listed them. The options `-cipher`, `-sigalgs` and `-groups` named one each, for a
/// short text.
const HELLO_1_2: [&[u8]; 8] = [
    b"\x16\x03\x01\x00\x9a\x01\x00\x00\x96\x03\x03\xed\x12\xaa{\xb5\xa4\x87\x17\xab\x96\x17",
    b"1K\xb1Jm\xdb\x83\x14\xd4H\xcd\x8fA\xa0@%h\xc3[l< ",
    b"\xa5\xde\xc9\xf4\xd1\xc25\x87\x85\x9e\x18+O\xbf#\x82\x1b\x1f\xff\x9e\x84\xd3",
    b"\xf3\x10\x97\x9dC\x81u\xe2'd\x00\x04\xc00\x00\xff\x01\x00\x00I\x00\x00",
    b"\x00\x0e\x00\x0c\x00\x00\x09localhost\x00\x0b\x00\x04\x03\x00",
    b"\x01\x02\x00\n\x00\x04\x00\x02\x00\x1d\x00#\x00\x13\nSADD sv",
    b"c:web evil\n\x00\x16\x00\x00\x00\x17\x00\x00\x00\r\x00",
    b"\x04\x00\x02\x04\x01",
];

/// The same for TLS 1.3, where the ticket is the identity of a pre-shared key.
const HELLO_1_3: [&[u8]; 13] = [
    b"\x16\x03\x01\x01\x10\x01\x00\x01\x0c\x03\x03UAb\xe2\xe6\x17\\\xb5\x07\x88\xac",
    b"\x17\x8c\x1e\xb8i9\x17\x8f\x09\x84a\x1e\xdal;\xcc\x9d\x03w\x8f\xf7 ",
    b"\xc0\x94\xcc\x82\xd8.uz\x97\x97\x15\xfb\x06.\x0e\x1f\xdc\xa8\xb6\xb4\xcf\xd3",
    b"\xee\x15`\x12\xcc*\xfdm\x19v\x00\x04\x13\x02\x00\xff\x01\x00\x00\xbf\x00\x00",
    b"\x00\x0e\x00\x0c\x00\x00\x09localhost\x00\x0b\x00\x04\x03\x00",
    b"\x01\x02\x00\n\x00\x04\x00\x02\x00\x1d\x00#\x00\x00\x00\x16\x00\x00\x00\x17\x00\x00",
    b"\x00\r\x00\x04\x00\x02\x08\x04\x00+\x00\x03\x02\x03\x04\x00-\x00\x02\x01\x01\x00",
    b"3\x00&\x00$\x00\x1d\x00 \xe1\xfd\x8e\x1dA\x92\x7f\xf7q\xc3\xa1\xb9\xef",
    b"Yb\x7fab\xd6/\x1eF\xdao\xa0\xc9\x19TU\x15\x7f\r\x00)\x00",
    b"N\x00\x19\x00\x13\nSADD svc:web evi",
    b"l\n(\xbd\xf8\xa6\x0010_,|h\xa8%\xab\r\x0e\xa2cp\x7f",
    b"\x1b*\x8a\x88\xd0:\x1f\x0e\xf1\x93}j#>K\xfb\xc8\xeaMw\xa02",
    b"!{`\xedZ\xd3\xa0\x00\xebx\xc5\x01[",
];

pub fn foreign_deed(alloc: Global, word: &str, words: &mut Words) -> Result<Text, LineFault> {
    match word {
        "foreign" => behind_commands(alloc, &escaped(alloc, words)?),
        "hello" => behind_commands(alloc, &hello(alloc, words)?),
        "hello-from" => {
            let place = words.number()? as usize;
            let bytes = hello(alloc, words)?;
            Ok(by_pieces(alloc, bytes.get(place..).unwrap_or(&[]), b""))
        }
        "split" => {
            let len = words.number()? as usize;
            let bytes = escaped(alloc, words)?;
            let (first, more) = bytes.split_at(len.min(bytes.len()));
            Ok(by_pieces(alloc, first, more))
        }
        _ => Err(GrammarFault::NoLine.into()),
    }
}

fn hello(alloc: Global, words: &mut Words) -> Result<Vec<u8>, LineFault> {
    let parts = match words.word()? {
        "1.2" => HELLO_1_2.as_slice(),
        "1.3" => &HELLO_1_3,
        _ => return Err(GrammarFault::NoLine.into()),
    };
    let mut bytes = Vec::new(alloc);
    for part in parts {
        bytes.extend_from_slice(part)?;
    }
    Ok(bytes)
}

/// What a connection does that takes these two pieces by one read each, of which the second may be
/// empty.
fn by_pieces(alloc: Global, first: &[u8], more: &[u8]) -> Text {
    let mut written = Vec::new(alloc);
    let mut protocol = CommandProtocol::new(alloc, server(), Scripted::new(alloc, NO_TROUBLE));
    let mut reader = first.chain(more);
    let turns = if more.is_empty() { 1 } else { 2 };
    let small = ReadSize::Small;
    let end = drive(
        alloc,
        &mut protocol,
        &mut reader,
        &mut written,
        small,
        turns,
    );
    let asker = protocol.into_asker();
    let asked = asker.requests.len();
    drop(asker);
    let text = with_answers(name_of(&end), &written);
    let text = text.as_str();
    Text::of(format_args!("{text}, asked {asked}"))
}

/// What a connection does with the good commands and these bytes, wherever they are cut.
fn behind_commands(alloc: Global, behind: &[u8]) -> Result<Text, LineFault> {
    let mut bytes = Vec::from_slice(alloc, COMMANDS)?;
    bytes.extend_from_slice(behind)?;
    let mut all: Option<Text> = None;
    for cut in 1..=bytes.len() {
        let (first, more) = bytes.split_at(cut);
        let came = by_pieces(alloc, first, more);
        if let Some(other) = differs(&mut all, cut as u64, came) {
            return Ok(other);
        }
    }
    Ok(all.unwrap_or(Text::of("none")))
}
