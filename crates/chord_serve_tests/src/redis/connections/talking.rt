//! Scripts of connections over an asker with a plain map, in bytes as `escapes` has them. The
//! connection has the number 7, INFO tells the line `a:b`, and TIME always the same moment.
//!
//! - `say PING|`: what the connection writes for this behind all that was said before, and which
//!   requests it asks: `+a` inserts a, `-a` removes it, `?` retrieves, and a `!` if one did not
//!   give up all before it. Its end stands in front unless the input ends.
//! - `trouble Full 2`: request 2 is answered so, in place of its reply.
//! - `serve PING|`: a connection of its own: its end, what it writes, how many requests it asks,
//!   and how many reads and writes did not fail. Before the bytes may stand, in this order, `cut
//!   1..27`, with each of these lengths of them the same comes; `reads 9x4` and `writes 7x1`, at
//!   most 9 bytes a call, of which the fifth fails; and `turns 3`.
//! - `many 1023`: the same of SREM with 1,023 members, and PING.
//! - `link 7 1 PING|`: a link with reads of 7 bytes, whose commands are stopped behind one try of
//!   their requests: its end, what it writes, how many requests it asks, with a `!` if one did not
//!   give up those before it, and how many tries there were. `slow 7 1 PING|`: one over an asker
//!   that answers at the third try.
//! - `foreign GET / HTTP/1.1|`, `hello 1.2`, `hello-from 124 1.2`, `split 17 PING|`: as `foreign`
//!   has them.

use super::foreign::foreign_deed;
use crate::askers::{NO_TROUBLE, SLOW, Script, Scripted, Trouble, drive, server};
use crate::escapes::{EscapedText, escaped};
use crate::options::{Devices, devices_after, differs, front, lengths};
use chord_app_text::{GrammarFault, LineFault, Words};
use chord_map::Request;
use chord_resp::{put_bulk, put_count};
use chord_resp_serve::{CommandProtocol, serve_commands};
use chord_serve::{Link, Pair, ReadSize, Served};
use chord_serve_testkit::{FREE, Limited, Limits};
use chord_testkit::{Fresh, MEMORY, Subject, Text, name_of};
use std::alloc::Global;
use std::mem;
use std::str::from_utf8;

/// Devices that move all bytes in few calls.
const ALL_AT_ONCE: Devices = Devices {
    reads: FREE,
    writes: FREE,
    size: ReadSize::Small,
    turns: 100,
};

/// What was said, what was heard, and how much of it behind each line.
#[derive(Drop)]
pub struct Talking {
    alloc: Global,
    script: Script,
    said: Vec<u8>,
    heard: Vec<u8>,
    ends: Vec<usize>,
    asked: usize,
}

impl Fresh for Talking {
    fn fresh(alloc: Global) -> Talking {
        Talking {
            alloc,
            script: NO_TROUBLE,
            said: Vec::new(alloc),
            heard: Vec::new(alloc),
            ends: Vec::new(alloc),
            asked: 0,
        }
    }
}

impl Subject for Talking {
    fn act(&mut self, words: &mut Words) -> Result<Text, LineFault> {
        let alloc = self.alloc;
        match words.word()? {
            "say" => self.say(words),
            "trouble" => {
                let trouble = trouble(words.word()?)?;
                let number = words.number()? as usize;
                self.script = Script::of(number, trouble);
                Ok(Text::of("Set"))
            }
            "serve" => serve(alloc, words),
            "many" => {
                let input = many(alloc, words.number()?)?;
                Ok(served(alloc, &input, ALL_AT_ONCE))
            }
            "link" => link(alloc, NO_TROUBLE, words),
            "slow" => link(alloc, SLOW, words),
            word => foreign_deed(alloc, word, words),
        }
    }

    fn show(&self) -> Text {
        Text::of("")
    }
}

fn trouble(name: &str) -> Result<Trouble, LineFault> {
    match name {
        "Full" => Ok(Trouble::Full),
        "NoAnswer" => Ok(Trouble::NoAnswer),
        "Memory" => Ok(Trouble::Memory),
        _ => Err(GrammarFault::NoLine.into()),
    }
}

impl Talking {
    fn say(&mut self, words: &mut Words) -> Result<Text, LineFault> {
        let alloc = self.alloc;
        let more = escaped(alloc, words)?;
        let mut input = Vec::from_slice(alloc, &self.said)?;
        input.extend_from_slice(&more)?;
        self.ends.push(self.heard.len())?;
        let mut written = Vec::with_capacity(alloc, 1_024)?;
        let asker = Scripted::new(alloc, self.script);
        let mut reader = input.as_slice();
        let small = ReadSize::Small;
        let (end, asker) = serve_commands(
            alloc,
            &mut reader,
            &mut written,
            asker,
            server(),
            small,
            100,
        );
        if end == Served::Memory && self.is_refused(&written) {
            drop(asker);
            return Ok(Text::of(MEMORY));
        }
        let text = self.came(end, &written, &asker);
        self.asked = asker.requests.len();
        drop(asker);
        let said = mem::replace(&mut self.said, input);
        drop(said);
        let heard = mem::replace(&mut self.heard, written);
        drop(heard);
        Ok(text)
    }

    /// Whether memory was refused, and the answers to the first lines were written whole.
    fn is_refused(&self, written: &[u8]) -> bool {
        let is_due = self.script.trouble == Trouble::Memory;
        !is_due && self.heard.starts_with(written) && self.ends.contains(&written.len())
    }

    /// What came behind what was heard before.
    fn came(&self, end: Served, written: &[u8], asker: &Scripted) -> Text {
        let Some(new) = written.strip_prefix(self.heard.as_slice()) else {
            return Text::of("other answers than before");
        };
        let mut text = Text::of(EscapedText(new));
        if end != Served::Ended {
            text = with_answers(name_of(&end), new);
        }
        let asked = requests_text(asker.requests.get(self.asked..).unwrap_or(&[]));
        if !asked.as_str().is_empty() {
            text = text.and_str(" asked ", 8).and_str(asked.as_str(), 64);
        }
        let mark = if asker.gives_up { "" } else { "!" };
        text.and_str(mark, 1)
    }
}

/// An end, and the answers before it.
pub fn with_answers(end: Text, written: &[u8]) -> Text {
    if written.is_empty() {
        return end;
    }
    let end = end.as_str();
    let answers = EscapedText(written);
    Text::of(format_args!("{end} {answers}"))
}

fn requests_text(requests: &[Request]) -> Text {
    let mut text = Text::of("");
    for request in requests {
        let name = match request {
            Request::Insert { .. } => "+",
            Request::Retrieve { .. } => "?",
            Request::Remove { .. } => "-",
        };
        let value = from_utf8(request.value()).unwrap_or("?");
        text = text.and_str(name, 1).and_str(value, 16);
    }
    text
}

fn serve(alloc: Global, words: &mut Words) -> Result<Text, LineFault> {
    let lengths = lengths(words)?;
    let limits = devices_after(words)?;
    let input = escaped(alloc, words)?;
    let (first, last) = lengths.unwrap_or((input.len() as u64, input.len() as u64));
    let mut all: Option<Text> = None;
    for len in first..=last {
        let came = served(alloc, front(&input, len)?, limits);
        if let Some(other) = differs(&mut all, len, came) {
            return Ok(other);
        }
    }
    Ok(all.unwrap_or(Text::of("none")))
}

/// SREM with this number of members, and PING.
fn many(alloc: Global, members: u64) -> Result<Vec<u8>, LineFault> {
    let mut out = Vec::new(alloc);
    put_count(&mut out, members.saturating_add(2) as usize)?;
    put_bulk(&mut out, b"SREM")?;
    put_bulk(&mut out, b"k")?;
    for _ in 0..members {
        put_bulk(&mut out, b"m")?;
    }
    out.extend_from_slice(b"PING\r\n")?;
    Ok(out)
}

fn served(alloc: Global, input: &[u8], devices: Devices) -> Text {
    let mut reader = Limited::new(input, devices.reads);
    let mut writer = Limited::new(Vec::new(alloc), devices.writes);
    let asker = Scripted::new(alloc, NO_TROUBLE);
    let small = ReadSize::Small;
    let turns = devices.turns;
    let (end, asker) = serve_commands(
        alloc,
        &mut reader,
        &mut writer,
        asker,
        server(),
        small,
        turns,
    );
    let asked = asker.requests.len();
    drop(asker);
    let text = with_answers(name_of(&end), &writer.inner);
    let text = text.as_str();
    let reads = reader.calls;
    let writes = writer.calls;
    drop(writer);
    Text::of(format_args!("{text}, asked {asked}, reads {reads}, writes {writes}"))
}

/// A link over a connection: the most bytes of a read, behind how many tries of its requests a
/// command that waits is stopped, and the commands.
fn link(alloc: Global, script: Script, words: &mut Words) -> Result<Text, LineFault> {
    let step = words.number()? as usize;
    let patience = (words.number()? % 0x100) as u32;
    let input = escaped(alloc, words)?;
    let calls = 10_000;
    let mut writer = Limited::new(Vec::new(alloc), Limits { step: 5, calls });
    let reader = Limited::new(input.as_slice(), Limits { step, calls });
    let protocol = CommandProtocol::new(alloc, server(), Scripted::new(alloc, script));
    let stream = Pair {
        reader,
        writer: &mut writer,
    };
    let mut link = Link::new(alloc, protocol, stream);
    let mut buffer = [0u8; 4_096];
    drive(&mut link, &mut buffer, patience);
    link.told();
    let end = link.end();
    let asker = link.into_protocol().into_asker();
    let text = with_answers(name_of(&end), &writer.inner);
    let text = text.as_str();
    let asked = asker.requests.len();
    let tries = asker.all_tries;
    let mark = if asker.gives_up { "" } else { "!" };
    drop(asker);
    Ok(Text::of(format_args!("{text}, asked {asked}{mark}, tries {tries}")))
}
