//! How commands and requests end, the words of lines and of requests, and replies on lines.
//!
//! Behind these words stands a value by what its `Debug` prints:
//!
//! - `status Done`: the exit status of a command that ends so.
//! - `fault Read`: the exit status of a fault, and its text as `quoted` has it.
//! - `console NoText`, `ask NoText`: the same of this fault in line 7 of the console, or of `ask`.
//! - `reply Added`: how a line shows the reply.
//!
//! Behind these a text, as `quoted` has it:
//!
//! - `words 2 a b c`: its first two words, and whether there are more.
//! - `number 7`, `id 00..`, `bytes 0aff`: what its first word is.
//! - `digits 0aff`: the bytes of digits, and how many these are.
//! - `values 0aff -`: how a line shows the reply of these values.
//! - `hex abc`: the digits of the bytes.
//! - `line insert a x`, `request insert/a/x`: the request of a line, or of words with strokes
//!   between them, as `RequestText` shows it, or why it is none. `no-words`: of none.

use crate::checks::check;
use crate::quoted::{OneLine, bytes, rest, text};
use chord_app_ask::{AskOutcome, read_line, read_words};
use chord_app_ring::RingFault;
use chord_app_text::{
    Digits, Fault, Finish, GrammarFault, Hex, LineFault, ReplyText, Undone, WordFault, Words,
};
use chord_map::{Reply, Request, Values};
use chord_testkit::{Fresh, IdText, RequestText, Subject, Text, follow, name_of};
use chord_wire::FaultCode;
use std::alloc::{AllocError, Global};
use std::fmt::Debug;
use std::io::{self, ErrorKind};
use std::test::Fail;

const FINISHES: &[Finish] = &[
    Finish::Done,
    Finish::Fault(Fault::Read),
    Finish::BadPlan,
    Finish::Refused,
    Finish::BadCommandLine,
    Finish::OutOfMemory,
];

const FAULTS: &[Fault] = &[
    Fault::Read,
    Fault::Write,
    Fault::Listen {
        port: 7,
        reason: ErrorKind::AddrInUse,
    },
    Fault::Node(1),
    Fault::SameId {
        number: 2,
        first: 0,
    },
    Fault::Connect {
        port: 7,
        reason: ErrorKind::ConnectionRefused,
    },
    Fault::NoSession { port: 7 },
    Fault::Doubled(2),
    Fault::Unanswered(3),
    Fault::Clock,
    Fault::Lost,
    Fault::Answer,
    Fault::UnderWay,
    Fault::PassedOver,
    Fault::Cut,
    Fault::Undone {
        line: 7,
        why: Undone::SetFull,
    },
    Fault::Undone {
        line: 7,
        why: Undone::Code(9),
    },
];

const GRAMMAR_FAULTS: &[GrammarFault] = &[
    GrammarFault::NoText,
    GrammarFault::NoLine,
    GrammarFault::Missing(2),
    GrammarFault::TooMany(3),
    GrammarFault::NoNumber(4),
    GrammarFault::NoIdentifier(5),
    GrammarFault::NoBytes(6),
];

const WORD_FAULTS: &[WordFault] = &[
    WordFault::NoText,
    WordFault::LineLong,
    WordFault::NoOperation,
    WordFault::NoKey,
    WordFault::NoValue,
    WordFault::ValueOfRetrieve,
    WordFault::FourthWord,
    WordFault::KeyDigits,
    WordFault::ValueDigits,
    WordFault::KeyLength,
    WordFault::ValueLength,
    WordFault::OutOfMemory,
];

#[derive(Drop)]
struct Texts {
    alloc: Global,
}

impl Fresh for Texts {
    fn fresh(alloc: Global) -> Texts {
        Texts { alloc }
    }
}

impl Subject for Texts {
    fn act(&mut self, words: &mut Words) -> Result<Text, LineFault> {
        let alloc = self.alloc;
        match words.word()? {
            "words" => first_words(alloc, words),
            "values" => values(alloc, words),
            "hex" => {
                let bytes = bytes(alloc, words)?;
                let shown = Text::of(Hex(&bytes));
                drop(bytes);
                Ok(shown)
            }
            "line" => {
                let line = bytes(alloc, words)?;
                let read = read_line(alloc, &line);
                drop(line);
                Ok(shown(read))
            }
            "no-words" => Ok(shown(read_words(alloc, &[]))),
            deed => {
                let text = match deed {
                    "status" | "fault" | "console" | "ask" => rest(alloc, words)?,
                    _ => text(alloc, words)?,
                };
                let came = of_text(alloc, deed, text.as_str());
                drop(text);
                came
            }
        }
    }

    fn show(&self) -> Text {
        Text::of("")
    }
}

/// The value of which `Debug` prints this.
fn named<T: Copy + Debug>(all: &[T], name: &str) -> Result<T, LineFault> {
    for one in all {
        if name_of(one).as_str() == name {
            return Ok(*one);
        }
    }
    Err(GrammarFault::NoLine.into())
}

fn of_text(alloc: Global, deed: &str, text: &str) -> Result<Text, LineFault> {
    let mut words = Words::new(text);
    match deed {
        "status" => Ok(name_of(&named(FINISHES, text)?.status())),
        "fault" => told(alloc, named(FAULTS, text)?),
        "console" => {
            let why = named(GRAMMAR_FAULTS, text)?;
            told(alloc, Fault::Line { line: 7, why })
        }
        "ask" => {
            let why = named(WORD_FAULTS, text)?;
            told(alloc, Fault::Request { line: 7, why })
        }
        "request" => {
            let words: Vec<&str> = text.split("/").collect(alloc)?;
            let read = read_words(alloc, words.as_slice());
            drop(words);
            Ok(shown(read))
        }
        "reply" => reply(text),
        "number" => Ok(name_of(&words.number())),
        "id" => match words.id() {
            Ok(id) => Ok(Text::of(IdText(id))),
            Err(fault) => Ok(name_of(&fault)),
        },
        "bytes" => match words.bytes(alloc) {
            Ok(bytes) => Ok(name_of(&bytes.as_slice())),
            Err(fault) => Ok(name_of(&fault)),
        },
        "digits" => digits(alloc, text),
        _ => Err(GrammarFault::NoLine.into()),
    }
}

/// The exit status and the text of a fault.
fn told(alloc: Global, fault: Fault) -> Result<Text, LineFault> {
    let status = Finish::Fault(fault).status();
    let text = fault.to_string(alloc)?;
    let line = OneLine(text.as_str());
    let told = Text::of(format_args!("{status} {line}"));
    drop(text);
    Ok(told)
}

fn shown(read: Result<Request, WordFault>) -> Text {
    match read {
        Ok(request) => {
            let text = Text::of(RequestText(&request));
            drop(request);
            text
        }
        Err(fault) => name_of(&fault),
    }
}

fn reply(name: &str) -> Result<Text, LineFault> {
    let reply = match name {
        "Added" => Reply::Added,
        "Present" => Reply::Present,
        "SetFull" => Reply::SetFull,
        "Removed" => Reply::Removed,
        "Absent" => Reply::Absent,
        _ => return Err(GrammarFault::NoLine.into()),
    };
    let shown = Text::of(ReplyText(&reply));
    drop(reply);
    Ok(shown)
}

/// The values stand in digits.
fn values(alloc: Global, words: &mut Words) -> Result<Text, LineFault> {
    let mut values = Values::new(alloc);
    for _ in 0..8u64 {
        if words.has_more() {
            values.push(words.bytes(alloc)?)?;
        }
    }
    let reply = Reply::Values(values.share()?);
    let shown = Text::of(ReplyText(&reply));
    drop(reply);
    Ok(shown)
}

fn digits(alloc: Global, word: &str) -> Result<Text, LineFault> {
    let Some(digits) = Digits::of_word(word.as_bytes()) else {
        return Ok(Text::of("None"));
    };
    let count = digits.count();
    let bytes = digits.bytes(alloc)?;
    let shown = name_of(&bytes.as_slice());
    drop(bytes);
    let shown = shown.as_str();
    Ok(Text::of(format_args!("{count} {shown}")))
}

fn first_words(alloc: Global, words: &mut Words) -> Result<Text, LineFault> {
    let count = words.number()?;
    let line = text(alloc, words)?;
    let mut words = Words::new(line.as_str());
    let mut shown = Text::of("");
    for _ in 0..count {
        match words.word() {
            Ok(word) => shown = shown.and_str(word, 32).and_str("/", 1),
            Err(fault) => return Ok(name_of(&fault)),
        }
    }
    let end = words.end();
    let has_more = words.has_more();
    let left = Text::of(format_args!("more {has_more}, {end:?}"));
    Ok(shown.and_str(left.as_str(), 80))
}

const SCRIPTS: &str = "
== exit statuses
status Done > 0
status Fault(Read) > 1
status BadPlan > 1
status Refused > 1
status BadCommandLine > 2
status OutOfMemory > 3

== texts of faults
fault Read > 1 fault read
fault Write > 1 fault write
fault Listen { port: 7, reason: AddrInUse } > 1 fault listen|port 7 of 127.0.0.1: address in use
fault Node(1) > 1 fault plan|node 1: the ring refuses it
fault SameId { number: 2, first: 0 } > 1 fault plan|node 2: id: node 0 has the same
fault Connect { port: 7, reason: ConnectionRefused } > 1 fault connect|port 7 of 127.0.0.1: \
connection refused
fault NoSession { port: 7 } > 1 fault session|port 7 of 127.0.0.1: no session begins there; a \
server that keeps none is asked with --no-session
fault Doubled(2) > 1 fault doubled 2
fault Unanswered(3) > 1 fault unanswered 3
fault Clock > 1 fault clock
fault Lost > 1 fault lost|the connection ended before the server's answer was whole
fault Answer > 1 fault answer|the server's answer is not understood
fault UnderWay > 1 fault underway|pairs stay under way from one node to another; the copy ends \
before them
fault PassedOver > 1 fault passed|what was lost with a node is not in the copy
fault Cut > 1 fault cut|the last line does not tell how many pairs there are
fault Undone { line: 7, why: SetFull } > 1 fault line 7|setfull: the key has 1000 values already
fault Undone { line: 7, why: Code(9) } > 1 fault line 7|fault 9 of the protocol

== lines of the console outside the grammar
console NoText > 1 fault line 7|the line is not UTF-8
console NoLine > 1 fault line 7|word 1 names no line of the console
console Missing(2) > 1 fault line 7|word 2 is missing
console TooMany(3) > 1 fault line 7|word 3 is too much
console NoNumber(4) > 1 fault line 7|word 4 is no number from 0 to 18446744073709551615 without \
leading zeros
console NoIdentifier(5) > 1 fault line 7|word 5 is no identifier: 32 hexadecimal digits
console NoBytes(6) > 1 fault line 7|word 6 is no pairs of hexadecimal digits, nor - for no byte

== lines of ask that are no request
ask NoText > 1 fault line 7|the line is not UTF-8
ask LineLong > 1 fault line 7|the line has more than 16384 bytes
ask NoOperation > 1 fault line 7|word 1 of the request is not insert, retrieve or remove
ask NoKey > 1 fault line 7|word 2 of the request is missing: a key
ask NoValue > 1 fault line 7|word 3 of the request is missing: a value
ask ValueOfRetrieve > 1 fault line 7|word 3 of the request is too much: a retrieve has only a key
ask FourthWord > 1 fault line 7|word 4 of the request is too much: a value is the last word
ask KeyDigits > 1 fault line 7|word 2 of the request is no key: behind x: come pairs of \
hexadecimal digits
ask ValueDigits > 1 fault line 7|word 3 of the request is no value: behind x: come pairs of \
hexadecimal digits
ask KeyLength > 1 fault line 7|word 2 of the request is no key: a key has 1 to 255 bytes
ask ValueLength > 1 fault line 7|word 3 of the request is no value: a value has at most 4096 bytes
ask OutOfMemory > 1 fault line 7|out of memory

== words of a line
# the words in order, and whether another one follows
words 3 insert  7 > insert//7/more false, Ok(())
words 4 insert  7 > Grammar(Missing(4))
words 0 a > more true, Err(Grammar(TooMany(1)))

== numbers
number 0 > Ok(0)
number 70 > Ok(70)
number 18446744073709551615 > Ok(18446744073709551615)
number 18446744073709551616 > Err(Grammar(NoNumber(1)))
number 07 > Err(Grammar(NoNumber(1)))
number +7 > Err(Grammar(NoNumber(1)))
number \"\" > Err(Grammar(NoNumber(1)))

== identifiers
id C00000000000000000000000000000ab > c00000000000000000000000000000ab
id c00000000000000000000000000000a > Grammar(NoIdentifier(1))
id c00000000000000000000000000000ag > Grammar(NoIdentifier(1))

== bytes
bytes 0aFF > [10, 255]
bytes - > []
bytes \"\" > Grammar(NoBytes(1))
bytes 0 > Grammar(NoBytes(1))
bytes 0g > Grammar(NoBytes(1))
bytes -- > Grammar(NoBytes(1))

== digits
# the high digit of a byte stands first, and digits have either case
digits 12aBCd > 3 [18, 171, 205]
digits - > 0 []
digits \"\" > None
digits 123 > None
digits \"1 \" > None
hex \\x00\\xab > 00ab
hex \"\" > -

== replies on a line
reply Added > added
reply Present > present
reply SetFull > setfull
reply Removed > removed
reply Absent > absent
values > values 0
values 0aff - > values 2 0aff -

== requests
line insert x:0aFF x:- > x:0aff+x:-
request insert/a b/ > x:612062+x:-
line \"insert a \" > a+x:-
line retrieve x:C3a9 > x:c3a9
line remove a x:3A > a-x:3a

== what is no request
# the first wrong word is told
line \"\" > NoOperation
line Insert a b > NoOperation
line insert > NoKey
line retrieve > NoKey
line insert a > NoValue
line remove a > NoValue
line retrieve a b > ValueOfRetrieve
line insert a b c > FourthWord
line insert  a b > FourthWord
line retrieve x: > KeyDigits
line retrieve x:0 > KeyDigits
line retrieve x:0g > KeyDigits
line insert a x:0 > ValueDigits
line retrieve x:- > KeyLength
line \"retrieve \" > KeyLength
line \"\\xff \" > NoText
no-words > NoOperation
# no space stands between digits
request retrieve/x:0a 0b > KeyDigits
# words are counted first, then digits are read, and then lengths
line delete > NoOperation
line insert x:0 x:0 c > FourthWord
line insert x:0 x:0 > KeyDigits
line insert x:- x:0 > ValueDigits
line retrieve x:0 a > ValueOfRetrieve
# a key has 255 bytes at most, a value 4,096
request retrieve/{256a} > KeyLength
request insert/a/{4097a} > ValueLength
";

#[test]
fn texts_and_words(rt: HostRuntime) -> Result<(), Fail> {
    follow::<Texts>(rt.alloc(), SCRIPTS)
}

/// Memory that was refused ends a command and the reading of words; a failed write and a wrong word
/// are told as that.
#[test]
fn refused_memory_is_told_as_that(rt: HostRuntime) {
    check!(&rt; Finish::from(AllocError) == Finish::OutOfMemory);
    let finish = Finish::from(io::Error::from(ErrorKind::OutOfMemory));
    check!(&rt; finish == Finish::OutOfMemory, "of a write");
    let finish = Finish::from(io::Error::from(ErrorKind::BrokenPipe));
    check!(&rt; finish == Finish::Fault(Fault::Write));
    check!(&rt; WordFault::from(AllocError) == WordFault::OutOfMemory);
    check!(&rt; LineFault::from(AllocError) == LineFault::OutOfMemory);
    let fault = LineFault::from(GrammarFault::NoLine);
    check!(&rt; fault == LineFault::Grammar(GrammarFault::NoLine));
    let fault = RingFault::from(AllocError);
    let is_memory = matches!(&fault, RingFault::Memory);
    drop(fault);
    check!(&rt; is_memory, "of an answer of the operator's service");
}

/// The line of each outcome, and whether it is a reply.
#[test]
fn outcomes_as_lines(rt: HostRuntime) {
    for (outcome, line, is_reply) in [
        (AskOutcome::Reply(Reply::Added), "added", true),
        (AskOutcome::Reply(Reply::SetFull), "setfull", true),
        (AskOutcome::Full, "full", false),
        (AskOutcome::NoAnswer, "noanswer", false),
        (AskOutcome::Fault(FaultCode::NumberReused), "fault 8", false),
        (AskOutcome::CallersSpent, "callersspent", false),
        (AskOutcome::Lost, "lost", false),
    ] {
        let shown = Text::of(format_args!("{outcome}"));
        let is_its = outcome.is_reply() == is_reply;
        drop(outcome);
        check!(&rt; shown.as_str() == line, line);
        check!(&rt; is_its, line);
    }
}
