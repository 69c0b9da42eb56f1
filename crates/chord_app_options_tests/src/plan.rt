//! Plans that are accepted, and each fault of those that are not.
//!
//! A line is at most one word for what is told, one for how a document is read, and the document.
//!
//! - Told is the plan (`of_plan`), or what is wrong; by `accepts` and `spare` only that the plan is
//!   accepted, or its spare kind; by `line` only the line that is wrong.
//! - It is read whole, by `slow` from a reader that gives one byte a call, by `reader` from another
//!   one, by `file` from a file.
//! - `two` is the plan of two nodes; `change slots = 2 => slots = 3` that plan, changed at the first
//!   such place; `cut slots = 2|` without that; `behind [[ask]]|` with that behind it; `long 9000`
//!   that filled up to 9,000 bytes with ends of lines. `nodeless ask = 3|` is a plan without nodes,
//!   with that behind it; `whole a = 3|` that alone; `other` another plan.
//!
//! Beside these are `failing` and `missing`, a reader that fails and a file that is not there,
//! `even 3`, the plan of three nodes without a file, and `settings 4 -`, the settings of a server
//! for two nodes where 4 slots and no callers are named.

use crate::quoted::{OneLine, bytes, text};
use chord_app_plan::{Plan, PlanFault, Settings, plan_from, read_plan};
use chord_app_plan_testkit::{TWO_NODES, changed};
use chord_app_text::{GrammarFault, LineFault, Words};
use chord_testkit::{IdText, MEMORY, RequestText, Subject, Text, follow_on, name_of};
use std::alloc::Global;
use std::fs;
use std::io::{self, Read};
use std::test::Fail;
use std::time::{SystemTime, UNIX_EPOCH};

/// A plan with unknown keys, a store of each kind, an upper case identifier, no asks, and numbers
/// at their limits.
const OTHER_PLAN: &str = concat!(
    "slots = 64\ncallers = 64\nsuccessors = 16\ntries = 1000\nwait = 60000\nname = 3\n[other]\nslots = 9\n",
    "[[node]]\nid = \"C0000000000000000000000000000001\"\nstore = \"noted\"\nlimit = \"none\"\n",
    "[[node]]\nid = \"00000000000000000000000000000000\"\nstore = \"capped\"\nlimit = 0\n",
    "[[node]]\nid = \"00000000000000000000000000000001\"\nstore = \"capped\"\nlimit = 9223372036854775807\n",
);

const NODELESS: &str = "slots = 1\ncallers = 0\nsuccessors = 3\ntries = 100\nwait = 100\n";

/// A reader that gives one byte a call.
#[derive(Drop)]
struct Slow<'a> {
    bytes: &'a [u8],
}

impl Read for Slow<'_> {
    fn read(&mut self, buf: &mut [u8]) -> io::Result<usize> {
        let most = buf.len().min(1);
        self.bytes.read(&mut buf[..most])
    }
}

/// A reader that fails.
#[derive(Drop)]
struct Failing;

impl Read for Failing {
    fn read(&mut self, _buf: &mut [u8]) -> io::Result<usize> {
        Err(io::Error::from(io::ErrorKind::TimedOut))
    }
}

#[derive(Drop)]
struct Plans<'a> {
    rt: &'a HostRuntime,
}

/// What is read, or the fault.
type IsRead = Result<Plan, PlanFault>;

impl Subject for Plans<'_> {
    fn act(&mut self, words: &mut Words) -> Result<Text, LineFault> {
        let alloc = self.rt.alloc();
        let line = *words;
        let tell = words.word()?;
        match tell {
            "settings" => settings(alloc, words),
            "even" => even(alloc, words),
            "failing" => told(alloc, tell, plan_from(alloc, Failing)),
            "missing" => told(alloc, tell, read_plan(self.rt, alloc, "no/such/plan.toml")),
            "accepts" | "spare" | "line" => told(alloc, tell, self.read(words)?),
            _ => {
                *words = line;
                told(alloc, "plan", self.read(words)?)
            }
        }
    }

    fn show(&self) -> Text {
        Text::of("")
    }
}

impl Plans<'_> {
    /// Reads the document of a line as it says.
    fn read(&self, words: &mut Words) -> Result<IsRead, LineFault> {
        let alloc = self.rt.alloc();
        let line = *words;
        let how = words.word()?;
        if !matches!(how, "slow" | "reader" | "file") {
            *words = line;
        }
        let document = document(alloc, words)?;
        let bytes = document.as_slice();
        let read = match how {
            "slow" => Ok(plan_from(alloc, Slow { bytes })),
            "reader" => Ok(plan_from(alloc, bytes)),
            "file" => read_file(self.rt, bytes),
            _ => Ok(Plan::parse(alloc, bytes)),
        };
        drop(document);
        read
    }
}

/// The path of a file that no other run has.
fn fresh_path(rt: &HostRuntime) -> Option<String> {
    let passed = SystemTime::now(rt).ok()?.duration_since(UNIX_EPOCH).ok()?;
    let nanoseconds = passed.as_nanos();
    format!(in rt.alloc(); "/tmp/two-nodes-{nanoseconds}.toml").ok()
}

/// Writes a document to a file, reads the plan in it, and removes the file.
fn read_file(rt: &HostRuntime, document: &[u8]) -> Result<IsRead, LineFault> {
    let Some(path) = fresh_path(rt) else {
        return Err(LineFault::OutOfMemory);
    };
    let written = fs::write(rt, path.as_str(), document).is_ok();
    let read = read_plan(rt, rt.alloc(), path.as_str());
    let removed = fs::remove_file(rt, path.as_str()).is_ok();
    drop(path);
    if written && removed {
        Ok(read)
    } else {
        drop(read);
        Err(GrammarFault::NoText.into())
    }
}

fn document(alloc: Global, words: &mut Words) -> Result<Vec<u8>, LineFault> {
    let two = TWO_NODES.as_bytes();
    match words.word()? {
        "two" => Ok(Vec::from_slice(alloc, two)?),
        "other" => Ok(Vec::from_slice(alloc, OTHER_PLAN.as_bytes())?),
        "whole" => bytes(alloc, words),
        "behind" => before(alloc, two, words),
        "nodeless" => before(alloc, NODELESS.as_bytes(), words),
        "long" => {
            let length = words.number()? as usize;
            let mut document = Vec::from_slice(alloc, two)?;
            document.resize(length, b'\n')?;
            Ok(document)
        }
        "change" => change(alloc, words),
        "cut" => {
            let old = text(alloc, words)?;
            let document = changed(alloc, old.as_str(), "");
            drop(old);
            Ok(document?.into_bytes())
        }
        _ => Err(GrammarFault::NoLine.into()),
    }
}

/// A document, and the bytes that are left behind it.
fn before(alloc: Global, front: &[u8], words: &mut Words) -> Result<Vec<u8>, LineFault> {
    let more = bytes(alloc, words)?;
    let document = [front, more.as_slice()].concat(alloc);
    drop(more);
    Ok(document?)
}

fn change(alloc: Global, words: &mut Words) -> Result<Vec<u8>, LineFault> {
    let change = text(alloc, words)?;
    let document = match change.as_str().split_once(" => ") {
        Some((old, new)) => changed(alloc, old, new),
        None => Ok(String::new(alloc)),
    };
    drop(change);
    Ok(document?.into_bytes())
}

fn told(alloc: Global, tell: &str, read: IsRead) -> Result<Text, LineFault> {
    match read {
        Ok(plan) => {
            let text = match tell {
                "accepts" => Text::of("Accepted"),
                "spare" => name_of(&plan.spare),
                _ => of_plan(&plan),
            };
            drop(plan);
            Ok(text)
        }
        Err(PlanFault::OutOfMemory) => Ok(Text::of(MEMORY)),
        Err(fault) => {
            let text = fault.to_string(alloc)?;
            let what = what_is_wrong(text.as_str(), tell == "line");
            drop(text);
            Ok(what)
        }
    }
}

fn what_is_wrong(text: &str, is_line_alone: bool) -> Text {
    match text.split_once(": ") {
        Some((line, _)) if is_line_alone => Text::of(line),
        _ => Text::of(OneLine(text)),
    }
}

/// Slots, callers, successors, tries and the wait; the spare kind; nodes; of each ask the caller,
/// the node and the request, as `RequestText` shows it.
fn of_plan(plan: &Plan) -> Text {
    let spare = plan.spare;
    let settings = of_settings(plan.settings);
    let settings = settings.as_str();
    let mut text = Text::of(format_args!("{settings}, spare {spare:?}"));
    for node in plan.nodes.as_slice() {
        let id = IdText(node.id);
        let store = node.store;
        let more = Text::of(format_args!(", {id} {store:?}"));
        text = text.and_str(more.as_str(), 80);
    }
    with_asks(text, plan)
}

fn with_asks(mut text: Text, plan: &Plan) -> Text {
    for ask in plan.asks.as_slice() {
        let caller = ask.caller;
        let via = ask.via;
        let request = RequestText(&ask.request);
        let more = Text::of(format_args!(", {caller}@{via} {request}"));
        text = text.and_str(more.as_str(), 80);
    }
    text
}

fn of_settings(settings: Settings) -> Text {
    let Settings {
        slots,
        callers,
        successors,
        tries,
        wait_ms,
    } = settings;
    Text::of(format_args!("{slots} {callers} {successors} {tries} {wait_ms}"))
}

fn even(alloc: Global, words: &mut Words) -> Result<Text, LineFault> {
    let nodes = words.number()?.clamp(1, 64) as usize;
    let plan = Plan::even(alloc, nodes)?;
    let text = of_plan(&plan);
    drop(plan);
    Ok(text)
}

/// A number, or `-` for none.
fn number_or_none(words: &mut Words) -> Result<Option<usize>, LineFault> {
    let mut ahead = *words;
    if ahead.word()? == "-" {
        *words = ahead;
        return Ok(None);
    }
    Ok(Some(words.number()? as usize))
}

fn settings(alloc: Global, words: &mut Words) -> Result<Text, LineFault> {
    let slots = number_or_none(words)?;
    let callers = number_or_none(words)?;
    match Plan::parse(alloc, TWO_NODES.as_bytes()) {
        Ok(plan) => {
            let settings = plan.settings_with(slots, callers);
            drop(plan);
            Ok(of_settings(settings))
        }
        Err(fault) => {
            drop(fault);
            Ok(Text::of(MEMORY))
        }
    }
}

const ACCEPTED: &str = r#"
two > 2 1 3 100 100, spare Tree, A Tree, C List, 0@0 abc+x, 0@1 abc, 0@0 abc-y
other > 64 64 16 1000 60000, spare Tree, c0000000000000000000000000000001 Noted, 0 Capped(0), 00000000000000000000000000000001 Capped(9223372036854775807)
# a value of a retrieve is not looked at
change key = "abc"|[[ask]] => key = "abc"|value = 3|[[ask]] > 2 1 3 100 100, spare Tree, A Tree, C List, 0@0 abc+x, 0@1 abc, 0@0 abc-y
# the whole reader is looked at, and the whole file
slow two > 2 1 3 100 100, spare Tree, A Tree, C List, 0@0 abc+x, 0@1 abc, 0@0 abc-y
file two > 2 1 3 100 100, spare Tree, A Tree, C List, 0@0 abc+x, 0@1 abc, 0@0 abc-y
file behind [[ask]]| > ask 3: caller: missing
# what cannot be read is told by the system's reason
failing > timed out
missing > no such file
# nodes without a plan divide the circle evenly, each with a tree
even 1 > 64 64 4 20 100, spare Tree, 0 Tree
even 2 > 64 64 4 20 100, spare Tree, 0 Tree, B Tree
even 3 > 64 64 4 20 100, spare Tree, 0 Tree, 55555555555555550000000000000000 Tree, aaaaaaaaaaaaaaaa0000000000000000 Tree
# stores of nodes that join later are trees, or of the kind that the plan names
spare two > Tree
spare change slots = 2 => spare = "tree"|slots = 2 > Tree
spare change slots = 2 => spare = "list"|slots = 2 > List
spare change slots = 2 => spare = "noted"|slots = 2 > Noted
spare change slots = 2 => spare = "capped"|limit = 7|slots = 2 > Capped(7)
# a server's ring has the plan's numbers of nodes and callers, or those that are named
settings - - > 2 1 3 100 100
settings 4096 - > 4096 1 3 100 100
settings - 9 > 2 9 3 100 100
settings 5 6 > 5 6 3 100 100
# a document has 1,048,576 bytes at most
accepts long 1048576 > Accepted
accepts long 1048577 > more than 1048576 bytes
reader long 1048576 > 2 1 3 100 100, spare Tree, A Tree, C List, 0@0 abc+x, 0@1 abc, 0@0 abc-y
reader long 1048577 > more than 1048576 bytes
# a key has 255 bytes at most, of which three are there, a value 4,096, of which one is
accepts change key = " => key = "{252a} > Accepted
accepts change key = " => key = "{253a} > ask 0: key: the key has more than 255 bytes
accepts change value = " => value = "{4095a} > Accepted
accepts change value = " => value = "{4096a} > ask 0: value: the value has more than 4096 bytes
"#;

const FAULTS: &str = r#"
# numbers
cut slots = 2| > slots: missing
change slots = 2 => slots = "2" > slots: no whole number
change slots = 2 => slots = 2.0 > slots: no whole number
change slots = 2 => slots = 0 > slots: not from 1 to 64
change slots = 2 => slots = 65 > slots: not from 1 to 64
cut callers = 1| > callers: missing
change callers = 1 => callers = -1 > callers: not from 0 to 64
change callers = 1 => callers = 65 > callers: not from 0 to 64
cut successors = 3| > successors: missing
change successors = 3 => successors = 1 > successors: not from 2 to 16
change successors = 3 => successors = 17 > successors: not from 2 to 16
cut tries = 100| > tries: missing
change tries = 100 => tries = 0 > tries: not from 1 to 1000
change tries = 100 => tries = 1001 > tries: not from 1 to 1000
cut wait = 100| > wait: missing
change wait = 100 => wait = 0 > wait: not from 1 to 60000
change wait = 100 => wait = 60001 > wait: not from 1 to 60000
# nodes
change slots = 2 => slots = 1 > node: not from 1 to 1 tables
change id = "4 => name = "4 > node 0: id: missing
change id = "4 => id = 4 # " > node 0: id: no text
change id = "c0 => id = "c > node 1: id: not 32 hexadecimal digits
change id = "c0 => id = "g0 > node 1: id: not 32 hexadecimal digits
cut store = "list" > node 1: store: missing
change store = "list" => store = "tre" > node 1: store: unknown kind "tre"
change store = "list" => store = "capped" > node 1: limit: missing
change store = "list" => store = "capped"|limit = -1 > node 1: limit: not from 0 to 9223372036854775807
# tables
nodeless "" > node: not from 1 to 1 tables
nodeless node = [] > node: not from 1 to 1 tables
nodeless node = 3 > node: no tables
nodeless node = [3] > node: no tables
nodeless ask = 3|[[node]]|id = "40000000000000000000000000000000"|store = "tree"| > ask: no tables
nodeless ask = [3]|[[node]]|id = "40000000000000000000000000000000"|store = "tree"| > ask: no tables
# the kind of stores of nodes that join later
change slots = 2 => spare = 3|slots = 2 > spare: no text
change slots = 2 => spare = "tre"|slots = 2 > spare: unknown kind "tre"
change slots = 2 => spare = "capped"|slots = 2 > limit: missing
# asks
cut caller = 0| > ask 0: caller: missing
change caller = 0 => caller = 1 > ask 0: caller: not below 1
cut via = 0| > ask 0: via: missing
change via = 1 => via = 2 > ask 1: via: not below 2
cut do = "insert"| > ask 0: do: missing
change do = "remove" => do = "put" > ask 2: do: unknown operation "put"
cut key = "abc"| > ask 0: key: missing
change key = "abc" => key = 3 > ask 0: key: no text
change key = "abc" => key = "" > ask 0: key: the key is empty
cut value = "y"| > ask 2: value: missing
# of what is no TOML the line is named
line change tries = 100 => tries = > line 4
line whole slots = 2|name = "\xff"| > line 2
"#;

#[test]
fn plans_and_their_faults(rt: HostRuntime) -> Result<(), Fail> {
    follow_on(&mut Plans { rt: &rt }, ACCEPTED)?;
    follow_on(&mut Plans { rt: &rt }, FAULTS)
}
