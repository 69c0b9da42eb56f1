//! A console session over a world.
ghost use Rattle.std.specs.Prelude.{◌≡◌, []};
ghost use Rattle.std.specs.List.{All};

use crate::line::Line;
use crate::refusal::name_of;
use chord_app_text::{Fault, Finish, GrammarFault, LineFault, ReplyText};
use chord_map::Done;
use chord_node::Holder;
use chord_store::EntryStore;
use chord_world::{Outcome, Refusal, Step, World};
use std::alloc::Global;
use std::io::{self, BufWriter, Read, Write};

/// How many successors a node of the console may list.
const SUCCESSORS: usize = 3;

/// How many reads a session makes at most.
const READS: u32 = 1_048_576;

/// A world, the line that is not whole yet, and how many lines were.
#[derive(Drop)]
struct WorldSession<S: EntryStore> {
    alloc: Global,
    world: World<S>,
    line: Vec<u8>,
    lines: u64,
}

/// The word that a line shows for the outcome of a step, and the number after it, if any.
fn word_of(outcome: Outcome) -> (&'static str, Option<u64>) {
    match outcome {
        Outcome::Node(number) => ("node", Some(number)),
        Outcome::Caller(number) => ("caller", Some(number)),
        Outcome::Message(number) => ("message", Some(number)),
        Outcome::Told(number) => ("told", Some(number)),
        Outcome::Forwarded(number) => ("forward", Some(number)),
        Outcome::Dropped => ("dropped", None),
        Outcome::Full(number) => ("full", Some(number)),
        Outcome::Fresh(_) => ("fresh", None),
        Outcome::Known => ("known", None),
        Outcome::HeardFull => ("full", None),
        Outcome::Got(number) => ("got", Some(number)),
        Outcome::Declined(number) => ("declined", Some(number)),
        Outcome::Early => ("early", None),
        Outcome::NoRoom => ("full", None),
        Outcome::Noted => ("part", None),
        Outcome::Freed => ("freed", None),
        Outcome::Unknown => ("unknown", None),
        Outcome::Held => ("held", None),
        Outcome::Met => ("met", None),
        Outcome::Candidate(Some(number)) => ("candidate", Some(number)),
        Outcome::Candidate(None) => ("none", None),
        Outcome::Done => ("ok", None),
    }
}

/// The call that a caller took last.
fn last_of<S: EntryStore>(world: &World<S>, caller: u64) -> Option<&Done> {
    world.mine(caller)?.last()
}

/// Writes the outcome of a step.
fn write_outcome<S: EntryStore, W: Write>(
    world: &World<S>,
    outcome: Outcome,
    writer: &mut W,
) -> io::Result<()> {
    if let Outcome::Fresh(caller) = outcome {
        if let Some(done) = last_of(world, caller) {
            let reply = ReplyText(&done.reply);
            return writeln!(writer, "fresh {reply}");
        }
    }
    match word_of(outcome) {
        (word, Some(number)) => writeln!(writer, "{word} {number}"),
        (word, None) => writeln!(writer, "{word}"),
    }
}

/// Writes who holds an identifier.
fn write_holder<W: Write>(holder: Option<Holder>, writer: &mut W) -> io::Result<()> {
    match holder {
        Some(Holder::Node(number)) => writeln!(writer, "node {number}"),
        Some(Holder::UnderWay { from, to, number }) => {
            writeln!(writer, "underway {from} {to} {number}")
        }
        None => writeln!(writer, "none"),
    }
}

/// The first entry of a node, or 0 if there is no such node.
fn head_of<S: EntryStore>(world: &World<S>, node: u64) -> u64 {
    match world.links(node) {
        Some(links) => links.first().number,
        None => 0,
    }
}

/// Writes the numbers of the nodes that a node lists.
fn write_list<S: EntryStore, W: Write>(
    world: &World<S>,
    node: u64,
    writer: &mut W,
) -> io::Result<()> {
    let Some(links) = world.links(node) else {
        return writeln!(writer, "none");
    };
    write!(writer, "list")?;
    for entry in links.list().entries() {
        let number = entry.number;
        write!(writer, " {number}")?;
    }
    writeln!(writer)
}

/// Writes a refusal. Out of memory is not written: it ends the session.
fn write_refusal<W: Write>(refusal: Refusal, writer: &mut W) -> Result<(), Finish> {
    if refusal == Refusal::Memory {
        return Err(Finish::OutOfMemory);
    }
    let number = refusal.number();
    let name = name_of(refusal);
    written(writeln!(writer, "refused {number} {name}"))
}

/// Ends the session if a write failed.
fn written(wrote: io::Result<()>) -> Result<(), Finish> {
    match wrote {
        Ok(()) => Ok(()),
        Err(_) => Err(Finish::Fault(Fault::Write)),
    }
}

/// The text of a line.
fn read_line(alloc: Global, line: &[u8]) -> Result<Line, LineFault> {
    match str::from_utf8(line) {
        Ok(text) => Line::read(alloc, text),
        Err(_) => Err(GrammarFault::NoText.into()),
    }
}

impl<S: EntryStore> WorldSession<S> {
    /// Does a whole line, and begins the next.
    fn finish_line<W: Write>(&mut self, stores: &mut Vec<S>, writer: &mut W) -> Result<(), Finish>
        requires { All (λ s. S.content s ≡ []) stores.old.items }
        ensures { All (λ s. S.content s ≡ []) stores.new.items }
    {
        self.lines = self.lines.saturating_add(1);
        let line = match read_line(self.alloc, &self.line) {
            Ok(line) => line,
            Err(LineFault::Grammar(why)) => {
                let line = self.lines;
                return Err(Finish::Fault(Fault::Line { line, why }));
            }
            Err(LineFault::OutOfMemory) => return Err(Finish::OutOfMemory),
        };
        self.line.clear();
        self.do_line(stores, line, writer)
    }

    /// Does what a line asks for, and writes the outcome.
    fn do_line<W: Write>(
        &mut self,
        stores: &mut Vec<S>,
        line: Line,
        writer: &mut W,
    ) -> Result<(), Finish>
        requires { All (λ s. S.content s ≡ []) stores.old.items }
        ensures { All (λ s. S.content s ≡ []) stores.new.items }
    {
        match line {
            Line::History => {
                let count = self.world.history().len();
                written(writeln!(writer, "history {count}"))
            }
            Line::Holder(id) => written(write_holder(self.world.holder(id), writer)),
            Line::List(node) => written(write_list(&self.world, node, writer)),
            Line::Stabilise(node) => {
                let head = head_of(&self.world, node);
                self.do_step(stores, Step::Stabilise { node, head }, writer)
            }
            Line::Step(step) => self.do_step(stores, step, writer),
        }
    }

    /// Does a step, and writes the outcome.
    fn do_step<W: Write>(
        &mut self,
        stores: &mut Vec<S>,
        step: Step,
        writer: &mut W,
    ) -> Result<(), Finish>
        requires { All (λ s. S.content s ≡ []) stores.old.items }
        ensures { All (λ s. S.content s ≡ []) stores.new.items }
    {
        let did = self.world.step(stores, &step);
        drop(step);
        match did {
            Ok(outcome) => written(write_outcome(&self.world, outcome, writer)),
            Err(refusal) => write_refusal(refusal, writer),
        }
    }

    /// Takes in bytes of the input, and does each line that is whole.
    fn take_in<W: Write>(
        &mut self,
        stores: &mut Vec<S>,
        bytes: &[u8],
        writer: &mut W,
    ) -> Result<(), Finish>
        requires { All (λ s. S.content s ≡ []) stores.old.items }
        ensures { All (λ s. S.content s ≡ []) stores.new.items }
    {
        for byte in bytes {
            if *byte == b'\n' {
                self.finish_line(stores, writer)?;
            } else if self.line.push(*byte).is_err() {
                return Err(Finish::OutOfMemory);
            }
        }
        written(writer.flush())
    }
}

/// Reads lines to the end of the input, at most 4,096 bytes at a time, and does each when it is
/// whole.
fn serve<S: EntryStore, R: Read, W: Write>(
    session: &mut WorldSession<S>,
    stores: &mut Vec<S>,
    reader: &mut R,
    writer: &mut W,
) -> Result<(), Finish>
    requires { All (λ s. S.content s ≡ []) stores.old.items }
    ensures { All (λ s. S.content s ≡ []) stores.new.items }
{
    let mut piece = [0u8; 4096];
    for _ in 0..READS {
        match reader.read(&mut piece) {
            Ok(0) => {
                if !session.line.is_empty() {
                    session.finish_line(stores, writer)?;
                }
                return written(writer.flush());
            }
            Ok(count) => session.take_in(stores, &piece[..count], writer)?,
            Err(_) => return Err(Finish::Fault(Fault::Read)),
        }
    }
    Err(Finish::Fault(Fault::Read))
}

/// Does the command `world`: steps of a world on the input, one line out for each line in. Nodes
/// take their stores from the front of the list.
pub fn world<S: EntryStore, R: Read, W: Write + Drop>(
    alloc: Global,
    mut stores: Vec<S>,
    reader: &mut R,
    writer: W,
) -> Finish
    requires { All (λ s. S.content s ≡ []) stores.items }
{
    let mut session = WorldSession {
        alloc,
        world: World::new(alloc, SUCCESSORS),
        line: Vec::new(alloc),
        lines: 0,
    };
    let Ok(mut writer) = BufWriter::new(alloc, writer) else {
        return Finish::OutOfMemory;
    };
    let ended = serve(&mut session, &mut stores, reader, &mut writer);
    let flushed = written(writer.flush());
    match ended.and(flushed) {
        Ok(()) => Finish::Done,
        Err(finish) => finish,
    }
}
