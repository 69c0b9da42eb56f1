//! The command `run`: a ring of a plan's nodes, and what its callers ask.
ghost use Rattle.std.specs.Prelude.{◌≡◌, ◌↔◌, ◌++◌, Err, map, IfOk, OnOk};
ghost use Rattle.chord_app_text.specs.declared.finish.Finish.TheVariants as Finish;
ghost use Rattle.chord_live_types.specs.Limits.{AreWithin};
ghost use Rattle.chord_app_serve.specs.Together.{AreGroups, StandTogether, caller_in, callers_in};

mod asking;

use crate::nodes::Workers;
use crate::plan_run::asking::{Answers, AskResults, CallerAnswers, FreshClient, ask_in_turn};
pub use asking::AskResult;
use chord_app_plan::Plan;
use chord_app_text::Finish;
use chord_live_ring::{NewFault, Ring, RingParts};
use chord_live_types::Settings;
use chord_store::EntryStore;
use chord_table::{CallerSeat, Naming};
use std::alloc::Global;
use std::io::{self, BufWriter, Write};
use std::marker::Brand;
use std::sync::Wait;
use std::thread;
use std::thread::{JoinHandle, Threads};
use std::time::Clock;

/// How the asks of all callers ended, and these callers.
#[derive(Drop)]
struct RunAnswers<J: Naming> {
    all: Vec<AskResults>,
    callers: Vec<CallerSeat<J>>,
}

impl<J: Naming> RunAnswers<J> {
    /// Adds a caller, if it is one.
    fn add_caller(&mut self, caller: Option<CallerSeat<J>>) -> Result<(), Finish>
        ensures callers { OnOk result (map caller_in self.new.callers.items ≡ map caller_in self.old.callers.items ++ callers_in caller) }
        ensures all { self.new.all.items ≡ self.old.all.items }
    {
        match caller {
            Some(caller) => {
                self.callers.push(caller)?;
                Ok(())
            }
            None => Ok(()),
        }
    }

    /// Adds what one more caller was answered.
    fn add(&mut self, answers: CallerAnswers<J>) -> Result<(), Finish>
        ensures { OnOk result (AreGroups (map caller_in self.old.callers.items) self.old.all.items → AreGroups (map caller_in self.new.callers.items) self.new.all.items) }
    {
        let CallerAnswers { results, caller } = answers;
        self.add_caller(caller)?;
        self.all.push(results)?;
        Ok(())
    }
}

/// How the asks of all callers ended, once they are done.
fn join_callers<J: Naming>(
    rt: &(impl Threads + Wait),
    alloc: Global,
    threads: Vec<JoinHandle<Answers<J>>>,
) -> Result<RunAnswers<J>, Finish>
    ensures { IfOk result (λ run. AreGroups (map caller_in run.callers.items) run.all.items) }
{
    let mut run = RunAnswers {
        all: Vec::new(alloc),
        callers: Vec::new(alloc),
    };
    for thread in threads {
        run.add(thread.join(rt)?)?;
    }
    Ok(run)
}

/// Each caller asks on a thread of its own, all at once, while another thread ticks the nodes. The
/// callers are opened in the order of their numbers.
fn ask_at_once<
    's,
    E: 's,
    J: Naming + Send + Sync + 's,
    S: EntryStore + Send + 's,
    R: Threads + Wait + Clock + Sync + 's,
>(alloc: Global, workers: Workers<'s, E, J, S, R>, plan: &'s Plan) -> Result<RunAnswers<J>, Finish>
    ensures { IfOk result (λ run. AreGroups (map caller_in run.callers.items) run.all.items) }
{
    let Workers { rt, ring, scope } = workers;
    if scope
        .spawn(move || Workers { rt, ring, scope }.tick_in_turn())
        .is_err()
    {
        return Err(Finish::OutOfMemory);
    }
    let asks = plan.asks.as_slice();
    let mut callers = Vec::new(alloc);
    for number in 0..plan.settings.callers {
        let client = FreshClient::open(rt, ring)?;
        match scope.spawn(move || ask_in_turn(rt, alloc, client, number, asks)) {
            Ok(caller) => callers.push(caller)?,
            Err(_) => return Err(Finish::OutOfMemory),
        }
    }
    join_callers(rt, alloc, callers)
}

/// Writes a line for each ask that was made, by caller and number.
fn write_answers<W: Write>(all: &[AskResults], writer: &mut W) -> io::Result<()> {
    for (caller, answers) in all.iter().enumerate() {
        for (place, answer) in answers.as_slice().iter().enumerate() {
            let number = place.saturating_add(1);
            writeln!(writer, "{caller} {number} {answer}")?;
        }
    }
    writer.flush()
}

/// Starts the nodes, and stops the ring once all callers are done. The first handle starts the
/// threads.
fn run_ring<'x, J: Naming + Send + Sync, S: EntryStore + Send, R: Threads + Wait + Clock + Sync>(
    starter: &R,
    rt: &'x R,
    alloc: Global,
    ring: &'x Ring<J, S>,
    plan: &'x Plan,
    stores: Vec<S>,
) -> Result<RunAnswers<J>, Finish>
    ensures { IfOk result (λ run. AreGroups (map caller_in run.callers.items) run.all.items) }
{
    thread::scope(thread::scope_env(), starter, |scope| {
        let workers = Workers { rt, ring, scope };
        let all = match workers.start_nodes(plan.nodes.as_slice(), stores) {
            Ok(()) => ask_at_once(alloc, workers, plan),
            Err(finish) => Err(finish),
        };
        ring.stop();
        all
    })
}

/// Ends the ring. One look at all its nodes and at the callers proves that what they were answered
/// stands in the one history of the whole. Only memory that ran out can keep a seat back.
fn conclude<J: Naming, S: EntryStore>(
    ring: Ring<J, S>,
    run: RunAnswers<J>,
) -> Result<Vec<AskResults>, Finish>
    requires { AreGroups (map caller_in run.callers.items) run.all.items }
    ensures { IfOk result (λ all. StandTogether all.items) }
{
    let RunAnswers { all, callers } = run;
    let closed = ring.close_with(callers);
    if closed.is_whole {
        Ok(all)
    } else {
        Err(Finish::OutOfMemory)
    }
}

/// Gives the ring its name, and runs it.
fn run_named<J: Naming + Send + Sync, S: EntryStore + Send, R: Threads + Wait + Clock + Sync>(
    rt: &R,
    alloc: Global,
    plan: &Plan,
    stores: Vec<S>,
    parts: RingParts,
) -> Result<Vec<AskResults>, Finish>
    requires { parts.name ≡ J.name }
    ensures { IfOk result (λ all. StandTogether all.items) }
{
    let ring = match parts.assemble::<J, S>() {
        Ok(ring) => ring,
        Err(_) => {
            drop(stores);
            return Err(Finish::OutOfMemory);
        }
    };
    match run_ring(rt, rt, alloc, &ring, plan, stores) {
        Ok(run) => conclude(ring, run),
        Err(finish) => {
            ring.close();
            Err(finish)
        }
    }
}

/// A ring of this size that has no name yet.
pub fn ring_parts_of(alloc: Global, settings: Settings) -> Result<RingParts, Finish>
    ensures ok { IfOk result (λ parts. parts.settings ≡ settings) }
    ensures bad { (result ≡ Err Finish.BadPlan) ↔ (¬ AreWithin settings) }
{
    match RingParts::new(alloc, settings) {
        Ok(parts) => Ok(parts),
        Err(NewFault::BadSettings) => Err(Finish::BadPlan),
        Err(NewFault::Memory) => Err(Finish::OutOfMemory),
    }
}

/// Writes the answers through a buffer.
fn write_buffered<W: Write + Drop>(
    alloc: Global,
    all: &[AskResults],
    writer: W,
) -> Result<(), Finish> {
    let mut lines = BufWriter::new(alloc, writer)?;
    write_answers(all, &mut lines)?;
    Ok(())
}

/// Runs a ring of the plan's nodes over these stores, one for each, until all its callers are done,
/// and writes their answers.
fn run_and_write<S: EntryStore + Send, R: Threads + Wait + Clock + Sync, W: Write + Drop>(
    rt: &R,
    alloc: Global,
    plan: &Plan,
    stores: Vec<S>,
    writer: W,
) -> Result<(), Finish> {
    let parts = ring_parts_of(alloc, plan.settings)?;
    let all = run_named::<Brand, S, R>(rt, alloc, plan, stores, parts)?;
    let written = write_buffered(alloc, all.as_slice(), writer);
    drop(all);
    written
}

/// The command `run`.
pub fn run<S: EntryStore + Send, R: Threads + Wait + Clock + Sync, W: Write + Drop>(
    rt: &R,
    alloc: Global,
    plan: &Plan,
    stores: Vec<S>,
    writer: W,
) -> Finish {
    match run_and_write(rt, alloc, plan, stores, writer) {
        Ok(()) => Finish::Done,
        Err(finish) => finish,
    }
}
