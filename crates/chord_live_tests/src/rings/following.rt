//! Following the scripts of rings.
//!
//! A script begins with five numbers and its title, as `== 2 1 20 1000 3 a node leaves`: how many
//! slots and callers the ring has, how often a request is sent and for how many milliseconds its
//! caller waits each time, and how many successors a list has. A line `workers 0 1` begins the part
//! during which these nodes have a worker; the ring is stopped behind it. Callers are of one part.
ghost use Rattle.std.specs.Prelude.{◌≡◌};

use super::running::{Roomy, Running};
use super::{parts_with, settings};
use crate::checks::check;
use chord_app_text::{LineFault, Words};
use chord_live_ring::{NoProbe, Ring, RingParts, Settings};
use chord_table::Naming;
use chord_testkit::follow_on;
use std::alloc::Global;
use std::marker::Brand;
use std::process::Abort;
use std::sync::Wait;
use std::test::Fail;
use std::thread;
use std::thread::Threads;
use std::time::Clock;

/// The lines of a script, without its title. (A function that is called with `Brand` takes no
/// `&str`: no name could be picked for its ring.)
#[derive(Clone, Copy)]
pub struct Script<'a> {
    pub lines: &'a str,
}

/// Does the scripts of a text, each with a ring of its own whose nodes have stores of this kind.
pub fn follow_rings<S: Roomy + Send, R: Abort + Threads + Wait + Clock + Sync>(
    rt: &R,
    alloc: Global,
    text: &str,
) -> Result<(), Fail> {
    for script in text.split("\n== ").skip(1) {
        let (title, lines) = script.split_once("\n").unwrap_or((script, ""));
        let Ok(settings) = settings_of(title) else {
            return Err(Fail::new("a script without settings"));
        };
        follow_ring::<S, R>(rt, alloc, settings, lines)?;
    }
    Ok(())
}

fn settings_of(title: &str) -> Result<Settings, LineFault> {
    let mut words = Words::new(title);
    let slots = words.number()? as usize;
    let callers = words.number()? as usize;
    let tries = words.number()?;
    let wait_ms = words.number()?;
    let successors = words.number()? as usize;
    Ok(Settings {
        successors,
        ..settings(slots, callers, tries, wait_ms)
    })
}

fn follow_ring<S: Roomy + Send, R: Abort + Threads + Wait + Clock + Sync>(
    rt: &R,
    alloc: Global,
    settings: Settings,
    lines: &str,
) -> Result<(), Fail> {
    let parts = parts_with(rt, alloc, settings);
    run::<Brand, S, R>(rt, alloc, parts, Script { lines })
}

/// Does both parts of a script.
fn run<J: Naming + Send + Sync, S: Roomy + Send, R: Abort + Threads + Wait + Clock + Sync>(
    rt: &R,
    alloc: Global,
    parts: RingParts,
    script: Script<'_>,
) -> Result<(), Fail>
    requires { parts.name ≡ J.name }
{
    let ring = parts.assemble::<J, S>().expect(rt, "memory for a ring");
    let done = follow_both(rt, alloc, &ring, script.lines);
    ring.close();
    done
}

/// Does the part without workers, and then the part with them, if there is one.
pub fn follow_both<
    J: Naming + Send + Sync,
    S: Roomy + Send,
    R: Abort + Threads + Wait + Clock + Sync,
>(rt: &R, alloc: Global, ring: &Ring<J, S>, lines: &str) -> Result<(), Fail> {
    let (alone, worked) = lines.split_once("\nworkers ").unwrap_or((lines, ""));
    follow_in(rt, alloc, ring, alone)?;
    let (numbers, worked) = worked.split_once("\n").unwrap_or((worked, ""));
    match numbers {
        "0" => with_worker(rt, alloc, ring, 0, worked),
        "1" => with_worker(rt, alloc, ring, 1, worked),
        "0 1" => with_two_workers(rt, alloc, ring, worked),
        "" => Ok(()),
        _ => Err(Fail::new("workers of no such nodes")),
    }
}

/// Does lines with a ring.
fn follow_in<J: Naming, S: Roomy, R: Wait + Clock>(
    rt: &R,
    alloc: Global,
    ring: &Ring<J, S>,
    lines: &str,
) -> Result<(), Fail> {
    let mut running = Running::new(rt, alloc, ring);
    let done = follow_on(&mut running, lines);
    drop(running);
    done
}

/// Does lines while a node has a worker, and then stops the ring.
fn with_worker<J: Naming + Send + Sync, S: Roomy + Send, R: Abort + Threads + Wait + Clock + Sync>(
    rt: &R,
    alloc: Global,
    ring: &Ring<J, S>,
    number: u64,
    lines: &str,
) -> Result<(), Fail> {
    let (ended, done) = thread::join(
        rt,
        move || ring.work(rt, number, &NoProbe).is_ok(),
        move || {
            let done = follow_in(rt, alloc, ring, lines);
            ring.stop();
            done
        },
    );
    check!(rt; ended, "a worker ends when the ring is stopped");
    done
}

fn with_two_workers<
    J: Naming + Send + Sync,
    S: Roomy + Send,
    R: Abort + Threads + Wait + Clock + Sync,
>(rt: &R, alloc: Global, ring: &Ring<J, S>, lines: &str) -> Result<(), Fail> {
    let (ended, done) = thread::join(
        rt,
        move || ring.work(rt, 0, &NoProbe).is_ok(),
        move || with_worker(rt, alloc, ring, 1, lines),
    );
    check!(rt; ended, "the worker of node 0 ends when the ring is stopped");
    done
}
