//! Many links at once, each over a stream of its own. A seed says what comes when, how it is cut,
//! which write is short, which requests wait for how many tries, when changes are made and when they
//! are written, and how each connection ends. What a link wrote, and how it ended, is compared with
//! what a plain table of pairs says.
//!
//! The variable `SEEDS` of the environment says how many seeds a run goes through.
ghost use Rattle.std.specs.Prelude.{◌≡◌};

mod asker;
mod commands;
mod device;
mod dice;
mod frames;
mod model;
mod talk;

use crate::parties::Silent;
use asker::SlowAsker;
use chord_resp_serve::{CommandProtocol, ServerInfo};
use chord_serve::{ClientSession, FrameProtocol, Link, Marks, Parted, Protocol, Stream};
use chord_wire::SessionFrames;
use commands::commands;
use device::Device;
use dice::Dice;
use frames::frames;
use std::alloc::{AllocError, Global};
use std::sync::{Mutex, Wait};
use std::{env, io};

/// How many links there are at once.
const LINKS: usize = 8;

/// How many seeds a run goes through if nothing else is said.
const SEEDS: u64 = 50;

/// Behind how many tries the driver has a request tried for the last time.
const PATIENCE: u32 = 4;

/// How many things the driver does at most for one seed.
const MOST_STEPS: u64 = 100_000;

/// Changes that are made, and written a while later.
#[derive(Drop)]
struct Changes {
    made: u64,
    written: u64,
}

impl Marks for Changes {
    ghost tells = { λ changes mark. mark ≡ changes.made };

    fn mark(&self) -> u64 {
        self.made
    }
}

/// Does one thing with a link, or with the changes.
fn step<P: Protocol + Drop, S: Stream + Drop>(
    link: &mut Link<P, S>,
    changes: &mut Changes,
    dice: &mut Dice,
    buffer: &mut [u8],
) {
    match dice.below(6) {
        0 => {
            let _ = link.read_from(buffer).is_ok();
        }
        1 => {
            let _ = link.write_to(changes.written).is_ok();
        }
        2 => link.advance(changes),
        3 => changes.made = changes.made.saturating_add(1),
        4 => changes.written = changes.made,
        _ if link.tries() < PATIENCE => link.try_again(changes),
        _ => link.stop_waiting(changes),
    }
}

/// Drives the links until each is done. Says whether each is.
fn drive_all<P: Protocol + Drop, S: Stream + Drop>(
    links: &mut [Link<P, S>],
    dice: &mut Dice,
) -> bool {
    let mut buffer = [0u8; 64];
    let mut changes = Changes {
        made: 0,
        written: 0,
    };
    for _ in 0..MOST_STEPS {
        let most = dice.up_to(64);
        let place = dice.below(LINKS as u64) as usize;
        if let Some(link) = links.get_mut(place) {
            if !link.is_done() {
                step(link, &mut changes, dice, &mut buffer[..most.min(64)]);
            }
        }
    }
    links.iter().all(|link| link.is_done())
}

/// Where each link writes.
fn outputs(alloc: Global) -> Result<Vec<Mutex<Vec<u8>>>, AllocError> {
    let mut outputs = Vec::new(alloc);
    for _ in 0..LINKS {
        outputs.push(Mutex::new(Vec::new(alloc)))?;
    }
    Ok(outputs)
}

/// Whether all links that speak Redis's protocol are right for this seed.
fn answer_commands<R: Wait>(rt: &R, alloc: Global, source: &Silent, seed: u64) -> io::Result<bool> {
    let mut dice = Dice::new(seed);
    let outputs = outputs(alloc)?;
    let (mut talks, mut links) = (Vec::new(alloc), Vec::new(alloc));
    for output in outputs.iter() {
        let talk = commands(alloc, &mut dice)?;
        let server = ServerInfo { number: 7, source };
        let protocol = CommandProtocol::new(alloc, server, SlowAsker::new(alloc));
        let device = Device::new(rt, dice.split(), &talk, output)?;
        links.push(Link::new(alloc, protocol, device))?;
        talks.push(talk)?;
    }
    let mut are_right = drive_all(&mut links, &mut dice);
    for (talk, output) in talks.iter().zip(outputs.iter()).rev() {
        if let Some(link) = links.pop() {
            let end = link.end();
            let asked = link.into_protocol().into_asker().count();
            are_right &= talk.is_right(&output.lock(rt), end, asked);
        }
    }
    drop(talks);
    Ok(are_right)
}

/// The asker of what is left of a session.
fn asker_of(left: Parted<SlowAsker>) -> SlowAsker {
    match left {
        Parted::Kept(client) => client.into_asker(),
        Parted::Over(asker) => asker,
    }
}

/// Whether all links that speak in frames are right for this seed.
fn answer_frames<R: Wait>(rt: &R, alloc: Global, seed: u64) -> io::Result<bool> {
    let mut dice = Dice::new(seed);
    let outputs = outputs(alloc)?;
    let (mut talks, mut links) = (Vec::new(alloc), Vec::new(alloc));
    for output in outputs.iter() {
        let talk = frames(alloc, &mut dice)?;
        let client = ClientSession::of_connection(alloc, SlowAsker::new(alloc));
        let protocol = FrameProtocol::new(SessionFrames::new(alloc), client, false);
        let device = Device::new(rt, dice.split(), &talk, output)?;
        links.push(Link::new(alloc, protocol, device))?;
        talks.push(talk)?;
    }
    let mut are_right = drive_all(&mut links, &mut dice);
    for (talk, output) in talks.iter().zip(outputs.iter()).rev() {
        if let Some(link) = links.pop() {
            let end = link.end();
            let asked = asker_of(link.into_protocol().into_parted()).count();
            are_right &= talk.is_right(&output.lock(rt), end, asked);
        }
    }
    drop((links, talks));
    Ok(are_right)
}

/// How many seeds a run goes through.
fn seeds(rt: &HostRuntime) -> u64 {
    match env::var(rt, "SEEDS") {
        Ok(seeds) => seeds.parse::<u64>().unwrap_or(SEEDS),
        Err(_) => SEEDS,
    }
}

#[test]
fn links_answer_commands_whatever_comes_when(rt: HostRuntime) {
    for seed in 0..seeds(&rt) {
        let are_right = answer_commands(&rt, rt.alloc(), &Silent, seed);
        assert!(&rt; are_right.is_ok_and(|right| right), "seed {seed}");
    }
}

#[test]
fn links_answer_frames_whatever_comes_when(rt: HostRuntime) {
    for seed in 0..seeds(&rt) {
        let are_right = answer_frames(&rt, rt.alloc(), seed);
        assert!(&rt; are_right.is_ok_and(|right| right), "seed {seed}");
    }
}
