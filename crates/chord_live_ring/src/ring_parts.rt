//! Rings before they have their name.
ghost use Rattle.std.specs.Prelude.{◌≡◌, ◌↔◌, Err, IfOk, vec_len};
ghost use Rattle.chord_live_types.specs.Limits.{AreWithin};
ghost use Rattle.chord_live_types.specs.declared.ring.NewFault.TheVariants as NewFault;

use crate::board::Board;
use crate::register::Register;
use crate::ring::Ring;
use crate::slot::{Inbox, Slot, SlotState};
use chord_live_steps::Numbers;
use chord_live_types::{NewFault, Settings};
use chord_store::EntryStore;
use chord_table::{Naming, Registrar, TableParts};
use std::alloc::{AllocError, Global};
use std::marker::Model;
use std::sync::atomic::{AtomicBool, AtomicU64};
use std::sync::{Condvar, Mutex, OnceLock};

/// A ring that has no name yet. Contracts see the name that it will get, and its settings.
#[derive(Drop)]
pub struct RingParts {
    alloc: Global,
    settings: Settings,
    table: TableParts,
    ghost within: { AreWithin settings },
    ghost slots: { table.slots ≡ settings.slots },
    ghost callers: { table.callers ≡ settings.callers },
}

impl Model for RingParts {
    ghost use Rattle.chord_live_ring.specs.Parts.{Parts};

    ghost Value = { Parts };

    ghost view = { λ parts. record { name = parts.table; settings = parts.settings } };
}

impl RingParts {
    /// A ring of this size with no node.
    pub fn new(alloc: Global, settings: Settings) -> Result<RingParts, NewFault>
        ensures ok { IfOk result (λ parts. parts.settings ≡ settings) }
        ensures bad { (result ≡ Err NewFault.BadSettings) ↔ (¬ AreWithin settings) }
    {
        if !settings.are_within() {
            return Err(NewFault::BadSettings);
        }
        match Registrar::open(alloc, settings.slots, settings.callers) {
            Ok(table) => Ok(RingParts {
                alloc,
                settings,
                table,
            }),
            Err(_) => Err(NewFault::Memory),
        }
    }

    /// Gives the ring its name.
    #[tactic(auto, using(crate::proofs::Departures::none_out))]
    pub fn assemble<J: Naming, S: EntryStore>(self) -> Result<Ring<J, S>, AllocError>
        requires { self.name ≡ J.name }
        ensures { IfOk result (λ ring. ring ≡ self.settings) }
    {
        let RingParts {
            alloc,
            settings,
            table,
        } = self;
        let slots = vacant_slots(alloc, settings.slots)?;
        let inboxes = empty_inboxes(alloc, settings.callers)?;
        let board = Board::new(alloc, settings.slots)?;
        let (table, registrar) = table.assemble::<J>();
        let numbers = Numbers::new(alloc, registrar, settings.callers);
        Ok(Ring {
            alloc,
            settings,
            table,
            register: Mutex::new(Register { numbers }),
            board: Mutex::new(board),
            nodes: AtomicU64::new(0),
            past_forwards: AtomicU64::new(0),
            slots,
            inboxes,
            polls_to_skip: AtomicU64::new(0),
            stopped: AtomicBool::new(false),
            stirred: Mutex::new(false),
            stirring: Condvar::new(),
            journal: OnceLock::new(),
            journal_mark: AtomicU64::new(0),
        })
    }
}

/// `count` slots with no node.
fn vacant_slots<J: Naming, S: EntryStore>(
    alloc: Global,
    count: usize,
) -> Result<Vec<Slot<J, S>>, AllocError>
    ensures { IfOk result (λ slots. vec_len slots ≡ count) }
{
    let mut slots = Vec::with_capacity(alloc, count)?;
    for _ in 0..count {
        let (inbox, envelopes) = crossbeam_channel::unbounded(alloc)?;
        slots.push(Slot {
            state: Mutex::new(SlotState::Vacant),
            number: AtomicU64::new(0),
            live: AtomicBool::new(false),
            worker: AtomicU64::new(0),
            ticks: AtomicU64::new(0),
            again_item: AtomicU64::new(0),
            again_part: AtomicU64::new(1),
            inbox,
            envelopes,
        })?;
    }
    Ok(slots)
}

/// `count` inboxes with no envelope.
fn empty_inboxes<J: Naming>(alloc: Global, count: usize) -> Result<Vec<Inbox<J>>, AllocError>
    ensures { IfOk result (λ inboxes. vec_len inboxes ≡ count) }
{
    let mut inboxes = Vec::with_capacity(alloc, count)?;
    for _ in 0..count {
        let (inbox, envelopes) = crossbeam_channel::unbounded(alloc)?;
        inboxes.push(Inbox { inbox, envelopes })?;
    }
    Ok(inboxes)
}
