//! The floor and the kept calls of one caller.
ghost use Rattle.std.specs.Prelude.{◌≡◌, ◌↔◌, ◌++◌, [], ◌∷◌, ◌≤◌, true, false, max, nat_lt, filter, length, IsTrue, IfOk, IsOk, OnOk};
ghost use Rattle.std.specs.Option.{option_copied};
ghost use Rattle.chord_map.specs.declared.done.Done.{Done as DoneOf};
ghost use Rattle.chord_map.specs.History.{done_at};
ghost use Rattle.chord_segment.specs.Segment.{stands_twice};
ghost use Rattle.chord_segment.specs.Callers.{IsTwin, without_room, part_in};

use crate::dones::{any_twice, keep_inside, same_dones};
use chord_ident::Span;
use chord_map::{Done, copy_dones, find_done};
use std::alloc::{AllocError, Global};
use std::marker::Model;

/// A caller's floor and its kept calls above it. An entry that is not shown only has room reserved
/// for the caller's first call.
#[derive(Debug, Drop)]
pub struct CallerReplies {
    caller: u64,
    floor: u64,
    kept: Vec<Done>,
    shown: bool,
}

impl Model for CallerReplies {
    ghost use Rattle.std.specs.Prelude.{◌-◌};
    ghost use Rattle.std.specs.Vec.{vec_len, vec_capacity};
    ghost use Rattle.chord_segment.specs.Callers.{OfCaller};

    ghost Value = { OfCaller };

    ghost view = { λ own. record { caller = own.caller; floor = own.floor; kept = own.kept.items; shown = own.shown; room = vec_capacity own.kept - vec_len own.kept } };
}

impl CallerReplies {
    /// An entry that is not shown, with room for `count` calls.
    pub fn hidden(alloc: Global, caller: u64, count: usize) -> Result<CallerReplies, AllocError>
        ensures caller { IfOk result (λ own. own.caller ≡ caller) }
        ensures floor { IfOk result (λ own. own.floor ≡ 0) }
        ensures kept { IfOk result (λ own. own.kept ≡ []) }
        ensures shown { IfOk result (λ own. own.shown ≡ false) }
        ensures room { IfOk result (λ own. count ≤ own.room) }
    {
        let kept = Vec::with_capacity(alloc, count)?;
        Ok(CallerReplies {
            caller,
            floor: 0,
            kept,
            shown: false,
        })
    }

    /// The caller's number.
    pub fn caller(&self) -> u64
        ensures { result ≡ self.now.caller }
    {
        self.caller
    }

    /// The caller's floor.
    pub fn floor(&self) -> u64
        ensures { result ≡ self.now.floor }
    {
        self.floor
    }

    /// The kept calls, in the order in which they were kept.
    pub fn kept(&self) -> &[Done]
        ensures { result.now ≡ self.now.kept }
    {
        self.kept.as_slice()
    }

    /// The kept call of this caller and number, if any.
    pub fn find(&self, caller: u64, number: u64) -> Option<&Done>
        ensures { option_copied result ≡ done_at caller number self.now.kept }
    {
        find_done(&self.kept, caller, number)
    }

    /// Reserves room for `count` more calls.
    pub fn reserve(&mut self, count: usize) -> Result<(), AllocError>
        ensures caller { self.new.caller ≡ self.old.caller }
        ensures floor { self.new.floor ≡ self.old.floor }
        ensures kept { self.new.kept ≡ self.old.kept }
        ensures shown { self.new.shown ≡ self.old.shown }
        ensures keeps { self.old.room ≤ self.new.room }
        ensures room { OnOk result (count ≤ self.new.room) }
        ensures succeeds { count ≤ self.old.room → IsOk result }
    {
        self.kept.reserve(count)?;
        Ok(())
    }

    /// Keeps a call and raises the floor. Calls at or below the floor are dropped.
    pub fn keep(&mut self, done: Done, floor: u64)
        requires { 1 ≤ self.old.room }
        ensures caller { self.new.caller ≡ self.old.caller }
        ensures floor { self.new.floor ≡ max self.old.floor floor }
        ensures shown { self.new.shown ≡ true }
        ensures kept { self.new.kept ≡ filter (λ (done : DoneOf). nat_lt (max self.old.floor floor) done.number) (self.old.kept ++ done ∷ []) }
    {
        self.kept.push_reserved(done);
        self.raise(floor);
    }

    /// Raises the floor, and drops the calls at or below it.
    fn raise(&mut self, floor: u64)
        ensures caller { self.new.caller ≡ self.old.caller }
        ensures floor { self.new.floor ≡ max self.old.floor floor }
        ensures shown { self.new.shown ≡ true }
        ensures kept { self.new.kept ≡ filter (λ (done : DoneOf). nat_lt (max self.old.floor floor) done.number) self.old.kept }
    {
        let lowest = self.floor.max(floor);
        self.floor = lowest;
        self.shown = true;
        self.kept.retain(|done| lowest < done.number);
    }

    /// Whether the segment shows its floor.
    pub fn is_shown(&self) -> bool
        ensures { result ≡ self.now.shown }
    {
        self.shown
    }

    /// The number of kept calls.
    pub fn len(&self) -> usize
        ensures { result ≡ length self.now.kept }
    {
        self.kept.len()
    }

    /// Whether both entries keep some call.
    pub fn any_twice(&self, other: &CallerReplies) -> bool
        ensures { result ≡ stands_twice self.now.kept other.now.kept }
    {
        any_twice(&self.kept, &other.kept)
    }

    /// Whether both have the same caller, floor and calls.
    pub fn equals(&self, other: &CallerReplies) -> bool
        ensures { IsTrue result ↔ IsTwin self.now other.now }
    {
        self.caller == other.caller
            && self.floor == other.floor
            && same_dones(&self.kept, &other.kept)
    }

    /// An equal copy.
    pub fn try_copy(&self) -> Result<CallerReplies, AllocError>
        ensures { IfOk result (λ copy. without_room copy ≡ without_room self.now) }
    {
        let kept = copy_dones(*self.kept.allocator(), &self.kept)?;
        Ok(CallerReplies {
            caller: self.caller,
            floor: self.floor,
            kept,
            shown: self.shown,
        })
    }

    /// Drops the calls whose keys lie outside the span.
    pub fn keep_inside(&mut self, span: Span)
        ensures { without_room self.new ≡ part_in span self.old }
    {
        keep_inside(&mut self.kept, span);
    }

    /// Adds the floor and the calls of `more`. Calls at or below the greater floor are dropped.
    pub fn take(&mut self, mut more: CallerReplies)
        requires { length more.kept ≤ self.old.room }
        ensures caller { self.new.caller ≡ self.old.caller }
        ensures floor { self.new.floor ≡ max self.old.floor more.floor }
        ensures shown { self.new.shown ≡ true }
        ensures kept { self.new.kept ≡ filter (λ (done : DoneOf). nat_lt (max self.old.floor more.floor) done.number) (self.old.kept ++ more.kept) }
    {
        match self.kept.append(&mut more.kept) {
            Ok(()) => {}
            Err(_) => unreachable!(),
        }
        self.raise(more.floor);
    }
}
