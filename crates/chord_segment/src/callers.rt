//! The floors and the kept calls of all callers.
ghost use Rattle.std.specs.Prelude.{◌≡◌, ◌≢◌, ◌↔◌, ◌≤◌, ℕ, [], length, IsTrue, IsOk, IfOk, IfErr, OnOk};
ghost use Rattle.std.specs.Option.{option_copied};
ghost use Rattle.chord_segment.specs.Marks.{lift, lift_all};
ghost use Rattle.chord_segment.specs.Segment.{insert_call, insert_calls, calls_above, dones_inside, stands_twice};
ghost use Rattle.chord_segment.specs.Callers.{mark_in, marks_in, calls_in, AreAbove, HasRoom, HasRoomFor, IsAlike, IsEntry, IsGapAt, IsNextShown, IsOwn, IsOwnAt};

use crate::caller_replies::CallerReplies;
use chord_ident::Span;
use chord_map::Done;
use std::alloc::{AllocError, Global};
use std::marker::Model;
use std::mem::replace;

/// The entries of all callers, sorted by caller.
#[derive(Debug, Drop)]
pub struct Callers {
    entries: Vec<CallerReplies>,
}

impl Model for Callers {
    ghost use Rattle.std.specs.Prelude.{List};
    ghost use Rattle.chord_segment.specs.Callers.{OfCaller, IsGrouped};

    ghost Value = { List OfCaller };

    ghost view = { λ callers. callers.entries.items };

    ghost invariant = { λ callers. IsGrouped callers.entries.items };
}

impl Callers {
    /// No callers.
    pub fn new(alloc: Global) -> Callers
        ensures { result ≡ [] }
    {
        Callers {
            entries: Vec::new(alloc),
        }
    }

    /// The entries, sorted by caller.
    pub fn as_slice(&self) -> &[CallerReplies]
        ensures { result.now ≡ self.now }
    {
        self.entries.as_slice()
    }

    /// The index of the caller's entry, or the index at which to insert it.
    fn place_of(&self, caller: u64) -> Result<usize, usize>
        ensures found { IfOk result (λ place. IsOwnAt caller self.now place) }
        ensures absent { IfErr result (λ place. IsGapAt caller self.now place) }
    {
        self.entries.binary_search_by_key(
            &caller,
            |own: &CallerReplies| -> u64
                ensures { result ≡ own.now.caller }
            { own.caller() },
        )
    }

    /// The caller's entry, if it has one.
    pub fn entry(&self, caller: u64) -> Option<&CallerReplies>
        ensures { IsEntry caller (option_copied result) self.now }
    {
        match self.place_of(caller) {
            Ok(place) => Some(&self.entries[place]),
            Err(_) => None,
        }
    }

    /// Reserves room for `count` more calls of the caller.
    pub fn reserve(&mut self, caller: u64, count: usize) -> Result<(), AllocError>
        ensures floors { marks_in self.new ≡ marks_in self.old }
        ensures calls { calls_in self.new ≡ calls_in self.old }
        ensures keeps { (other room : ℕ) → HasRoom other room self.old → HasRoom other room self.new }
        ensures room { OnOk result (HasRoom caller count self.new) }
        ensures succeeds { HasRoom caller count self.old → IsOk result }
    {
        match self.place_of(caller) {
            Ok(place) => self.entries[place].reserve(count),
            Err(place) => self.enter(place, caller, count),
        }
    }

    /// Inserts an entry, which is not shown, at the index where the caller's belongs.
    fn enter(&mut self, place: usize, caller: u64, count: usize) -> Result<(), AllocError>
        requires { IsGapAt caller self.old place }
        ensures floors { marks_in self.new ≡ marks_in self.old }
        ensures calls { calls_in self.new ≡ calls_in self.old }
        ensures keeps { (other room : ℕ) → HasRoom other room self.old → HasRoom other room self.new }
        ensures room { OnOk result (HasRoom caller count self.new) }
    {
        let alloc = *self.entries.allocator();
        let entry = CallerReplies::hidden(alloc, caller, count)?;
        match self.entries.insert(place, entry) {
            Ok(()) => Ok(()),
            Err(_) => Err(AllocError),
        }
    }

    /// Keeps a call and raises its caller's floor. Calls at or below the floor are dropped.
    pub fn keep(&mut self, done: Done, floor: u64)
        requires room { HasRoom done.caller 1 self.old }
        requires above { AreAbove self.old }
        ensures floors { marks_in self.new ≡ lift done.caller floor (marks_in self.old) }
        ensures calls { calls_in self.new ≡ calls_above (lift done.caller floor (marks_in self.old)) (insert_call done (calls_in self.old)) }
    {
        match self.place_of(done.caller) {
            Ok(place) => self.entries[place].keep(done, floor),
            Err(_) => unreachable!(),
        }
    }

    /// Whether both keep some call.
    pub fn any_twice(&self, other: &Callers) -> bool
        ensures { result ≡ stands_twice (calls_in self.now) (calls_in other.now) }
    {
        for own in &other.entries {
            if self.keeps_any(own) {
                return true;
            }
        }
        false
    }

    /// Whether it keeps some call of this entry.
    fn keeps_any(&self, other: &CallerReplies) -> bool
        requires { IsOwn other.now }
        ensures { result ≡ stands_twice (calls_in self.now) other.now.kept }
    {
        match self.entry(other.caller()) {
            Some(own) => own.any_twice(other),
            None => false,
        }
    }

    /// Reserves room for all calls of the other.
    pub fn ready(&mut self, other: &Callers) -> Result<(), AllocError>
        ensures floors { marks_in self.new ≡ marks_in self.old }
        ensures calls { calls_in self.new ≡ calls_in self.old }
        ensures keeps { (caller room : ℕ) → HasRoom caller room self.old → HasRoom caller room self.new }
        ensures room { OnOk result (HasRoomFor other.now self.new) }
    {
        for own in &other.entries {
            self.reserve(own.caller(), own.len())?;
        }
        Ok(())
    }

    /// Adds the other's floors and calls, and empties the
    /// other. Calls at or below the greater floors are dropped.
    pub fn take_all(&mut self, other: &mut Callers)
        requires room { HasRoomFor other.old self.old }
        requires above { AreAbove self.old }
        ensures floors { marks_in self.new ≡ lift_all (marks_in other.old) (marks_in self.old) }
        ensures calls { calls_in self.new ≡ calls_above (marks_in self.new) (insert_calls (calls_in other.old) (calls_in self.old)) }
        ensures left { other.new ≡ [] }
    {
        let _ = &self.entries;
        let alloc = *other.entries.allocator();
        let entries = replace(&mut other.entries, Vec::new(alloc));
        for own in entries {
            self.take(own);
        }
    }

    /// Adds one caller's floor and calls.
    fn take(&mut self, other: CallerReplies)
        requires own { IsOwn other }
        requires room { HasRoom other.caller (length other.kept) self.old }
        requires above { AreAbove self.old }
        ensures floors { marks_in self.new ≡ lift_all (mark_in other) (marks_in self.old) }
        ensures calls { calls_in self.new ≡ calls_above (marks_in self.new) (insert_calls other.kept (calls_in self.old)) }
        ensures room { (caller room : ℕ) → other.caller ≢ caller → HasRoom caller room self.old → HasRoom caller room self.new }
    {
        if !other.is_shown() {
            return;
        }
        match self.place_of(other.caller()) {
            Ok(place) => self.entries[place].take(other),
            Err(_) => unreachable!(),
        }
    }

    /// Drops the calls whose keys lie outside the span.
    pub fn keep_inside(&mut self, span: Span)
        ensures floors { marks_in self.new ≡ marks_in self.old }
        ensures calls { calls_in self.new ≡ dones_inside span (calls_in self.old) }
    {
        for i in 0..self.entries.len() {
            self.entries[i].keep_inside(span);
        }
    }

    /// An equal copy.
    pub fn try_copy(&self) -> Result<Callers, AllocError>
        ensures floors { IfOk result (λ copy. marks_in copy ≡ marks_in self.now) }
        ensures calls { IfOk result (λ copy. calls_in copy ≡ calls_in self.now) }
    {
        let mut entries = Vec::with_capacity(*self.entries.allocator(), self.entries.len())?;
        for own in &self.entries {
            entries.push(own.try_copy()?)?;
        }
        Ok(Callers { entries })
    }

    /// Whether both show the same floors and calls.
    pub fn equals(&self, other: &Callers) -> bool
        ensures { IsTrue result ↔ IsAlike self.now other.now }
    {
        let (mut i, mut j) = (0, 0);
        loop {
            i = self.next_shown(i);
            j = other.next_shown(j);
            if i == self.entries.len() || j == other.entries.len() {
                return i == self.entries.len() && j == other.entries.len();
            }
            if !self.entries[i].equals(&other.entries[j]) {
                return false;
            }
            i += 1;
            j += 1;
        }
    }

    /// The index of the first shown entry from `from` on, or the end.
    fn next_shown(&self, from: usize) -> usize
        requires { from ≤ length self.now }
        ensures { IsNextShown self.now from result }
    {
        for i in from..self.entries.len() {
            if self.entries[i].is_shown() {
                return i;
            }
        }
        self.entries.len()
    }
}
