//! The handovers that a node took, and the buffered parts of the next ones.
ghost use Rattle.std.specs.Prelude.{◌≡◌, ◌+◌, ◌<◌, ◌^◌, [], true, false, IfOk, OnOk, OnErr};
ghost use Rattle.chord_segment.specs.Marks.{mark_of};
ghost use Rattle.chord_handover.specs.Gather.{GatherIs, AreWhole, TellsPayload};
ghost use Rattle.chord_handover.specs.Taken.{nothing_taken, JudgeIs, with_mark, is_buffered, with_buffered};

use crate::gather::Gather;
use crate::gathering::gather;
use crate::part::Part;
use crate::verdict::Verdict;
use chord_segment::{Mark, number_of, raise_mark};
use std::alloc::{AllocError, Global};
use std::marker::Model;

/// The last number taken from each sender, and the buffered parts of the next handovers.
#[derive(Debug, Drop)]
pub struct Taken {
    last: Vec<Mark>,
    buffered: Vec<Part>,
}

impl Model for Taken {
    ghost use Rattle.std.specs.Prelude.{nat_lt};
    ghost use Rattle.std.specs.Vec.{vec_len, vec_capacity};
    ghost use Rattle.chord_handover.specs.Taken.{RoomyTaken};

    ghost Value = { RoomyTaken };

    ghost view = { λ taken. record { taken = record { last = taken.last.items; buffered = taken.buffered.items }; has_room = nat_lt (vec_len taken.last) (vec_capacity taken.last) } };
}

impl Taken {
    /// Nothing taken and nothing buffered.
    pub fn new(alloc: Global) -> Taken
        ensures { result.taken ≡ nothing_taken }
    {
        Taken {
            last: Vec::new(alloc),
            buffered: Vec::new(alloc),
        }
    }

    /// The last number taken from a sender, 0 at first.
    pub fn last(&self, from: u64) -> u64
        ensures { result ≡ mark_of from self.now.taken.last }
    {
        number_of(&self.last, from)
    }

    /// Whether a number is the next of its sender, was taken before, or comes too early.
    pub fn judge(&self, from: u64, number: u64) -> Verdict
        ensures { JudgeIs from number self.now.taken result }
    {
        let last = self.last(from);
        if number <= last {
            Verdict::Again
        } else if number - last == 1 {
            Verdict::Next
        } else {
            Verdict::Early
        }
    }

    /// Reserves room for one more sender, as the next `mark` requires.
    pub fn reserve(&mut self) -> Result<(), AllocError>
        ensures same { self.new.taken ≡ self.old.taken }
        ensures room { OnOk result (self.new.has_room ≡ true) }
    {
        self.last.reserve(1)?;
        Ok(())
    }

    /// The sender's next handover was taken: its number
    /// becomes the last, and its buffered parts are dropped.
    pub fn mark(&mut self, from: u64)
        requires room { self.old.has_room ≡ true }
        requires more { mark_of from self.old.taken.last + 1 < 2 ^ 64 }
        ensures { self.new.taken ≡ with_mark from self.old.taken }
    {
        let next = number_of(&self.last, from) + 1;
        raise_mark(&mut self.last, from, next);
        self.buffered.retain(|part| part.from != from);
    }

    /// Drops the buffered parts of all senders.
    pub fn forget_buffered(&mut self)
        ensures { self.new.taken ≡ record self.old.taken { buffered = [] } }
    {
        self.buffered.clear();
    }

    /// What this part makes together with the buffered parts of its sender's next handover. It
    /// buffers nothing, and only a whole payload needs memory.
    pub fn whole_with(&self, part: &Part) -> Result<Gather, AllocError>
        requires { part.now.number ≡ mark_of part.now.from self.now.taken.last + 1 }
        ensures made { IfOk result (λ gather. GatherIs part.now self.now.taken.buffered gather) }
        ensures payload { IfOk result (λ gather. TellsPayload gather) }
        ensures whole { OnErr result (AreWhole part.now self.now.taken.buffered) }
    {
        let made = gather(*self.buffered.allocator(), &self.buffered, part)?;
        Ok(made)
    }

    /// Buffers a part of a sender's next handover. A part that is buffered already changes nothing.
    pub fn buffer(&mut self, part: &Part) -> Result<(), AllocError>
        requires { part.now.number ≡ mark_of part.now.from self.old.taken.last + 1 }
        ensures ok { OnOk result (self.new.taken ≡ with_buffered part.now self.old.taken) }
        ensures err { OnErr result (self.new.taken ≡ self.old.taken) }
        ensures fresh { OnErr result (is_buffered part.now self.old.taken.buffered ≡ false) }
    {
        if has_part(&self.buffered, part) {
            return Ok(());
        }
        let copy = part.try_copy()?;
        self.buffered.push(copy)?;
        Ok(())
    }
}

/// Whether the list has a part of this sender, handover number and part number.
pub fn has_part(buffered: &[Part], part: &Part) -> bool
    ensures { result ≡ is_buffered part.now buffered.now }
{
    buffered.iter().any(|other| other.from == part.from
        && other.number == part.number
        && other.place == part.place)
}
