//! The outbox: handovers until their receivers answer Got or Declined.
ghost use Rattle.std.specs.Prelude.{◌≡◌, ◌↔◌, true, [], IsTrue, IfOk, OnOk, OnErr, IfSome, IfNone, ◌<◌, ◌≤◌, ◌^◌, IsOk, is_some, length, slice_get, position};
ghost use Rattle.std.specs.Option.{option_copied};
ghost use Rattle.chord_handover.specs.Handover.{is_item, item_at};
ghost use Rattle.chord_handover.specs.Outbox.{IsOutbox, empty_outbox, next_number_to, with_none, payload_of, part_of_item, name_of_item, GiveIs};

use crate::fault::{OutboxGiveFault, Ungiven};
use crate::item::Item;
use crate::part::{Part, count_parts};
use crate::payload::Payload;
use crate::ticket::Ticket;
use chord_segment::{Mark, number_of, raise_mark};
use std::alloc::{AllocError, Global};
use std::marker::Model;

/// The open handovers of a node, and the last number given to each receiver.
#[derive(Debug, Drop)]
pub struct Outbox {
    owner: u64,
    given: Vec<Mark>,
    items: Vec<Item>,
}

impl Model for Outbox {
    ghost use Rattle.std.specs.Prelude.{nat_lt, ◌&&◌};
    ghost use Rattle.std.specs.Vec.{vec_len, vec_capacity};
    ghost use Rattle.chord_handover.specs.Outbox.{RoomyOutbox, IsOutbox};

    ghost Value = { RoomyOutbox };

    ghost view = { λ outbox. record { outbox = record { owner = outbox.owner; given = outbox.given.items; items = outbox.items.items }; has_room = nat_lt (vec_len outbox.given) (vec_capacity outbox.given) && nat_lt (vec_len outbox.items) (vec_capacity outbox.items) } };

    ghost invariant = { λ outbox. IsOutbox outbox.given.items outbox.items.items };
}

impl Outbox {
    /// An empty outbox of this node.
    pub fn new(alloc: Global, owner: u64) -> Outbox
        ensures { result.outbox ≡ empty_outbox owner }
    {
        Outbox {
            owner,
            given: Vec::new(alloc),
            items: Vec::new(alloc),
        }
    }

    /// The number of items.
    pub fn len(&self) -> usize
        ensures { result ≡ length self.now.outbox.items }
    {
        self.items.len()
    }

    /// Whether the outbox is empty.
    pub fn is_empty(&self) -> bool
        ensures { IsTrue result ↔ (self.now.outbox.items ≡ []) }
    {
        self.items.is_empty()
    }

    /// The receiver and the number of item `i`, counted from 0 in the order given.
    pub fn nth(&self, i: u64) -> Option<(u64, u64)>
        ensures value { result ≡ name_of_item (slice_get self.now.outbox.items i) }
        ensures rules { IsOutbox self.now.outbox.given self.now.outbox.items }
    {
        let item = self.items.get(i as usize)?;
        Some((item.to, item.number))
    }

    /// The payload of item `i`, counted from 0 in the order given.
    pub fn nth_payload(&self, i: u64) -> Option<&Payload>
        ensures { option_copied result ≡ payload_of (slice_get self.now.outbox.items i) }
    {
        let found = self.items.get(i as usize)?;
        Some(&found.payload)
    }

    /// The payload of the item of this receiver and number.
    #[tactic(auto, unfolding(crate::specs::Handover::item_at))]
    pub fn item(&self, to: u64, number: u64) -> Option<&Payload>
        ensures { option_copied result ≡ payload_of (item_at to number self.now.outbox.items) }
    {
        let item = self
            .items
            .iter()
            .find(|item| item.to == to && item.number == number)?;
        Some(&item.payload)
    }

    /// Part number `part`, from 1, of the item of this receiver
    /// and number; `None` if there is no such item or part.
    pub fn part(&self, to: u64, number: u64, part: u64) -> Result<Option<Part>, AllocError>
        ensures found { IfOk result (λ found. found ≡ part_of_item self.now.outbox.owner to number part (payload_of (item_at to number self.now.outbox.items))) }
        ensures there { OnErr result (is_some (part_of_item self.now.outbox.owner to number part (payload_of (item_at to number self.now.outbox.items))) ≡ true) }
    {
        let Some(payload) = self.item(to, number) else {
            return Ok(None);
        };
        if part == 0 || part > count_parts(payload.pairs()) {
            return Ok(None);
        }
        let ticket = Ticket {
            from: self.owner,
            to,
            number,
        };
        let found = payload.part(ticket, part)?;
        Ok(Some(found))
    }

    /// The number of the next item for this receiver; `None` once all are used up.
    pub fn next_number(&self, to: u64) -> Option<u64>
        ensures some { IfSome result (λ number. (number ≡ next_number_to to self.now.outbox) × (number < 2 ^ 64)) }
        ensures none { IfNone result (2 ^ 64 ≤ next_number_to to self.now.outbox) }
    {
        number_of(&self.given, to).checked_add(1)
    }

    /// Reserves room for one more item, so that the next `give` can't lack it.
    pub fn reserve(&mut self) -> Result<(), AllocError>
        ensures same { self.new.outbox ≡ self.old.outbox }
        ensures room { OnOk result (self.new.has_room ≡ true) }
    {
        self.given.reserve(1)?;
        self.items.reserve(1)?;
        Ok(())
    }

    /// Puts a payload into the outbox and answers its number, from 1 for each receiver.
    pub fn give(&mut self, to: u64, payload: Payload) -> Result<u64, Ungiven>
        ensures answer { GiveIs to payload self.old.outbox result self.new.outbox }
        ensures succeeds { self.old.has_room ≡ true → next_number_to to self.old.outbox < 2 ^ 64 → IsOk result }
    {
        let last = number_of(&self.given, to);
        if last == u64::MAX {
            return Err(Ungiven {
                fault: OutboxGiveFault::NumbersSpent,
                payload,
            });
        }
        if self.given.reserve(1).is_err() || self.items.reserve(1).is_err() {
            return Err(Ungiven {
                fault: OutboxGiveFault::Memory,
                payload,
            });
        }
        let number = last + 1;
        raise_mark(&mut self.given, to, number);
        self.items.push_reserved(Item {
            to,
            number,
            payload,
        });
        Ok(number)
    }

    /// The receiver took the handover: its item leaves the outbox, if it is there.
    pub fn got(&mut self, to: u64, number: u64) -> Option<Payload>
        ensures item { result ≡ payload_of (item_at to number self.old.outbox.items) }
        ensures left { self.new.outbox ≡ with_none to number self.old.outbox }
    {
        let place = place_of(&self.items, to, number)?;
        let item = self.items.remove(place);
        Some(item.payload)
    }

    /// The receiver declined the handover: its item leaves the outbox, if it is there.
    pub fn declined(&mut self, to: u64, number: u64) -> Option<Payload>
        ensures item { result ≡ payload_of (item_at to number self.old.outbox.items) }
        ensures left { self.new.outbox ≡ with_none to number self.old.outbox }
    {
        self.got(to, number)
    }
}

/// The index of the item of this receiver and number.
fn place_of(items: &[Item], to: u64, number: u64) -> Option<usize>
    ensures { result ≡ position (is_item to number) items.now }
{
    items
        .iter()
        .position(|item| item.to == to && item.number == number)
}
