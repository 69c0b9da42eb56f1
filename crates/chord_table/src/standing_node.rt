//! Nodes that were principals.
ghost use Rattle.std.specs.Prelude.{◌≡◌};

use crate::moves::Again;
use crate::naming::Naming;
use crate::shared::Shared;
use crate::view::View;
use atomic_table::Seat;
use std::marker::{Model, PhantomData};

/// A node that was a principal of the ring: from then on it is one for as long as it is a member
/// and no node crashes by force. Contracts see its number.
#[derive(Drop)]
pub struct StandingNode<J: Naming> {
    pub(crate) seat: Seat<u8, View>,
    pub(crate) of: PhantomData<J>,
}

impl<J: Naming> Model for StandingNode<J> {
    ghost use Rattle.std.specs.Prelude.{◌≡◌, ℕ, []};
    ghost use Rattle.chord_table.specs.Seen.{Standing};
    ghost use Rattle.chord_table.specs.Views.{standing_of};

    ghost Value = { ℕ };

    ghost view = { λ s. standing_of s.seat.me.0 };

    ghost invariant = { λ s. (s.seat.table_id ≡ J.name.table)
        × (s.seat.me ≡ (Standing (standing_of s.seat.me.0), [])) };
}

impl<J: Naming> StandingNode<J> {
    /// One more that says the same.
    pub fn again(&mut self, table: &Shared<J>) -> StandingNode<J>
        ensures same { self.new ≡ self.old }
        ensures number { result ≡ self.old }
    {
        let seat = table.table.shared.split_seat::<Again>(&mut self.seat);
        StandingNode {
            seat,
            of: PhantomData,
        }
    }
}
