//! What is known of several callers at once.
ghost use Rattle.std.specs.Prelude.{◌≡◌, ◌++◌, []};
ghost use Rattle.chord_table.specs.Shown.{WitnessShown};

use crate::laws::each_scene_holds;
use crate::moves::{Attend, Gather, Look};
use crate::naming::Naming;
use crate::shared::Shared;
use crate::view::View;
use atomic_table::Seat;
use std::marker::{Model, PhantomData};

/// Callers, each as it was when its witness was taken. Contracts see them in the order joined.
#[derive(Drop)]
pub struct Witness<J: Naming> {
    pub(crate) seat: Seat<u8, View>,
    pub(crate) of: PhantomData<J>,
}

impl<J: Naming> Model for Witness<J> {
    ghost use Rattle.std.specs.Prelude.{◌≡◌, List, []};
    ghost use Rattle.chord_caller.specs.Caller.{Caller};
    ghost use Rattle.chord_table.specs.Seen.{Witnessed};
    ghost use Rattle.chord_table.specs.Views.{callers_of};

    ghost Value = { List Caller };

    ghost view = { λ w. callers_of w.seat.me.0 };

    ghost invariant = { λ w. (w.seat.table_id ≡ J.name.table) × (w.seat.me ≡ (Witnessed (callers_of w.seat.me.0), [])) };
}

impl<J: Naming> Witness<J> {
    /// A witness of no caller.
    pub fn open(table: &Shared<J>) -> Witness<J>
        ensures { result ≡ [] }
    {
        let (_, seat) = table.table.shared.load_new_seat::<Attend>(0);
        Witness {
            seat,
            of: PhantomData,
        }
    }

    /// Appends the other's callers.
    pub fn join(&mut self, table: &Shared<J>, other: Witness<J>)
        ensures { self.new ≡ self.old ++ other }
    {
        let Witness { seat, of: _ } = other;
        table.table.shared.join_seat::<Gather>(&mut self.seat, seat);
    }

    /// Proves of one world that all that these callers took is in one legal history, each call once
    /// and after what its own caller had seen, and that each identifier has one holder.
    pub fn look(&mut self, table: &Shared<J>)
        ensures same { self.new ≡ self.old }
        ensures shown { WitnessShown self.old }
    {
        each_scene_holds();
        table.table.shared.load::<Look>(&mut self.seat, 0);
    }
}
