//! A table before it has its name.
ghost use Rattle.std.specs.Prelude.{◌≡◌, [], true};

use crate::law::Law;
use crate::naming::Naming;
use crate::registrar::Registrar;
use crate::shared::Shared;
use crate::view::View;
use atomic_table::{Seat, Table};
use std::alloc::Global;
use std::marker::{Model, PhantomData};

/// A table with no actor and no name. Contracts see the name that it will get.
#[derive(Drop)]
pub struct TableParts {
    pub(crate) table: Table<u8, View, (), Law, Global>,
    pub(crate) seat: Seat<u8, View>,
    pub(crate) slots: usize,
    pub(crate) callers: usize,
}

impl Model for TableParts {
    ghost use Rattle.std.specs.Prelude.{◌≡◌, ◌<◌, ◌+◌, ◌^◌, [], true};
    ghost use Rattle.chord_table.specs.Views.{Name, known_as};
    ghost use Rattle.chord_table.specs.Seen.{Admitted};

    ghost Value = { Name };

    ghost view = { λ b. record {
      table = b.table.shared.table_id;
      slots = b.slots;
      callers = b.callers;
    } };

    ghost invariant = { λ b. (b.table.shared.table_id.words ≡ b.slots + b.callers)
        × (0 < b.slots + b.callers) × (b.slots + b.callers < 2 ^ 64)
        × (b.seat.table_id ≡ b.table.shared.table_id)
        × (b.seat.me ≡ (Admitted [] [] (known_as [] true []) [], [])) };
}

impl TableParts {
    /// Gives the table its name, without new memory.
    pub fn assemble<J: Naming>(self) -> (Shared<J>, Registrar<J>)
        requires { self ≡ J.name }
        ensures { result.1 ≡ record {
          register = record {
            nodes = [];
            callers = [];
            ids = [];
            premise = true;
            principals = [];
          };
          taken = [];
        } }
    {
        let TableParts {
            table,
            seat,
            slots,
            callers: _,
        } = self;
        let shared = Shared {
            table,
            slots,
            of: PhantomData,
        };
        let registrar = Registrar {
            seat,
            of: PhantomData,
        };
        (shared, registrar)
    }
}
