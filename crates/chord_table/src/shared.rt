//! The table that all threads share.
ghost use Rattle.std.specs.Prelude.{◌≡◌, ◌<◌, ◌+◌, ◌^◌};

use crate::law::Law;
use crate::naming::Naming;
use crate::view::View;
use atomic_table::Table;
use std::alloc::Global;
use std::marker::PhantomData;

/// The table of one ring: a word for each node, and after them one for each caller.
#[derive(Drop)]
pub struct Shared<J: Naming> {
    pub(crate) table: Table<u8, View, (), Law, Global>,
    pub(crate) slots: usize,
    pub(crate) of: PhantomData<J>,
    ghost named: { table.shared.table_id ≡ J.name.table },
    ghost has_slots: { slots ≡ J.name.slots },
    ghost counted: { J.name.table.words ≡ J.name.slots + J.name.callers },
    ghost some: { 0 < J.name.table.words },
    ghost few: { J.name.table.words < 2 ^ 64 },
}
