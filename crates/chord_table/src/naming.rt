//! The names of tables.

use std::marker::Brand;

/// Which table it is, and how many nodes and callers it has room for. The user of a table picks it
/// at a call with `Brand`.
pub trait Naming {
    ghost use Rattle.chord_table.specs.Views.{Name};

    ghost name: { Name };
}

impl Naming for Brand {
    ghost use Rattle.chord_table.specs.Views.{no_name};

    ghost name = { no_name };
}
