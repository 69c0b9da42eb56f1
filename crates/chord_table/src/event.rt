//! The event that a step of the table records.

use std::marker::Brand;

/// The actor after an event, and the message that it sends. The proof picks them at each call with
/// `Brand`.
pub trait Event {
    ghost use Rattle.chord_model.specs.declared.message.Message.{Message};
    ghost use Rattle.chord_table.specs.Seen.{Actor};

    ghost actor: { Actor };

    ghost message: { Message };
}

impl Event for Brand {
    ghost use Rattle.std.specs.Prelude.{false};
    ghost use Rattle.chord_table.specs.Seen.{OfNode};
    ghost use Rattle.chord_table.specs.Views.{no_message, no_node};

    ghost actor = { OfNode no_node false };

    ghost message = { no_message };
}

/// The number of the node that a step of the table is about. The proof picks it at each call with
/// `Brand`.
pub trait Numbered {
    ghost use Rattle.std.specs.Prelude.{ℕ};

    ghost number: { ℕ };
}

impl Numbered for Brand {
    ghost number = { 0 };
}
