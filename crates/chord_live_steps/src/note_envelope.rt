//! Notes under way.
ghost use Rattle.std.specs.Prelude.{◌≡◌};
ghost use Rattle.chord_model.specs.declared.message.Message.TheVariants.{Note as NoteMessage};
ghost use Rattle.chord_live_steps.specs.Noted.{note_in};

use chord_table::{Envelope, Naming};
use std::marker::Model;

/// A note of what a caller knew. Only callers of the same ring can meet it. Contracts see the note.
#[derive(Drop)]
pub struct NoteEnvelope<J: Naming> {
    pub(crate) envelope: Envelope<J>,
}

impl<J: Naming> Model for NoteEnvelope<J> {
    ghost use Rattle.std.specs.Prelude.{◌≡◌};
    ghost use Rattle.chord_caller.specs.Caller.{Note};
    ghost use Rattle.chord_model.specs.declared.message.Message.TheVariants.{Note as NoteMessage};
    ghost use Rattle.chord_live_steps.specs.Noted.{note_in};

    ghost Value = { Note };

    ghost view = { λ shown. note_in shown.envelope };

    ghost invariant = { λ shown. shown.envelope ≡ NoteMessage (note_in shown.envelope) };
}
