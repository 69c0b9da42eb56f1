//! What seats show.

use std::marker::Model;

/// What a seat shows. It is for proofs alone: no value of it exists.
pub struct View;

impl Model for View {
    ghost use Rattle.chord_table.specs.Seen as seen;

    ghost Value = { seen.View };

    ghost view = { λ _. seen.Spent };
}
