//! What a round of upkeep found to do.
ghost use Rattle.std.specs.Prelude.{◌≡◌, ◌↔◌};
ghost use Rattle.chord_live_ring.specs.declared.round.Round.TheVariants.{Quiet};

/// What a round of upkeep of a node found to do.
#[derive(Clone, Copy, Debug, PartialEq, Eq)]
pub enum Round {
    /// Nothing changed at the node, and it hands nothing over to a node that can still take it.
    Quiet,
    /// Its links changed, segments of it were cut or joined, or it hands one over.
    Busy,
}

impl Round {
    /// Two rounds are quiet together if both are.
    pub fn with(self, other: Round) -> Round
        ensures { (result ≡ Quiet) ↔ ((self ≡ Quiet) × (other ≡ Quiet)) }
    {
        match self {
            Round::Quiet => other,
            Round::Busy => Round::Busy,
        }
    }
}
