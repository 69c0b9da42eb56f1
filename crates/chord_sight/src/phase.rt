//! The phases of a node.
ghost use Rattle.std.specs.Prelude.{◌≡◌};
ghost use Rattle.chord_sight.specs.Phases.{phase_word};

/// Where a node is between its join and its end.
#[derive(Clone, Copy, Debug, PartialEq, Eq)]
pub enum Phase {
    Staying,
    /// It gives away what it holds.
    Leaving,
    /// It left, and holds nothing.
    Gone,
    /// It crashed, and takes no further step.
    Crashed,
    /// It crashed, is rescued, and is not gone yet.
    Rescuing,
}

impl Phase {
    /// All phases.
    pub const ALL: [Phase; 5] = [
        Phase::Staying,
        Phase::Leaving,
        Phase::Gone,
        Phase::Crashed,
        Phase::Rescuing,
    ];

    /// Its word in JSON and in metrics.
    pub fn word(self) -> &'static str
        ensures { result.now ≡ phase_word self }
    {
        match self {
            Phase::Staying => "staying",
            Phase::Leaving => "leaving",
            Phase::Gone => "gone",
            Phase::Crashed => "crashed",
            Phase::Rescuing => "rescuing",
        }
    }
}
