//! How a node departs.
ghost use Rattle.std.specs.Prelude.{◌≡◌};
ghost use Rattle.chord_live_steps.specs.Departures.{number_of};

/// How the node of a number departs from the ring.
#[derive(Clone, Copy, Debug, PartialEq, Eq)]
pub enum Departure {
    Crash(u64),
    Retire(u64),
}

impl Departure {
    /// The number of the node.
    pub fn number(self) -> u64
        ensures { result ≡ number_of self }
    {
        match self {
            Departure::Crash(number) | Departure::Retire(number) => number,
        }
    }
}
