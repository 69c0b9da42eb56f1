//! How fast rounds of upkeep follow each other.
ghost use Rattle.std.specs.Prelude.{◌≡◌, ◌+◌, ◌<◌, ◌^◌};
ghost use Rattle.chord_app_serve.specs.Pace.{rest_after};
ghost use Rattle.chord_live_ring.specs.declared.round.Round.TheVariants.{Busy, Quiet};

use chord_live_ring::Round;

/// How many quiet rounds there were in a row.
#[derive(Clone, Copy, Debug, PartialEq, Eq)]
pub struct Pace {
    quiet: u64,
}

impl Pace {
    /// The pace of a ring in which something happened just now.
    pub fn new() -> Pace
        ensures { result.quiet ≡ 0 }
    {
        Pace { quiet: 0 }
    }

    /// The pace after one more round.
    pub fn after(self, round: Round) -> Pace
        ensures busy { round ≡ Busy → result.quiet ≡ 0 }
        ensures quiet { round ≡ Quiet → self.quiet + 1 < 2 ^ 64 → result.quiet ≡ self.quiet + 1 }
    {
        match round {
            Round::Busy => Pace { quiet: 0 },
            Round::Quiet => Pace {
                quiet: self.quiet.saturating_add(1),
            },
        }
    }

    /// For how many milliseconds to rest before the next round.
    pub fn rest(self) -> u64
        ensures { result ≡ rest_after self.quiet }
    {
        if self.quiet < 1_000 {
            1
        } else if self.quiet < 1_007 {
            1 << (self.quiet - 999)
        } else {
            250
        }
    }
}
