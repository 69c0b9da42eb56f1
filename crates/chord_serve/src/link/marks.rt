//! How far the changes are that an answer may show.
ghost use Rattle.std.specs.Prelude.{◌≡◌, ℕ};

/// Counts changes as they are made, so that an answer may wait until those before it are written.
pub trait Marks {
    /// A look at them may find this mark.
    ghost tells: { Self → ℕ → Type 0 };

    /// Up to where there are changes now. It never falls, and whatever change an answer shows that
    /// was taken before the call is below it.
    fn mark(&self) -> u64
        ensures { tells self.now result };
}

/// No change is written: answers wait for none.
#[derive(Clone, Copy, Debug, PartialEq, Eq)]
pub struct NoMarks;

impl Marks for NoMarks {
    ghost tells = { λ _ mark. mark ≡ 0 };

    fn mark(&self) -> u64 {
        0
    }
}
