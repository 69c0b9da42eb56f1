//! Whether nodes crashed.

/// Whether a node crashed, and whether it was rescued.
#[derive(Clone, Copy, Debug, PartialEq, Eq)]
pub(crate) enum Fate {
    /// It did not crash.
    Well,
    /// It crashed: it takes no step, and is dead for the ring.
    Crashed,
    /// It was rescued: it takes steps again, and stays dead for the ring.
    Rescued,
}
