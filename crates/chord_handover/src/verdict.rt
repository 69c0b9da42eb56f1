//! Whether a handover's number is the next one.

/// Whether a number is the next one of its sender, was taken before, or comes too early.
#[derive(Clone, Copy, Debug, PartialEq, Eq)]
pub enum Verdict {
    Next,
    Again,
    Early,
}
