//! What scripts are done with.

use chord_app_text::{LineFault, Words};
use std::alloc::Global;
use std::fmt::{Debug, InlineText};

/// The answer to a line. It takes no memory, so that only the subject can lack it. What is longer
/// than 256 bytes is cut, and ends in dots.
pub type Text = InlineText<256>;

/// The answer to a line if the subject was refused memory.
pub const MEMORY: &str = "Memory";

/// What the `Debug` of a value prints: of a plain enum, its name.
pub fn name_of<D: Debug>(value: &D) -> Text {
    Text::of(format_args!("{value:?}"))
}

/// `Yes`, or `No`.
pub fn yes_or_no(is_so: bool) -> Text {
    Text::of(if is_so { "Yes" } else { "No" })
}

/// What the lines of a script are done with: a value, with what a test needs beside it.
pub trait Subject: Drop {
    /// Does what the words of a line say, and tells what came of it. The fault is that of a line
    /// that can't be read, or for which there is no memory; nothing is done then.
    fn act(&mut self, words: &mut Words) -> Result<Text, LineFault>;

    /// What it shows between the lines.
    fn show(&self) -> Text;

    /// A checksum of all that may not change if memory is refused (`sum_of`), beside what it shows.
    fn sum(&self) -> u64 {
        0
    }
}

/// A subject that each script begins anew.
pub trait Fresh: Subject {
    /// The one that a script begins with.
    fn fresh(alloc: Global) -> Self;
}
