//! What tests that are text share. A test is a text of scripts: what is done, a line each, and what
//! must come of it. [`follow`] does each script with a [`Subject`], which reads the words of a line
//! and tells what came; it fails if something else came than is due.
//!
//!     == numbers are taken in order
//!     # the first handover is the next at first
//!     judge 0#1 > Next
//!     mark 0 > Marked; taken 1 0 0
//!
//! A script begins with its title. Before ` > ` is the deed, behind it what is due. Behind `; ` is
//! what the subject shows then, if it shows something else than before the line. A line with `#`
//! says the rule of those below it.
#![tactic(auto)]

mod following;
mod holdings;
mod subject;
mod sum;
mod texts;
mod words;

pub use following::{follow, follow_on};
pub use holdings::{DoneText, DonesText, PairText, PartText, RequestText, SegmentText, SpanText};
pub use subject::{Fresh, MEMORY, Subject, Text, name_of, yes_or_no};
pub use sum::sum_of;
pub use texts::{AnsweredText, CallText, IdText};
pub use words::{ident, number_after, peer, span, ticket, two_numbers};
