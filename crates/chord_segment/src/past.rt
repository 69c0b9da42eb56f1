//! What a segment knows of a call.

use chord_map::Done;

/// What a segment knows of a call: it is new, kept
/// with its reply, or at or below its caller's floor.
#[derive(Clone, Copy, Debug)]
pub enum Past<'a> {
    New,
    Kept(&'a Done),
    Seen,
}
