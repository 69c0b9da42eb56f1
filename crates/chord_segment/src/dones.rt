//! Lists of executed calls.
ghost use Rattle.std.specs.Prelude.{◌≡◌, ◌↔◌, IsTrue};
ghost use Rattle.chord_segment.specs.Segment.{dones_inside, stands_twice};

use chord_ident::{Id, Span};
use chord_map::{Done, find_done};

/// Whether the lists are equal.
pub fn same_dones(first: &[Done], second: &[Done]) -> bool
    ensures { IsTrue result ↔ (first.now ≡ second.now) }
{
    first == second
}

/// Whether some call is in both lists.
#[tactic(auto, unfolding(crate::specs::Segment::stands_twice))]
pub fn any_twice(first: &[Done], second: &[Done]) -> bool
    ensures { result ≡ stands_twice first.now second.now }
{
    second.iter().any(|done| find_done(first, done.caller, done.number).is_some())
}

/// Drops the calls whose keys lie outside the span.
pub fn keep_inside(dones: &mut Vec<Done>, span: Span)
    ensures { dones.new.items ≡ dones_inside span dones.old.items }
{
    dones.retain(|done| span.contains(Id::of_bytes(done.request.key())));
}
