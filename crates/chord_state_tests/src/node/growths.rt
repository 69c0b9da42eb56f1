//! A refused growth leaves the node unchanged, and a second try succeeds: `follow` does again what
//! was refused memory. With ample memory nothing is refused; the tests are also run with each
//! growth refused in turn.

use super::acting::Acting;
use super::asks::{PAGES, SCRIPTS};
use super::handovers;
use chord_testkit::follow;
use std::test::Fail;

#[test]
fn a_refused_call_is_answered_when_it_comes_again(rt: HostRuntime) -> Result<(), Fail> {
    follow::<Acting<true>>(rt.alloc(), SCRIPTS)?;
    follow::<Acting<true>>(rt.alloc(), PAGES)?;
    follow::<Acting<false>>(rt.alloc(), SCRIPTS)
}

#[test]
fn a_refused_handover_changes_nothing(rt: HostRuntime) -> Result<(), Fail> {
    follow::<Acting<true>>(rt.alloc(), handovers::SCRIPTS)
}
