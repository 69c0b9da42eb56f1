//! A refused growth leaves everything unchanged, and a second try succeeds: `follow` does again
//! what was refused memory. With ample memory nothing is refused; the tests are also run with each
//! growth refused in turn.

use super::giving::Giving;
use super::taking::Taking;
use super::{outbox, taken};
use chord_testkit::follow;
use std::test::Fail;

#[test]
fn a_refused_part_is_not_taken_or_buffered(rt: HostRuntime) -> Result<(), Fail> {
    follow::<Taking>(rt.alloc(), taken::SCRIPTS)
}

#[test]
fn a_refused_give_hands_the_payload_back(rt: HostRuntime) -> Result<(), Fail> {
    follow::<Giving>(rt.alloc(), outbox::SCRIPTS)
}
