//! A refused growth adds nothing to a journal, and a second try adds the command once: `follow`
//! does again what was refused memory. With ample memory nothing is refused; the test is also run
//! with each growth refused in turn.

use crate::journaling::Journaling;
use crate::scripts::CHANGES;
use chord_testkit::follow;
use std::test::Fail;

#[test]
fn a_refused_change_adds_nothing(rt: HostRuntime) -> Result<(), Fail> {
    follow::<Journaling>(rt.alloc(), CHANGES)
}
