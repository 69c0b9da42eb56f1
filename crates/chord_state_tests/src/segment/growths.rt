//! A refused growth leaves everything unchanged, and what was to be kept, cut or joined comes back:
//! `follow` does again what was refused memory. With ample memory nothing is refused; the tests are
//! also run with each growth refused in turn.

use super::SCRIPTS;
use super::holding::Holding;
use chord_testkit::follow;
use std::test::Fail;

#[test]
fn what_is_refused_memory_changes_no_segment(rt: HostRuntime) -> Result<(), Fail> {
    follow::<Holding>(rt.alloc(), SCRIPTS)
}
