//! Each growth is refused in turn: the call answers Memory, and the caller stays unchanged:
//! `follow` does again what was refused memory. With ample memory nothing is refused.

use super::calling::Calling;
use super::{CALLERS, SCRIPTS};
use chord_testkit::follow;
use std::test::Fail;

#[test]
fn a_refused_growth_leaves_the_caller(rt: HostRuntime) -> Result<(), Fail> {
    follow::<Calling<false>>(rt.alloc(), SCRIPTS)?;
    follow::<Calling<false>>(rt.alloc(), CALLERS)
}

#[test]
fn a_refused_growth_leaves_the_client(rt: HostRuntime) -> Result<(), Fail> {
    follow::<Calling<true>>(rt.alloc(), SCRIPTS)
}
