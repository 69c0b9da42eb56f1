//! Each growth is refused in turn: a call answers Memory, what is read or written stays unchanged
//! or is written in whole frames and answers, and the call tried again is answered. `follow` does
//! again what was refused memory; with ample memory nothing is refused.

use crate::redis::connections::talking::Talking;
use crate::redis::words::spelling::Spelling;
use crate::redis::{connections, words};
use crate::tests::flying::Flight;
use crate::tests::serving::Serving;
use crate::tests::{in_flight, sessions};
use crate::wire;
use crate::wire::framing::Framing;
use chord_testkit::follow;
use std::test::Fail;

#[test]
fn frames_are_read_and_written(rt: HostRuntime) -> Result<(), Fail> {
    follow::<Framing>(rt.alloc(), wire::READ)?;
    follow::<Framing>(rt.alloc(), wire::WRITTEN)
}

#[test]
fn sessions_write_whole_frames_and_calls_are_answered(rt: HostRuntime) -> Result<(), Fail> {
    follow::<Serving>(rt.alloc(), sessions::SERVED)?;
    follow::<Serving>(rt.alloc(), sessions::CALLS)
}

#[test]
fn a_send_made_again_has_the_same_number(rt: HostRuntime) -> Result<(), Fail> {
    follow::<Flight>(rt.alloc(), in_flight::SENT)
}

#[test]
fn a_refused_read_is_read_again_and_an_answer_added_whole(rt: HostRuntime) -> Result<(), Fail> {
    follow::<Spelling>(rt.alloc(), words::GROWING)?;
    follow::<Spelling>(rt.alloc(), words::ANSWERED)
}

#[test]
fn a_connection_writes_whole_answers(rt: HostRuntime) -> Result<(), Fail> {
    follow::<Talking>(rt.alloc(), connections::GROWING)
}
