//! The whole command, over loopback.

use super::loopback::Command;
use crate::checks::check;
use chord_app_operator::Rows;
use chord_app_ring::RingCommand;
use chord_app_text::{Fault, Finish};

/// What the server answers for a look at its ring.
const TABLE: &[u8] =
    b"HTTP/1.1 200 OK\r\ncontent-type: text/plain\r\ncontent-length: 10\r\n\r\nup 0 s, ..";

/// How it is shown.
const SHOWN: &str = "up 0 s, ..";

const REFUSED: &[u8] =
    b"HTTP/1.1 409 Conflict\r\ncontent-type: text/plain\r\ncontent-length: 19\r\n\r\nrefused NotStaying\n";

#[test]
fn the_ring_is_shown_again(rt: HostRuntime) -> Result<(), std::alloc::AllocError> {
    let twice = format!(in rt.alloc(); "{SHOWN}{SHOWN}")?;
    let command = Command::Ask(RingCommand::Show(Rows::Present), 2);
    let look: &[u8] = b"GET /ring HTTP/1.1\r\n";
    let talks = [(look, TABLE), (look, TABLE)];
    let ran = command.run_at(&rt, rt.alloc(), &talks, (&twice, ""));
    drop(twice);
    check!(&rt; ran == Some((Ok(Finish::Done), true, true)));
    Ok(())
}

/// Answers to the leave of node 3, what is written and told then, and how the command ends.
const ENDS: &[(&[u8], (&str, &str), Result<Finish, Finish>)] = &[
    (
        b"HTTP/1.1 202 Accepted\r\ncontent-type: text/plain\r\ncontent-length: 23\r\n\r\nnode 3 begins to leave\n",
        ("node 3 begins to leave\n", ""),
        Ok(Finish::Done),
    ),
    (REFUSED, ("", "refused NotStaying\n"), Err(Finish::Refused)),
    (b"", ("", ""), Err(Finish::Fault(Fault::Lost))),
    (b"220 mail\r\n", ("", ""), Err(Finish::Fault(Fault::Answer))),
];

#[test]
fn ends_of_the_command(rt: HostRuntime) {
    let leave = Command::Ask(RingCommand::Leave(3), 1);
    let asked: &[u8] = b"POST /nodes/3/leave HTTP/1.1\r\n";
    for (answer, lines, finish) in ENDS {
        let ran = leave.run_at(&rt, rt.alloc(), &[(asked, *answer)], *lines);
        check!(&rt; ran == Some((*finish, true, true)));
    }
}

#[test]
fn nobody_listens(rt: HostRuntime) {
    let is_told = Command::Ask(RingCommand::Show(Rows::Present), 3).finds_nobody(&rt, rt.alloc());
    check!(&rt; is_told == Some(true), "nobody listens");
}
