//! What a command is told whose requests were asked.
ghost use Rattle.std.specs.Prelude.{◌≡◌, length};
ghost use Rattle.chord_resp_serve.specs.Asking.{requests_of, outcome_of};
ghost use Rattle.chord_resp_serve.specs.Answering.{Tells};

use crate::about::About;
use crate::answer::put_answer;
use crate::tally::{Stopped, Tally};
use chord_resp::{Command, put_refusal};
use std::alloc::{AllocError, Global};

/// Adds the answer to a command that asked `requests` requests, or its error.
pub(crate) fn tell(
    alloc: Global,
    out: &mut Vec<u8>,
    about: About<'_>,
    command: &Command,
    requests: usize,
    tally: &Tally,
    outcome: Result<(), Stopped>,
) -> Result<(), AllocError>
    requires { requests ≡ length (requests_of command.now) }
    ensures { Tells about.entry command.now (outcome_of outcome tally.now) result out.old.items out.new.items }
{
    match outcome {
        Ok(()) => put_answer(alloc, out, about, command, tally),
        Err(stopped) => match stopped.refusal(requests as u64) {
            Some(refusal) => put_refusal(alloc, out, &refusal),
            None => Err(AllocError),
        },
    }
}
