//! How a connection goes on behind a command.
ghost use Rattle.std.specs.Prelude.{◌≡◌};
ghost use Rattle.chord_resp_serve.specs.Words.{flow_of, with_flow};

use chord_resp::Command;
use std::alloc::AllocError;

/// How a connection goes on behind a command.
#[derive(Clone, Copy, Debug, PartialEq, Eq)]
pub enum Flow {
    GoesOn,
    /// The client wants it to end.
    Quits,
}

pub(crate) fn flow_of(command: &Command) -> Flow
    ensures { result ≡ flow_of command.now }
{
    match command {
        Command::Quit | Command::Shutdown => Flow::Quits,
        _ => Flow::GoesOn,
    }
}

/// The flow, if there was memory to tell the answer.
pub(crate) fn with_flow(told: Result<(), AllocError>, flow: Flow) -> Result<Flow, AllocError>
    ensures { result ≡ with_flow told flow }
{
    match told {
        Ok(()) => Ok(flow),
        Err(refused) => Err(refused),
    }
}
