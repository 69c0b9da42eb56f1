//! What the command asks for.
ghost use Rattle.std.specs.Prelude.{◌≡◌};
ghost use Rattle.chord_app_ring.specs.Asked.{method_of};

use chord_app_operator::{CrashRequest, JoinRequest, Rows};

/// What an operator asks a server for.
#[derive(Clone, Copy, Debug, PartialEq, Eq)]
pub enum RingCommand {
    /// A look at the ring, with these nodes.
    Show(Rows),
    Join(JoinRequest),
    /// The node with this number is to leave.
    Leave(u64),
    Crash(CrashRequest),
    /// The node with this number, which crashed, is to be rescued.
    Rescue(u64),
    /// The server is to end.
    Stop,
}

impl RingCommand {
    /// The method of its request.
    pub fn method(&self) -> &'static str
        ensures { result.now ≡ method_of self.now }
    {
        match self {
            RingCommand::Show(_) => "GET",
            _ => "POST",
        }
    }
}

/// What is asked for, and how often.
#[derive(Clone, Copy, Debug, PartialEq, Eq)]
pub struct RingLine {
    /// The operator's port of the server, on 127.0.0.1.
    pub port: u16,
    pub command: RingCommand,
    /// How many times the ring is shown, a second apart.
    pub times: u64,
}

/// What the command line says.
#[derive(Clone, Copy, Debug, PartialEq, Eq)]
pub enum RingTask {
    Ask(RingLine),
    /// All pairs of the server with this operator's port are written.
    Dump(u16),
    /// A copy is asked of the server with this port for clients.
    Restore(u16),
}
