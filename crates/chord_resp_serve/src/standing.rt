//! What a connection keeps from one command to the next.
ghost use Rattle.std.specs.Prelude.{◌≡◌, ◌≢◌, Err};
ghost use Rattle.chord_resp.specs.Table.{Gives};
ghost use Rattle.chord_resp_serve.specs.Transactions.{allowed, inside, is_open_after, outside, shuts_down_after, standing_behind};

use chord_resp::{Command, Denied, Refusal};

/// How far a connection is between two commands.
#[derive(Clone, Copy, Debug, PartialEq, Eq)]
pub struct Standing {
    /// How many requests were asked; no more are counted above 2 ^ 64 - 1.
    pub asked: u64,
    /// Whether MULTI came, and not EXEC or DISCARD.
    pub is_in_transaction: bool,
    /// Whether SHUTDOWN came: the server is to stop.
    pub shuts_down: bool,
}

/// Whether a transaction is under way behind what a client called for.
fn is_open_after(before: bool, called: &Result<Command, Refusal>) -> bool
    ensures { result ≡ is_open_after before called.now }
{
    match called {
        Ok(Command::Multi) => true,
        Ok(Command::Exec | Command::Discard | Command::Reset) => false,
        _ => before,
    }
}

/// Whether the server is to stop behind what a client called for.
fn shuts_down_after(is_open: bool, called: &Result<Command, Refusal>) -> bool
    ensures { result ≡ shuts_down_after is_open called.now }
{
    !is_open && matches!(called, Ok(Command::Shutdown))
}

/// What is done in a transaction: nothing that asks.
fn inside(command: Command) -> Result<Command, Refusal>
    ensures { result ≡ inside command }
{
    match command {
        Command::Discard => Ok(Command::Discard),
        Command::Hello => Ok(Command::Hello),
        Command::Auth => Ok(Command::Auth),
        Command::Quit => Ok(Command::Quit),
        Command::Reset => Ok(Command::Reset),
        Command::Exec => Err(Refusal::Aborted),
        _ => Err(Refusal::NoTransactions),
    }
}

/// What is done outside.
fn outside(command: Command) -> Result<Command, Refusal>
    ensures { result ≡ outside command }
{
    match command {
        Command::Multi => Err(Refusal::NoTransactions),
        Command::Exec => Err(Refusal::NothingToExecute),
        Command::Discard => Err(Refusal::NothingToDiscard),
        command => Ok(command),
    }
}

/// What is done, in a transaction or outside.
fn allowed(is_open: bool, called: Result<Command, Refusal>) -> Result<Command, Refusal>
    ensures { result ≡ allowed is_open called }
{
    match called {
        Ok(command) if is_open => inside(command),
        Ok(command) => outside(command),
        Err(_) if is_open => Err(Refusal::NoTransactions),
        Err(refusal) => Err(refusal),
    }
}

impl Standing {
    /// Goes on behind what a client called for. Gives the command that is done, or why none is.
    pub fn pass(&mut self, called: Result<Command, Refusal>) -> Result<Command, Denied>
        ensures exact { Gives (λ x. x) result (allowed self.old.is_in_transaction called) }
        ensures behind { self.new ≡ standing_behind self.old called }
        ensures memory { result ≢ Err Denied.Memory }
    {
        let is_open = self.is_in_transaction;
        self.shuts_down = shuts_down_after(is_open, &called);
        self.is_in_transaction = is_open_after(is_open, &called);
        match allowed(is_open, called) {
            Ok(command) => Ok(command),
            Err(refusal) => Err(Denied::Refused(refusal)),
        }
    }
}
