//! The commands that ask the ring nothing.
ghost use Rattle.std.specs.Prelude.{◌≡◌};
ghost use Rattle.chord_resp.specs.Table.{counted, ping_of, select_of, client_of, command_command, config_of, shutdown_of, connection_command};

use crate::reading::word::Word;
use crate::table::command::Command;
use crate::table::hello::{auth_of, hello_of, named};
use crate::table::operand::Operand;
use crate::table::operands::Operands;
use crate::table::refusal::Refusal;
use crate::table::verb::{Verb, is_text};

/// The command, if it has the right number of words.
fn counted(fits: bool, verb: Verb, command: Command) -> Result<Command, Refusal>
    ensures { result ≡ counted fits verb command }
{
    if fits {
        Ok(command)
    } else {
        Err(Refusal::WrongNumber(verb))
    }
}

fn ping_of(mut operands: Operands) -> Result<Command, Refusal>
    ensures { result ≡ ping_of operands }
{
    match operands.next() {
        None => Ok(Command::Ping),
        Some(word) => {
            let word = Operand::Text.bytes_of(word)?;
            Ok(Command::Echo { word })
        }
    }
}

fn select_of(mut operands: Operands) -> Result<Command, Refusal>
    ensures { result ≡ select_of operands }
{
    match operands.next() {
        None => Err(Refusal::NoDatabase),
        Some(word) => {
            if is_text(&word, b"0") {
                Ok(Command::Accept)
            } else {
                Err(Refusal::NoDatabase)
            }
        }
    }
}

#[tactic(auto, unfolding(crate::specs::Table::client_of))]
fn client_of(mut operands: Operands) -> Result<Command, Refusal>
    ensures { result ≡ client_of operands }
{
    let Some(word) = operands.next() else {
        return Err(Refusal::WrongNumber(Verb::Client));
    };
    let left = operands.left();
    if is_text(&word, b"setname") {
        named(operands)
    } else if is_text(&word, b"no-evict") || is_text(&word, b"no-touch") {
        counted(left == 1, Verb::Client, Command::Accept)
    } else if is_text(&word, b"setinfo") {
        counted(left == 2, Verb::Client, Command::Accept)
    } else if is_text(&word, b"getname") {
        counted(left == 0, Verb::Client, Command::Name)
    } else if is_text(&word, b"id") {
        counted(left == 0, Verb::Client, Command::Number)
    } else {
        Err(Refusal::UnknownSubcommand {
            verb: Verb::Client,
            name: word,
        })
    }
}

#[tactic(auto, unfolding(crate::specs::Table::command_command))]
fn command_command(mut operands: Operands) -> Result<Command, Refusal>
    ensures { result ≡ command_command operands }
{
    let Some(word) = operands.next() else {
        return Ok(Command::Nothing);
    };
    if is_text(&word, b"docs") || is_text(&word, b"info") {
        Ok(Command::Nothing)
    } else if is_text(&word, b"count") {
        counted(operands.left() == 0, Verb::Command, Command::Commands)
    } else {
        Err(Refusal::UnknownSubcommand {
            verb: Verb::Command,
            name: word,
        })
    }
}

#[tactic(auto, unfolding(crate::specs::Table::config_of))]
fn config_of(mut operands: Operands) -> Result<Command, Refusal>
    ensures { result ≡ config_of operands }
{
    let Some(word) = operands.next() else {
        return Err(Refusal::WrongNumber(Verb::Config));
    };
    if is_text(&word, b"get") {
        counted(operands.left() == 1, Verb::Config, Command::Nothing)
    } else {
        Err(Refusal::UnknownSubcommand {
            verb: Verb::Config,
            name: word,
        })
    }
}

/// SHUTDOWN and how: nothing is written anywhere, so each way is the same.
#[tactic(auto, unfolding(crate::specs::Table::shutdown_of))]
fn shutdown_of(mut operands: Operands) -> Result<Command, Refusal>
    ensures { result ≡ shutdown_of operands }
{
    while let Some(word) = operands.next() {
        if is_text(&word, b"abort") {
            return Err(Refusal::NothingToAbort);
        }
        let is_way = is_text(&word, b"nosave")
            || is_text(&word, b"save")
            || is_text(&word, b"now")
            || is_text(&word, b"force");
        if !is_way {
            return Err(Refusal::Syntax);
        }
    }
    Ok(Command::Shutdown)
}

/// What another verb calls for.
pub fn connection_command(verb: Verb, operands: Operands) -> Result<Command, Refusal>
    ensures { result ≡ connection_command verb operands }
{
    match verb {
        Verb::Ping | Verb::Echo => ping_of(operands),
        Verb::Select => select_of(operands),
        Verb::Hello => hello_of(operands),
        Verb::Client => client_of(operands),
        Verb::Command => command_command(operands),
        Verb::Config => config_of(operands),
        Verb::Info => Ok(Command::Info),
        Verb::Reset => Ok(Command::Reset),
        Verb::Multi => Ok(Command::Multi),
        Verb::Exec => Ok(Command::Exec),
        Verb::Discard => Ok(Command::Discard),
        Verb::Watch => Err(Refusal::NoTransactions),
        Verb::Unwatch => Ok(Command::Accept),
        Verb::Shutdown => shutdown_of(operands),
        Verb::Auth => auth_of(operands),
        Verb::Time => Ok(Command::Time),
        Verb::Flushall | Verb::Expire | Verb::Move | Verb::Spop | Verb::Smove | Verb::Memory => Err(
            Refusal::NotServed(verb),
        ),
        _ => Ok(Command::Quit),
    }
}
