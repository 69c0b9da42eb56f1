//! The command of some words.
ghost use Rattle.std.specs.Prelude.{◌≡◌, ◌≤◌, length, IsErrOf};
ghost use Rattle.chord_resp.specs.Table.{Gives, command_of, is_of_sets};

use crate::limits::WORDS;
use crate::reading::word::Word;
use crate::reading::words::Words;
use crate::table::command::Command;
use crate::table::connection_command::connection_command;
use crate::table::denied::Denied;
use crate::table::operands::Operands;
use crate::table::refusal::Refusal;
use crate::table::set_command::set_command;
use crate::table::verb::Verb;
use chord_map::Bytes;
use std::alloc::Global;

impl Verb {
    fn is_of_sets(self) -> bool
        ensures { result ≡ is_of_sets self }
    {
        match self {
            Verb::Sadd
            | Verb::Srem
            | Verb::Smembers
            | Verb::Scard
            | Verb::Sismember
            | Verb::Smismember
            | Verb::Exists
            | Verb::Type => true,
            _ => false,
        }
    }
}

/// What the words of a command call for.
#[tactic(auto, unfolding(crate::specs::Table::command_of))]
pub fn command_of(alloc: Global, words: Words) -> Result<Command, Denied>
    ensures exact { Gives (λ x. x) result (command_of words) }
    // One operand needs no memory.
    ensures memory { IsErrOf result Denied.Memory → 3 ≤ length words }
{
    let mut operands = Operands::new(words);
    let Some(name) = operands.next() else {
        let name = Word::Whole(Bytes::from_vec(Vec::new(alloc)));
        return Err(Denied::Refused(Refusal::UnknownCommand { name }));
    };
    if WORDS as usize <= operands.left() {
        return Err(Denied::Refused(Refusal::TooManyWords));
    }
    let Some(verb) = Verb::of_word(&name) else {
        return Err(Denied::Refused(Refusal::UnknownCommand { name }));
    };
    if !verb.takes(operands.left()) {
        return Err(Denied::Refused(Refusal::WrongNumber(verb)));
    }
    if verb.is_of_sets() {
        set_command(alloc, verb, operands)
    } else {
        Ok(connection_command(verb, operands)?)
    }
}
