//! HELLO and its options, AUTH, and the names of connections.
ghost use Rattle.std.specs.Prelude.{◌≡◌, ◌∷◌, ◌≤◌, length};
ghost use Rattle.chord_resp.specs.Table.{AnOption, MeetsOption, auth_of, hello_from, hello_of, has_odd, is_name, is_odd, is_user, named};

use crate::reading::word::Word;
use crate::table::command::Command;
use crate::table::operands::Operands;
use crate::table::refusal::Refusal;
use crate::table::verb::{Verb, is_text};

/// Whether this is the one user there is.
fn is_user(word: &Word) -> bool
    ensures { result ≡ is_user word.now }
{
    match word {
        Word::Whole(bytes) => bytes.as_slice() == b"default".as_slice(),
        Word::Long(_) => false,
    }
}

/// Whether this is a space or cannot be printed.
fn is_odd(byte: u8) -> bool
    ensures { result ≡ is_odd byte }
{
    byte < b'!' || b'~' < byte
}

fn has_odd(bytes: &[u8]) -> bool
    ensures { result ≡ has_odd bytes.now }
{
    let mut rest = bytes;
    while let [byte, more @ ..] = rest {
        if is_odd(*byte) {
            return true;
        }
        rest = more;
    }
    false
}

/// Whether a connection may have this name.
fn is_name(word: &Word) -> bool
    ensures { result ≡ is_name word.now }
{
    match word {
        Word::Whole(bytes) => !has_odd(bytes.as_slice()),
        Word::Long(_) => true,
    }
}

/// Takes the words of an option.
#[tactic(auto, unfolding(crate::specs::Table::hello_from))]
fn meet_option(option: Word, operands: &mut Operands) -> Result<(), Refusal>
    ensures met { MeetsOption (hello_from AnOption (option ∷ operands.old)) result operands.new }
    ensures fewer { length operands.new ≤ length operands.old }
{
    if is_text(&option, b"auth") {
        let Some(user) = operands.next() else {
            return Err(Refusal::HelloOption { name: option });
        };
        let Some(_password) = operands.next() else {
            return Err(Refusal::HelloOption { name: option });
        };
        if is_user(&user) {
            Ok(())
        } else {
            Err(Refusal::WrongPassword)
        }
    } else if is_text(&option, b"setname") {
        let Some(name) = operands.next() else {
            return Err(Refusal::HelloOption { name: option });
        };
        if is_name(&name) {
            Ok(())
        } else {
            Err(Refusal::BadName)
        }
    } else {
        Err(Refusal::HelloOption { name: option })
    }
}

/// HELLO 2 with these options.
#[tactic(auto, unfolding(crate::specs::Table::hello_from))]
fn hello_with(mut operands: Operands) -> Result<Command, Refusal>
    ensures { result ≡ hello_from AnOption operands }
{
    while let Some(option) = operands.next() {
        meet_option(option, &mut operands)?;
    }
    Ok(Command::Hello)
}

pub fn hello_of(mut operands: Operands) -> Result<Command, Refusal>
    ensures { result ≡ hello_of operands }
{
    match operands.next() {
        None => Ok(Command::Hello),
        Some(word) => {
            if is_text(&word, b"2") {
                hello_with(operands)
            } else {
                Err(Refusal::NoProtocol)
            }
        }
    }
}

pub fn auth_of(mut operands: Operands) -> Result<Command, Refusal>
    ensures { result ≡ auth_of operands }
{
    let Some(user) = operands.next() else {
        return Err(Refusal::WrongNumber(Verb::Auth));
    };
    let Some(_password) = operands.next() else {
        return Err(Refusal::NoPassword);
    };
    match operands.next() {
        Some(_) => Err(Refusal::Syntax),
        None if is_user(&user) => Ok(Command::Auth),
        None => Err(Refusal::WrongPassword),
    }
}

/// CLIENT SETNAME with these words.
pub fn named(mut operands: Operands) -> Result<Command, Refusal>
    ensures { result ≡ named operands }
{
    let Some(name) = operands.next() else {
        return Err(Refusal::WrongNumber(Verb::Client));
    };
    match operands.next() {
        Some(_) => Err(Refusal::WrongNumber(Verb::Client)),
        None if is_name(&name) => Ok(Command::Accept),
        None => Err(Refusal::BadName),
    }
}
