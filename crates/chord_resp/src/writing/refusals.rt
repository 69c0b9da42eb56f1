//! The texts of errors.
ghost use Rattle.std.specs.Prelude.{◌≡◌, ◌++◌, map, take, IfOk};
ghost use Rattle.chord_resp.specs.Answers.{Joins, error};
ghost use Rattle.chord_resp.specs.Refusals.{shown_byte, shown, fixed_text, help_of, detail, protocol_text, progress_text, refusal_text};

use crate::reading::protocol_error::ProtocolError;
use crate::reading::word::Word;
use crate::table::refusal::{Progress, Refusal};
use crate::table::verb::Verb;
use crate::writing::lines::put_error;
use itoa::Buffer;
use std::alloc::{AllocError, Global};

/// The most bytes of a name that are shown.
const SHOWN_BYTES: usize = 128;

fn shown_byte(byte: u8) -> u8
    ensures { result ≡ shown_byte byte }
{
    if byte < b' ' || b'~' < byte {
        b'?'
    } else {
        byte
    }
}

/// The bytes up to the most that are shown.
fn front(bytes: &[u8]) -> &[u8]
    ensures { result.now ≡ take 128 bytes.now }
{
    if bytes.len() <= SHOWN_BYTES {
        return bytes;
    }
    &bytes[..SHOWN_BYTES]
}

fn shown_bytes(alloc: Global, bytes: &[u8]) -> Result<Vec<u8>, AllocError>
    ensures { IfOk result (λ text. text.items ≡ map shown_byte bytes.now) }
{
    bytes.iter().map(|byte| shown_byte(*byte)).collect(alloc)
}

fn shown(alloc: Global, word: &Word) -> Result<Vec<u8>, AllocError>
    ensures { IfOk result (λ text. text.items ≡ shown word.now) }
{
    match word {
        Word::Long(_) => Ok(Vec::new(alloc)),
        Word::Whole(bytes) => shown_bytes(alloc, front(bytes.as_slice())),
    }
}

/// The three texts, one behind the other.
fn joined(alloc: Global, a: &[u8], b: &[u8], c: &[u8]) -> Result<Vec<u8>, AllocError>
    ensures { IfOk result (λ text. text.items ≡ a.now ++ (b.now ++ c.now)) }
{
    let mut text = Vec::from_slice(alloc, a)?;
    text.extend_from_slice(b)?;
    text.extend_from_slice(c)?;
    Ok(text)
}

#[tactic(auto, unfolding(crate::specs::Refusals::protocol_text))]
fn protocol_text(alloc: Global, fault: ProtocolError) -> Result<Vec<u8>, AllocError>
    ensures { IfOk result (λ text. text.items ≡ protocol_text fault) }
{
    match fault {
        ProtocolError::BadCount => Vec::from_slice(alloc, b"invalid multibulk length"),
        ProtocolError::NoDollar(byte) => {
            joined(alloc, b"expected '$', got '", &[shown_byte(byte)], b"'")
        }
        ProtocolError::BadLength => Vec::from_slice(alloc, b"invalid bulk length"),
        ProtocolError::TooLong => Vec::from_slice(alloc, b"too big inline request"),
        ProtocolError::Unbalanced => Vec::from_slice(alloc, b"unbalanced quotes in request"),
        ProtocolError::Foreign => Vec::from_slice(alloc, b"line of another protocol"),
    }
}

#[tactic(auto, unfolding(crate::specs::Refusals::progress_text))]
fn progress_text(alloc: Global, progress: Progress) -> Result<Vec<u8>, AllocError>
    ensures { IfOk result (λ text. text.items ≡ progress_text progress) }
{
    if progress.of <= 1 {
        return Ok(Vec::new(alloc));
    }
    let mut done = Buffer::new();
    let mut of = Buffer::new();
    let mut text = Vec::from_slice(alloc, b", ")?;
    text.extend_from_slice(done.format(progress.done).as_bytes())?;
    text.extend_from_slice(b" of ")?;
    text.extend_from_slice(of.format(progress.of).as_bytes())?;
    text.extend_from_slice(b" done")?;
    Ok(text)
}

#[tactic(auto, unfolding(crate::specs::Refusals::fixed_text))]
fn fixed_text(refusal: &Refusal) -> &'static [u8]
    ensures { result.now ≡ fixed_text refusal.now }
{
    match refusal {
        Refusal::KeyLength => b"ERR key must have 1 to 255 bytes",
        Refusal::MemberLength => b"ERR member is longer than 4096 bytes",
        Refusal::WordLength => b"ERR word is longer than 4096 bytes",
        Refusal::NoDatabase => b"ERR DB index is out of range",
        Refusal::NoProtocol => b"NOPROTO unsupported protocol version",
        Refusal::Protocol(_) => b"ERR Protocol error: ",
        Refusal::TooManyWords => b"ERR too many arguments, at most 1,022 members",
        Refusal::UnknownCommand { .. } => b"ERR unknown command '",
        Refusal::UnknownSubcommand { .. } => b"ERR unknown subcommand '",
        Refusal::WrongNumber(_) => b"ERR wrong number of arguments for '",
        Refusal::NoTransactions => b"ERR transactions are not served",
        Refusal::Aborted => b"EXECABORT Transaction discarded because of previous errors.",
        Refusal::NothingToExecute => b"ERR EXEC without MULTI",
        Refusal::NothingToDiscard => b"ERR DISCARD without MULTI",
        Refusal::NothingToAbort => b"ERR No shutdown in progress.",
        Refusal::Syntax => b"ERR syntax error",
        Refusal::HelloOption { .. } => b"ERR Syntax error in HELLO option '",
        Refusal::NoPassword =>
            b"ERR AUTH <password> called without any password configured for the default user. Are you sure your configuration is correct?",
        Refusal::WrongPassword => b"WRONGPASS invalid username-password pair or user is disabled.",
        Refusal::NotServed(_) => b"ERR '",
        Refusal::BadName =>
            b"ERR Client names cannot contain spaces, newlines or special characters.",
        Refusal::SetFull(_) => b"ERR set is full: it has 1000 members",
        Refusal::StoreFull(_) => b"OOM the node's store is full",
        Refusal::NoAnswer(_) => b"TRYAGAIN no answer in time, it may have acted",
    }
}

/// What is told behind the second word of a command that is none of its words.
fn help_of(verb: Verb) -> &'static [u8]
    ensures { result.now ≡ help_of verb }
{
    match verb {
        Verb::Client => b"'. Try CLIENT HELP.",
        Verb::Command => b"'. Try COMMAND HELP.",
        _ => b"'. Try CONFIG HELP.",
    }
}

/// What is told behind the front.
fn detail(alloc: Global, refusal: &Refusal) -> Result<Vec<u8>, AllocError>
    ensures { IfOk result (λ text. text.items ≡ detail refusal.now) }
{
    match refusal {
        Refusal::Protocol(fault) => protocol_text(alloc, *fault),
        Refusal::UnknownCommand { name } | Refusal::HelloOption { name } => {
            let mut text = shown(alloc, name)?;
            text.push(b'\'')?;
            Ok(text)
        }
        Refusal::UnknownSubcommand { verb, name } => {
            let mut text = shown(alloc, name)?;
            text.extend_from_slice(help_of(*verb))?;
            Ok(text)
        }
        Refusal::NotServed(verb) => joined(alloc, verb.text(), b"' is not served", b""),
        Refusal::WrongNumber(verb) => joined(alloc, verb.text(), b"' command", b""),
        Refusal::SetFull(progress) => progress_text(alloc, *progress),
        Refusal::StoreFull(progress) => progress_text(alloc, *progress),
        Refusal::NoAnswer(progress) => progress_text(alloc, *progress),
        _ => Ok(Vec::new(alloc)),
    }
}

/// The text of an error, without the mark and the end of its line.
#[tactic(auto, unfolding(crate::specs::Refusals::refusal_text))]
pub fn refusal_text(alloc: Global, refusal: &Refusal) -> Result<Vec<u8>, AllocError>
    ensures { IfOk result (λ text. text.items ≡ refusal_text refusal.now) }
{
    let mut text = Vec::from_slice(alloc, fixed_text(refusal))?;
    text.extend_from_slice(&detail(alloc, refusal)?)?;
    Ok(text)
}

/// Adds the error of a refusal.
pub fn put_refusal(alloc: Global, out: &mut Vec<u8>, refusal: &Refusal) -> Result<(), AllocError>
    ensures { Joins result out.old.items out.new.items (error (refusal_text refusal.now)) }
{
    let text = refusal_text(alloc, refusal)?;
    put_error(out, &text)
}
