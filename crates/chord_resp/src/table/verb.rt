//! The names of commands.
ghost use Rattle.std.specs.Prelude.{◌≡◌, ◌≤◌, length};
ghost use Rattle.std.specs.Str.{str_eq_ignore_ascii_case};
ghost use Rattle.chord_resp.specs.Table.{verb_text, all_verbs, takes, verb_named, verb_of, is_text};

use crate::reading::word::Word;

/// The name of a command.
#[derive(Clone, Copy, Debug, PartialEq, Eq)]
pub enum Verb {
    Sadd,
    Srem,
    Smembers,
    Scard,
    Sismember,
    Smismember,
    Exists,
    Type,
    Ping,
    Echo,
    Select,
    Client,
    Hello,
    Command,
    Config,
    Info,
    Quit,
    Reset,
    Multi,
    Exec,
    Discard,
    Watch,
    Unwatch,
    Shutdown,
    Auth,
    Time,
    Flushall,
    Expire,
    Move,
    Spop,
    Smove,
    Memory,
}

/// All names, those of sets first.
pub const ALL: [Verb; 32] = [
    Verb::Sadd,
    Verb::Srem,
    Verb::Smembers,
    Verb::Scard,
    Verb::Sismember,
    Verb::Smismember,
    Verb::Exists,
    Verb::Type,
    Verb::Ping,
    Verb::Echo,
    Verb::Select,
    Verb::Client,
    Verb::Hello,
    Verb::Command,
    Verb::Config,
    Verb::Info,
    Verb::Quit,
    Verb::Reset,
    Verb::Multi,
    Verb::Exec,
    Verb::Discard,
    Verb::Watch,
    Verb::Unwatch,
    Verb::Shutdown,
    Verb::Auth,
    Verb::Time,
    Verb::Flushall,
    Verb::Expire,
    Verb::Move,
    Verb::Spop,
    Verb::Smove,
    Verb::Memory,
];

/// Whether the bytes are the text, in upper or lower case.
#[tactic(auto, using(crate::proofs::Texts::same_test))]
pub fn is_same(bytes: &[u8], text: &[u8]) -> bool
    ensures { result ≡ str_eq_ignore_ascii_case bytes.now text.now }
{
    bytes.eq_ignore_ascii_case(text)
}

/// Whether the word is the text, in upper or lower case.
#[tactic(auto, unfolding(crate::specs::Table::is_text))]
pub fn is_text(word: &Word, text: &[u8]) -> bool
    ensures { result ≡ is_text word.now text.now }
{
    match word {
        Word::Whole(bytes) => is_same(bytes.as_slice(), text),
        Word::Long(_) => false,
    }
}

impl Verb {
    /// The name in lower case.
    pub fn text(self) -> &'static [u8]
        ensures { result.now ≡ verb_text self }
    {
        match self {
            Verb::Sadd => b"sadd",
            Verb::Srem => b"srem",
            Verb::Smembers => b"smembers",
            Verb::Scard => b"scard",
            Verb::Sismember => b"sismember",
            Verb::Smismember => b"smismember",
            Verb::Exists => b"exists",
            Verb::Type => b"type",
            Verb::Ping => b"ping",
            Verb::Echo => b"echo",
            Verb::Select => b"select",
            Verb::Client => b"client",
            Verb::Hello => b"hello",
            Verb::Command => b"command",
            Verb::Config => b"config",
            Verb::Info => b"info",
            Verb::Quit => b"quit",
            Verb::Reset => b"reset",
            Verb::Multi => b"multi",
            Verb::Exec => b"exec",
            Verb::Discard => b"discard",
            Verb::Watch => b"watch",
            Verb::Unwatch => b"unwatch",
            Verb::Shutdown => b"shutdown",
            Verb::Auth => b"auth",
            Verb::Time => b"time",
            Verb::Flushall => b"flushall",
            Verb::Expire => b"expire",
            Verb::Move => b"move",
            Verb::Spop => b"spop",
            Verb::Smove => b"smove",
            Verb::Memory => b"memory",
        }
    }

    /// The verb that the bytes name, in upper or lower case.
    #[tactic(auto, unfolding(crate::specs::Table::verb_named))]
    pub fn of_name(bytes: &[u8]) -> Option<Verb>
        ensures { result ≡ verb_named bytes.now }
    {
        let mut verbs = ALL.as_slice();
        while let [verb, more @ ..] = verbs {
            if is_same(bytes, verb.text()) {
                return Some(*verb);
            }
            verbs = more;
        }
        None
    }

    /// The verb that a word names.
    pub fn of_word(word: &Word) -> Option<Verb>
        ensures { result ≡ verb_of word.now }
    {
        match word {
            Word::Whole(bytes) => Verb::of_name(bytes.as_slice()),
            Word::Long(_) => None,
        }
    }

    /// Whether the name may be followed by that many words.
    pub fn takes(self, operands: usize) -> bool
        ensures { result ≡ takes self operands }
    {
        match self {
            Verb::Sadd | Verb::Srem | Verb::Smismember => 2 <= operands,
            Verb::Exists | Verb::Client | Verb::Config | Verb::Watch | Verb::Auth => 1 <= operands,
            Verb::Smembers | Verb::Scard | Verb::Type | Verb::Echo | Verb::Select => operands == 1,
            Verb::Sismember => operands == 2,
            Verb::Ping | Verb::Info => operands <= 1,
            Verb::Command | Verb::Hello | Verb::Shutdown => true,
            Verb::Flushall | Verb::Expire | Verb::Move | Verb::Spop | Verb::Smove | Verb::Memory =>
                true,
            Verb::Quit
            | Verb::Reset
            | Verb::Multi
            | Verb::Exec
            | Verb::Discard
            | Verb::Unwatch
            | Verb::Time => operands == 0,
        }
    }
}
