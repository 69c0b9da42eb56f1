use crate::reading::protocol_error::ProtocolError;
use crate::reading::word::Word;
use crate::table::verb::Verb;

/// How many members of a command were done, and of how many.
#[derive(Clone, Copy, Debug, PartialEq, Eq)]
pub struct Progress {
    pub done: u64,
    pub of: u64,
}

/// Why a command is answered by an error.
#[derive(Debug, Drop)]
pub enum Refusal {
    /// The bytes are no command.
    Protocol(ProtocolError),
    /// More than 1,024 words.
    TooManyWords,
    UnknownCommand { name: Word },
    /// The second word of CLIENT, COMMAND or CONFIG is none of theirs.
    UnknownSubcommand { verb: Verb, name: Word },
    /// Too few or too many words.
    WrongNumber(Verb),
    /// A key is empty or above 255 bytes.
    KeyLength,
    /// A member is above 4,096 bytes.
    MemberLength,
    /// Another word is above 4,096 bytes.
    WordLength,
    /// There is one database, number 0.
    NoDatabase,
    /// There is one version of the protocol, 2.
    NoProtocol,
    /// Commands are not done together: this one is of a transaction.
    NoTransactions,
    /// EXEC behind MULTI: no command of the transaction was done.
    Aborted,
    /// EXEC without MULTI.
    NothingToExecute,
    /// DISCARD without MULTI.
    NothingToDiscard,
    /// SHUTDOWN ABORT: no server that stops goes on.
    NothingToAbort,
    /// HELLO has no such option, or one that lacks its words.
    HelloOption { name: Word },
    /// AUTH with a password alone: the user `default` has none.
    NoPassword,
    /// Another user than `default`.
    WrongPassword,
    /// The name of a connection with a space or a byte that cannot be printed.
    BadName,
    /// A command of Redis on sets or the server that is not served here.
    NotServed(Verb),
    /// A word that the command does not know.
    Syntax,
    /// The set has 1,000 members.
    SetFull(Progress),
    /// The node's store is full. The request may still act.
    StoreFull(Progress),
    /// No answer came in time. The request may still act.
    NoAnswer(Progress),
}
