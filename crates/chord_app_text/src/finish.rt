//! How a command ends.
ghost use Rattle.std.specs.Prelude.{◌≡◌};
ghost use Rattle.std.specs.IoError.{error_kind};
ghost use Rattle.chord_app_text.specs.Ends.{finish_of_kind};
ghost use Rattle.chord_app_text.specs.declared.finish.Finish.TheVariants.{OutOfMemory};

use crate::grammar_fault::GrammarFault;
use crate::undone::Undone;
use crate::word_fault::WordFault;
use std::alloc::{AllocError, AllocFailed};
use std::io::ErrorKind;
use std::{fmt, io};

/// Why a command can't go on.
#[derive(Clone, Copy, Debug, PartialEq, Eq)]
pub enum Fault {
    /// This line of the console, from 1, is outside the grammar.
    Line { line: u64, why: GrammarFault },
    /// This line, from 1, is no request.
    Request { line: u64, why: WordFault },
    Read,
    Write,
    /// The server can't listen at the port.
    Listen { port: u16, reason: ErrorKind },
    /// The ring refuses this node of a plan; nodes count from 0.
    Node(usize),
    /// The plan gives this node the identifier of the node `first`; nodes count from 0.
    SameId { number: usize, first: usize },
    /// No server is found at the port.
    Connect { port: u16, reason: ErrorKind },
    /// The server at the port begins no session.
    NoSession { port: u16 },
    /// This many inserts of values that nobody else inserts found them there.
    Doubled(u64),
    /// This many requests got no reply.
    Unanswered(u64),
    /// The time cannot be read.
    Clock,
    /// The connection to a server ended before its answer was whole.
    Lost,
    /// The answer of a server is not understood.
    Answer,
    /// Pairs that are to be copied stayed under way from one node to another.
    UnderWay,
    /// Pairs that are lost with a node are not in a copy.
    PassedOver,
    /// A copy does not end with the number of its pairs.
    Cut,
    /// The request of this line of a copy, from 1, is not done.
    Undone { line: u64, why: Undone },
}

impl fmt::Display for Fault {
    fn fmt<W: fmt::Write>(&self, f: &mut fmt::Formatter<W>) -> fmt::Result {
        match self {
            Fault::Line { line, why } => write!(f, "fault line {line}\n{why}"),
            Fault::Request { line, why } => write!(f, "fault line {line}\n{why}"),
            Fault::Read => write!(f, "fault read"),
            Fault::Write => write!(f, "fault write"),
            Fault::Listen { port, reason } => {
                write!(f, "fault listen\nport {port} of 127.0.0.1: {reason}")
            }
            Fault::Node(number) => { write!(f, "fault plan\nnode {number}: the ring refuses it") }
            Fault::SameId { number, first } => {
                write!(
                    f,
                    "fault plan\nnode {number}: id: node {first} has the same"
                )
            }
            Fault::Connect { port, reason } => {
                write!(f, "fault connect\nport {port} of 127.0.0.1: {reason}")
            }
            Fault::NoSession { port } => {
                write!(
                    f,
                    "fault session\nport {port} of 127.0.0.1: no session begins there; "
                )?;
                f.write_str("a server that keeps none is asked with --no-session")
            }
            Fault::Doubled(count) => write!(f, "fault doubled {count}"),
            Fault::Unanswered(count) => write!(f, "fault unanswered {count}"),
            Fault::Clock => write!(f, "fault clock"),
            Fault::Lost => {
                write!(
                    f,
                    "fault lost\nthe connection ended before the server's answer was whole"
                )
            }
            Fault::Answer => write!(f, "fault answer\nthe server's answer is not understood"),
            Fault::UnderWay => {
                f.write_str("fault underway\npairs stay under way from one node to another; ")?;
                f.write_str("the copy ends before them")
            }
            Fault::PassedOver => {
                f.write_str("fault passed\nwhat was lost with a node is not in the copy")
            }
            Fault::Cut => {
                f.write_str("fault cut\nthe last line does not tell how many pairs there are")
            }
            Fault::Undone { line, why } => write!(f, "fault line {line}\n{why}"),
        }
    }
}

/// How a command ended.
#[derive(Clone, Copy, Debug, PartialEq, Eq)]
pub enum Finish {
    Done,
    Fault(Fault),
    /// The command line is wrong. What is wrong was printed.
    BadCommandLine,
    /// The plan breaks a rule. Which one was printed.
    BadPlan,
    /// The server refuses what is asked for. Why was printed.
    Refused,
    OutOfMemory,
}

impl Finish {
    ghost use Rattle.std.specs.Prelude.{◌≡◌};
    ghost use Rattle.chord_app_text.specs.Ends.{status_of};

    /// The exit status: 0 done, 1 a fault of input, output or the plan, or a refusal, 2 a fault of
    /// the command line, 3 out of memory.
    pub fn status(self) -> u8
        ensures { result ≡ status_of self }
    {
        match self {
            Finish::Done => 0,
            Finish::Fault(_) | Finish::BadPlan | Finish::Refused => 1,
            Finish::BadCommandLine => 2,
            Finish::OutOfMemory => 3,
        }
    }
}

impl From<AllocError> for Finish {
    ghost from_gives = { λ _ finish. finish ≡ OutOfMemory };

    fn from(_refused: AllocError) -> Finish {
        Finish::OutOfMemory
    }
}

impl<T: Drop> From<AllocFailed<T>> for Finish {
    ghost from_gives = { λ _ finish. finish ≡ OutOfMemory };

    fn from(_refused: AllocFailed<T>) -> Finish {
        Finish::OutOfMemory
    }
}

impl From<io::Error> for Finish {
    ghost from_gives = { λ error finish. finish ≡ finish_of_kind (error_kind error) };

    fn from(error: io::Error) -> Finish {
        if error.kind() == io::ErrorKind::OutOfMemory {
            Finish::OutOfMemory
        } else {
            Finish::Fault(Fault::Write)
        }
    }
}
