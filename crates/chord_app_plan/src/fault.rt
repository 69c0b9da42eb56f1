//! Why a plan is refused, and where it breaks a rule.

use chord_map::RequestFault;
use std::alloc::{AllocError, AllocFailed, Global};
use std::fmt;
use std::io::ErrorKind;
use thiserror::Error;

/// A table of a plan. Nodes and asks count from 0, each in the order of the file.
#[derive(Clone, Copy, Debug, PartialEq, Eq)]
pub enum TableName {
    /// The document itself.
    Top,
    Node(usize),
    Ask(usize),
}

impl fmt::Display for TableName {
    fn fmt<W: fmt::Write>(&self, f: &mut fmt::Formatter<W>) -> fmt::Result {
        match self {
            TableName::Top => Ok(()),
            TableName::Node(number) => write!(f, "node {number}: "),
            TableName::Ask(number) => write!(f, "ask {number}: "),
        }
    }
}

/// What is wrong under a key.
#[derive(Debug, Drop, PartialEq, Error)]
pub enum EntryFault {
    #[error("missing")]
    Missing,
    #[error("no whole number")]
    NoNumber,
    #[error("no text")]
    NoText,
    #[error("no tables")]
    NoTables,
    #[error("not from {least} to {most}")]
    NotWithin { least: u64, most: u64 },
    #[error("not below {0}")]
    NotBelow(usize),
    #[error("not from {least} to {most} tables")]
    NotSoManyTables { least: usize, most: usize },
    #[error("not 32 hexadecimal digits")]
    NoId,
    #[error("unknown kind \"{0}\"")]
    UnknownKind(String),
    #[error("unknown operation \"{0}\"")]
    UnknownOperation(String),
    #[error("{0}")]
    Request(RequestFault),
}

impl EntryFault {
    /// The fault of an unknown kind of store.
    pub(crate) fn unknown_kind(alloc: Global, kind: &str) -> Result<EntryFault, AllocError> {
        Ok(EntryFault::UnknownKind(String::from_str(alloc, kind)?))
    }

    /// The fault of an unknown operation.
    pub(crate) fn unknown_operation(
        alloc: Global,
        operation: &str,
    ) -> Result<EntryFault, AllocError> {
        Ok(EntryFault::UnknownOperation(String::from_str(alloc, operation)?))
    }
}

/// Why a plan is refused. Who prints it says which file it is about.
#[derive(Debug, Drop)]
pub enum PlanFault {
    /// The file of the plan cannot be read, for a reason of the system.
    Unread(ErrorKind),
    /// The plan has more than 1,048,576 bytes.
    TooLong,
    /// The plan is no TOML; the fault is on this line, from 1.
    NoToml {
        line: usize,
        fault: toml::de::Error,
    },
    /// The entry under this key of this table breaks a rule.
    Entry {
        table: TableName,
        key: &'static str,
        fault: EntryFault,
    },
    OutOfMemory,
}

impl fmt::Display for PlanFault {
    fn fmt<W: fmt::Write>(&self, f: &mut fmt::Formatter<W>) -> fmt::Result {
        match self {
            PlanFault::Unread(ErrorKind::NotFound) => write!(f, "no such file"),
            PlanFault::Unread(reason) => write!(f, "{reason}"),
            PlanFault::TooLong => write!(f, "more than 1048576 bytes"),
            PlanFault::NoToml { line, fault } => { write!(f, "line {line}: {}", fault.message()) }
            PlanFault::Entry { table, key, fault } => { write!(f, "{table}{key}: {fault}") }
            PlanFault::OutOfMemory => write!(f, "out of memory"),
        }
    }
}

impl From<AllocError> for PlanFault {
    ghost use Rattle.std.specs.Prelude.{◌≡◌};
    ghost use Rattle.chord_app_plan.specs.declared.fault.PlanFault.TheVariants.{OutOfMemory};

    ghost from_gives = { λ _ fault. fault ≡ OutOfMemory };

    fn from(_refused: AllocError) -> PlanFault {
        PlanFault::OutOfMemory
    }
}

impl<T: Drop> From<AllocFailed<T>> for PlanFault {
    ghost use Rattle.std.specs.Prelude.{◌≡◌};
    ghost use Rattle.chord_app_plan.specs.declared.fault.PlanFault.TheVariants.{OutOfMemory};

    ghost from_gives = { λ _ fault. fault ≡ OutOfMemory };

    fn from(_refused: AllocFailed<T>) -> PlanFault {
        PlanFault::OutOfMemory
    }
}
