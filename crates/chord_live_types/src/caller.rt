//! Why a ring's callers refuse, and why there is no caller.

use chord_caller::SubmitFault;
use thiserror::Error;

/// Why no caller is opened.
#[derive(Clone, Copy, Debug, PartialEq, Eq, Error)]
pub enum OpenFault {
    #[error("the ring is stopped")]
    Stopped,
    #[error("all callers are open")]
    CallersSpent,
}

/// Why no client is opened.
#[derive(Clone, Copy, Debug, PartialEq, Eq, Error)]
pub enum OpenClientFault {
    #[error("the ring is stopped")]
    Stopped,
    #[error("all callers are open")]
    CallersSpent,
    #[error("out of memory")]
    Memory,
}

/// Why a request is not submitted.
#[derive(Clone, Copy, Debug, PartialEq, Eq, Error)]
pub enum BeginFault {
    /// The caller itself refuses it, or is out of memory.
    #[error(transparent)]
    Submit(SubmitFault),
    #[error("no node has the number")]
    NoSuchNode,
}

/// Why a wait for a reply ended without it.
#[derive(Clone, Copy, Debug, PartialEq, Eq, Error)]
pub enum WaitFault {
    #[error("the store has no room")]
    Full,
    #[error("no answer came")]
    NoAnswer,
    #[error("out of memory")]
    Memory,
}

/// Why a request has no reply.
#[derive(Clone, Copy, Debug, PartialEq, Eq, Error)]
pub enum AskFault {
    /// It was not submitted.
    #[error(transparent)]
    Begin(BeginFault),
    /// It was submitted, and stays pending.
    #[error(transparent)]
    Wait(WaitFault),
}

/// Why `collect` has no reply to a request that was submitted before.
#[derive(Clone, Copy, Debug, PartialEq, Eq, Error)]
pub enum CollectFault {
    #[error("no request of the number was submitted")]
    NotBegun,
    #[error(transparent)]
    Wait(WaitFault),
}

/// Why `retry` has no reply to a request.
#[derive(Clone, Copy, Debug, PartialEq, Eq, Error)]
pub enum RetryFault {
    #[error("no request of the number is pending")]
    Idle,
    #[error("no node has the number")]
    NoSuchNode,
    #[error(transparent)]
    Wait(WaitFault),
}
