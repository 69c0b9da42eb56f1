//! Why a handover is not given.

use crate::payload::Payload;
use thiserror::Error;

/// Why a payload is not put into the outbox.
#[derive(Clone, Copy, Debug, PartialEq, Eq, Error)]
pub enum OutboxGiveFault {
    #[error("the numbers of this receiver are spent")]
    NumbersSpent,
    #[error("out of memory")]
    Memory,
}

/// A payload that was not given, given back.
#[derive(Debug, Drop)]
pub struct Ungiven {
    pub fault: OutboxGiveFault,
    pub payload: Payload,
}
