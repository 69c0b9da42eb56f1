//! What the loop of operators keeps of a connection.

use crate::closing::Closing;
use crate::operators::visitor::Visitor;
use chord_app_operator::Operator;
use std::time::{Duration, Instant};

/// How a connection goes on.
#[derive(Clone, Copy, Debug, PartialEq, Eq)]
pub(crate) enum Going {
    /// Once its stream has something.
    Rests,
    /// Once others had their turn.
    Again,
    /// Not at all.
    Ended,
}

/// A connection of an operator.
#[derive(Drop)]
pub(crate) enum Place<'d, O: Operator> {
    Served(Visitor<'d, O>),
    Closing {
        closing: Closing,
        /// Whether bytes may have come that are not dropped.
        may_read: bool,
    },
}

impl<O: Operator> Place<'_, O> {
    /// Notes that there may be something to do.
    pub fn note(&mut self) {
        match self {
            Place::Served(visitor) => visitor.note(),
            Place::Closing { may_read, .. } => *may_read = true,
        }
    }

    /// Does what there is to do, within a turn.
    pub fn drive(&mut self, buffer: &mut [u8], now: Instant) -> Going {
        match self {
            Place::Served(visitor) => visitor.drive(now),
            Place::Closing { closing, may_read } => {
                if *may_read && !closing.drop_input(buffer) {
                    return Going::Ended;
                }
                *may_read = false;
                Going::Rests
            }
        }
    }

    /// Since when its client is silent. One that is being closed is the last to go.
    pub fn silent_since(&self) -> Instant {
        match self {
            Place::Served(visitor) => visitor.since,
            Place::Closing { closing, .. } => closing.until,
        }
    }

    /// Whether its time is over.
    pub fn is_over(&self, seconds: u64, now: Instant) -> bool {
        match self {
            Place::Served(visitor) => {
                now.duration_since(visitor.since) >= Duration::from_secs(seconds)
            }
            Place::Closing { closing, .. } => closing.until <= now,
        }
    }
}
