//! How connections are served.
ghost use Rattle.std.specs.Prelude.{◌≡◌};
ghost use Rattle.chord_app_loop.specs.Rules.{most_looks};

use chord_serve::ReadSize;
use std::time::Duration;

/// How many microseconds lie between the first try of a request and the second; then twice as many.
const FIRST_PAUSE_US: u64 = 200;

/// How often a pause is doubled at most: 200 microseconds are 104 seconds then.
const MOST_DOUBLINGS: u32 = 19;

/// How many looks for silent clients an event loop takes a second.
pub(crate) const LOOKS_A_SECOND: u64 = 4;

/// How many bytes a read takes, how many reads a connection has, for how long a client may be
/// silent, and for how long a request is tried again.
#[derive(Clone, Copy, Debug, PartialEq, Eq)]
pub struct Rules {
    pub read_size: ReadSize,
    /// How many reads a connection has at most.
    pub turns: u64,
    /// For how many seconds a client may be silent, if there is a limit.
    pub idle: Option<u64>,
    /// The longest pause between two tries of a request.
    pub longest_pause: Duration,
    /// For how long a request is tried.
    pub patience: Duration,
}

impl Rules {
    /// How many looks in a row may find a client silent, if there is a limit: those of its seconds,
    /// of which the first may come at once.
    pub(crate) fn most_looks(self) -> Option<u64>
        ensures { result ≡ most_looks self.idle }
    {
        match self.idle {
            Some(seconds) => Some(seconds.saturating_mul(LOOKS_A_SECOND).saturating_add(1)),
            None => None,
        }
    }

    /// How long a request waits that was tried this often, before it is tried again.
    pub(crate) fn pause(self, tries: u32) -> Duration {
        let doublings = tries.saturating_sub(1).min(MOST_DOUBLINGS);
        Duration::from_micros(FIRST_PAUSE_US << doublings).min(self.longest_pause)
    }
}
