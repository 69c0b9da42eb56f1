//! How a connection ended.

ghost use Rattle.std.specs.Prelude.{◌≡◌};
ghost use Rattle.chord_app_sockets.specs.Ended.{ended_by, is_closed_slowly};

use chord_serve::Served;
use std::fmt;

#[derive(Clone, Copy, Debug, PartialEq, Eq)]
pub enum Ended {
    Served(Served),
    /// There was no caller for it. Its client was told so, and it was closed.
    CallersSpent,
    /// No byte was read or written for as long as a client may be idle.
    Idle,
    /// It could not be accepted.
    NotAccepted,
}

impl Ended {
    /// How a connection ended whose session ended so.
    pub fn by(served: Served, is_idle: bool) -> Ended
        ensures { result ≡ ended_by served is_idle }
    {
        if is_idle {
            Ended::Idle
        } else {
            Ended::Served(served)
        }
    }

    /// Whether the client may still read answers.
    pub fn is_closed_slowly(&self) -> bool
        ensures { result ≡ is_closed_slowly self.now }
    {
        match self {
            Ended::Served(Served::Read | Served::Write) | Ended::Idle | Ended::NotAccepted => false,
            Ended::Served(_) | Ended::CallersSpent => true,
        }
    }
}

impl fmt::Display for Ended {
    fn fmt<W: fmt::Write>(&self, f: &mut fmt::Formatter<W>) -> fmt::Result {
        match self {
            Ended::Served(Served::Ended | Served::Quit) => f.write_str("ended"),
            Ended::Served(Served::Truncated) => f.write_str("truncated"),
            Ended::Served(Served::Malformed(code)) => {
                let number = code.to_number();
                write!(f, "malformed {number}")
            }
            Ended::Served(Served::Protocol | Served::Foreign) => f.write_str("protocol"),
            Ended::Served(Served::Read) | Ended::NotAccepted => f.write_str("read"),
            Ended::Served(Served::Write) => f.write_str("write"),
            Ended::Served(Served::TurnsSpent) => f.write_str("turnsspent"),
            Ended::Served(Served::Memory) => f.write_str("memory"),
            Ended::CallersSpent => f.write_str("callersspent"),
            Ended::Idle => f.write_str("idle"),
        }
    }
}
