//! Why a request is refused.
ghost use Rattle.std.specs.Prelude.{◌≡◌};
ghost use Rattle.chord_app_operator.specs.Words.{refusal_name, refusal_status};

use super::fault::Fault;
use super::verb::Verb;
use crate::operator::{CrashRefusal, JoinRefusal, LeaveRefusal, RescueRefusal};
use http::StatusCode;
use std::fmt;
use thiserror::Error;

/// Why a request is refused, by what it is or by the operator.
#[derive(Clone, Copy, Debug, PartialEq, Eq, Error)]
pub enum Refusal {
    ForeignHost,
    ForeignOrigin,
    NoSuchPath,
    WrongMethod(Verb),
    BodyTooLong,
    Bad(Fault),
    Join(JoinRefusal),
    Leave(LeaveRefusal),
    Crash(CrashRefusal),
    Rescue(RescueRefusal),
    Memory,
}

impl Refusal {
    /// The status of its answer.
    pub fn status(self) -> StatusCode
        ensures { result ≡ refusal_status self }
    {
        match self {
            Refusal::ForeignHost | Refusal::ForeignOrigin => StatusCode::FORBIDDEN,
            Refusal::NoSuchPath
            | Refusal::Leave(LeaveRefusal::NoSuchNode)
            | Refusal::Crash(CrashRefusal::NoSuchNode)
            | Refusal::Rescue(RescueRefusal::NoSuchNode) => StatusCode::NOT_FOUND,
            Refusal::WrongMethod(_) => StatusCode::METHOD_NOT_ALLOWED,
            Refusal::BodyTooLong => StatusCode::PAYLOAD_TOO_LARGE,
            Refusal::Bad(_) => StatusCode::BAD_REQUEST,
            Refusal::Join(JoinRefusal::Memory) | Refusal::Memory =>
                StatusCode::INSUFFICIENT_STORAGE,
            Refusal::Join(_) | Refusal::Leave(_) | Refusal::Crash(_) | Refusal::Rescue(_) =>
                StatusCode::CONFLICT,
        }
    }

    /// Its name in its answer.
    pub fn name(self) -> &'static str
        ensures { result.now ≡ refusal_name self }
    {
        match self {
            Refusal::ForeignHost => "ForeignHost",
            Refusal::ForeignOrigin => "ForeignOrigin",
            Refusal::NoSuchPath => "NoSuchPath",
            Refusal::WrongMethod(_) => "WrongMethod",
            Refusal::BodyTooLong => "BodyTooLong",
            Refusal::Bad(fault) => fault.name(),
            Refusal::Join(refusal) => refusal.name(),
            Refusal::Leave(refusal) => refusal.name(),
            Refusal::Crash(refusal) => refusal.name(),
            Refusal::Rescue(refusal) => refusal.name(),
            Refusal::Memory => "Memory",
        }
    }

    // Why, in words.
    fn text(self) -> &'static str {
        match self {
            Refusal::ForeignHost => "the request is for another host",
            Refusal::ForeignOrigin => "the request comes from a page of another site",
            Refusal::NoSuchPath => "the path names nothing",
            Refusal::WrongMethod(_) => "the path has another method",
            Refusal::BodyTooLong => "the body is longer than 4,096 bytes",
            Refusal::Bad(why) => why.text(),
            Refusal::Join(why) => why.text(),
            Refusal::Leave(why) => why.text(),
            Refusal::Crash(why) => why.text(),
            Refusal::Rescue(why) => why.text(),
            Refusal::Memory => "out of memory",
        }
    }
}

impl fmt::Display for Refusal {
    fn fmt<W: fmt::Write>(&self, f: &mut fmt::Formatter<W>) -> fmt::Result {
        f.write_str(self.text())
    }
}
