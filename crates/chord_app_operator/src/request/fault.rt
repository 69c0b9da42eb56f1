//! What is wrong with a request.
ghost use Rattle.std.specs.Prelude.{◌≡◌};
ghost use Rattle.chord_app_operator.specs.Words.{fault_name};

use std::fmt;
use thiserror::Error;

/// What is wrong with the body or the query of a request.
#[derive(Clone, Copy, Debug, PartialEq, Eq, Error)]
pub enum Fault {
    NotJson,
    NotObject,
    UnknownMember,
    BadId,
    BadStore,
    BadLimit,
    BadVia,
    BadForce,
    BadAfter,
    UnknownParameter,
}

impl Fault {
    /// Its name in an answer.
    pub fn name(self) -> &'static str
        ensures { result.now ≡ fault_name self }
    {
        match self {
            Fault::NotJson => "NotJson",
            Fault::NotObject => "NotObject",
            Fault::UnknownMember => "UnknownMember",
            Fault::BadId => "BadId",
            Fault::BadStore => "BadStore",
            Fault::BadLimit => "BadLimit",
            Fault::BadVia => "BadVia",
            Fault::BadForce => "BadForce",
            Fault::BadAfter => "BadAfter",
            Fault::UnknownParameter => "UnknownParameter",
        }
    }

    /// Why, in words.
    pub(crate) fn text(self) -> &'static str {
        match self {
            Fault::NotJson => "the body is not JSON",
            Fault::NotObject => "the body is no object",
            Fault::UnknownMember => "the body has a member that the call does not have",
            Fault::BadId => "`id` is not 32 hexadecimal digits",
            Fault::BadStore => "`store` is none of tree, list and capped",
            Fault::BadLimit =>
                "`limit` is no number, or out of range, or stands beside a store without a limit",
            Fault::BadVia => "`via` is no number of a node",
            Fault::BadForce => "`force` is neither true nor false",
            Fault::BadAfter => "`after` is not 32 hexadecimal digits",
            Fault::UnknownParameter => "the query has a parameter that the call does not have",
        }
    }
}

impl fmt::Display for Fault {
    fn fmt<W: fmt::Write>(&self, f: &mut fmt::Formatter<W>) -> fmt::Result {
        f.write_str(self.text())
    }
}
