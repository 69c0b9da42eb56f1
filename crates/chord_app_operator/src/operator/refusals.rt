//! Why an operator does not do what it is asked for.
ghost use Rattle.std.specs.Prelude.{◌≡◌};
ghost use Rattle.chord_app_operator.specs.Words.{join_refusal_name, leave_refusal_name, crash_refusal_name, rescue_refusal_name};

use std::fmt;
use thiserror::Error;

/// Why a node does not join.
#[derive(Clone, Copy, Debug, PartialEq, Eq, Error)]
pub enum JoinRefusal {
    IdTaken,
    NoSlot,
    NoStore,
    Unsettled,
    NoSuchNode,
    Stopped,
    Memory,
}

/// Why a node does not begin to leave.
#[derive(Clone, Copy, Debug, PartialEq, Eq, Error)]
pub enum LeaveRefusal {
    NoSuchNode,
    NotStaying,
}

/// Why a node does not crash.
#[derive(Clone, Copy, Debug, PartialEq, Eq, Error)]
pub enum CrashRefusal {
    NoSuchNode,
    NotLive,
    Unsafe,
}

/// Why a node that crashed is not rescued.
#[derive(Clone, Copy, Debug, PartialEq, Eq, Error)]
pub enum RescueRefusal {
    NoSuchNode,
    NotCrashed,
    NoMember,
    Stopped,
}

impl JoinRefusal {
    /// Its name in an answer.
    pub fn name(self) -> &'static str
        ensures { result.now ≡ join_refusal_name self }
    {
        match self {
            JoinRefusal::IdTaken => "IdTaken",
            JoinRefusal::NoSlot => "NoSlot",
            JoinRefusal::NoStore => "NoStore",
            JoinRefusal::Unsettled => "Unsettled",
            JoinRefusal::NoSuchNode => "NoSuchNode",
            JoinRefusal::Stopped => "Stopped",
            JoinRefusal::Memory => "Memory",
        }
    }

    /// Why, in words.
    pub(crate) fn text(self) -> &'static str {
        match self {
            JoinRefusal::IdTaken => "a node has the identifier",
            JoinRefusal::NoSlot => "all slots are taken",
            JoinRefusal::NoStore => "the server makes stores of another kind",
            JoinRefusal::Unsettled => "the ring is not settled there",
            JoinRefusal::NoSuchNode => "no node has the number",
            JoinRefusal::Stopped => "the ring is stopped",
            JoinRefusal::Memory => "out of memory",
        }
    }
}

impl LeaveRefusal {
    /// Its name in an answer.
    pub fn name(self) -> &'static str
        ensures { result.now ≡ leave_refusal_name self }
    {
        match self {
            LeaveRefusal::NoSuchNode => "NoSuchNode",
            LeaveRefusal::NotStaying => "NotStaying",
        }
    }

    /// Why, in words.
    pub(crate) fn text(self) -> &'static str {
        match self {
            LeaveRefusal::NoSuchNode => "no node has the number",
            LeaveRefusal::NotStaying => "the node does not stay",
        }
    }
}

impl CrashRefusal {
    /// Its name in an answer.
    pub fn name(self) -> &'static str
        ensures { result.now ≡ crash_refusal_name self }
    {
        match self {
            CrashRefusal::NoSuchNode => "NoSuchNode",
            CrashRefusal::NotLive => "NotLive",
            CrashRefusal::Unsafe => "Unsafe",
        }
    }

    /// Why, in words.
    pub(crate) fn text(self) -> &'static str {
        match self {
            CrashRefusal::NoSuchNode => "no node has the number",
            CrashRefusal::NotLive => "the node is gone or crashed already",
            CrashRefusal::Unsafe => "the ring would not stand without the node",
        }
    }
}

impl RescueRefusal {
    /// Its name in an answer.
    pub fn name(self) -> &'static str
        ensures { result.now ≡ rescue_refusal_name self }
    {
        match self {
            RescueRefusal::NoSuchNode => "NoSuchNode",
            RescueRefusal::NotCrashed => "NotCrashed",
            RescueRefusal::NoMember => "NoMember",
            RescueRefusal::Stopped => "Stopped",
        }
    }

    /// Why, in words.
    pub(crate) fn text(self) -> &'static str {
        match self {
            RescueRefusal::NoSuchNode => "no node has the number",
            RescueRefusal::NotCrashed => "the node did not crash, or is rescued already",
            RescueRefusal::NoMember => "no node stays that could take over what it holds",
            RescueRefusal::Stopped => "the server stops",
        }
    }
}

impl fmt::Display for JoinRefusal {
    fn fmt<W: fmt::Write>(&self, f: &mut fmt::Formatter<W>) -> fmt::Result {
        f.write_str(self.text())
    }
}

impl fmt::Display for LeaveRefusal {
    fn fmt<W: fmt::Write>(&self, f: &mut fmt::Formatter<W>) -> fmt::Result {
        f.write_str(self.text())
    }
}

impl fmt::Display for CrashRefusal {
    fn fmt<W: fmt::Write>(&self, f: &mut fmt::Formatter<W>) -> fmt::Result {
        f.write_str(self.text())
    }
}

impl fmt::Display for RescueRefusal {
    fn fmt<W: fmt::Write>(&self, f: &mut fmt::Formatter<W>) -> fmt::Result {
        f.write_str(self.text())
    }
}
