//! Why a step is refused.
ghost use Rattle.std.specs.Prelude.{◌≡◌};
ghost use Rattle.chord_world.specs.declared.refusal.Refusal.TheVariants.{Memory as NoMemory};
ghost use Rattle.chord_world.specs.Refusals.{number_of, refusal_of, refusal_of_ring};
ghost use Rattle.chord_world.specs.Handing.{refusal_of_cut, refusal_of_merge, refusal_of_give, refusal_of_resend, refusal_of_leave, refusal_of_retire};

use chord_caller::SubmitFault;
use chord_map::RequestFault;
use chord_node::{CutAtFault, GiveFault, MergeFault, NotStaying, ResendPartFault, RetireFault};
use chord_ring::{CandidateFault, DropFault, RingFault, StabiliseFault};
use std::alloc::AllocError;
use std::fmt;
use thiserror::Error;

/// Why a step is refused: the first reason that applies, in this order.
#[derive(Clone, Copy, Debug, PartialEq, Eq, Error)]
pub enum Refusal {
    AlreadyCreated,
    NotCreated,
    NoSuchNode,
    NoSuchCaller,
    NoSuchMessage,
    IdTaken,
    NoStore,
    Unsafe,
    /// A node, a caller or the ring refused.
    Step(StepFault),
    Memory,
}

/// Why a node, a caller or the ring refused its part of a step.
#[derive(Clone, Copy, Debug, PartialEq, Eq, Error)]
pub enum StepFault {
    BadWindow,
    Request(RequestFault),
    WindowFull,
    NumbersSpent,
    Idle,
    Crashed,
    NotCrashed,
    NotBetween,
    HeadDead,
    NotHead,
    Dead,
    NotCloser,
    HeadLive,
    Empty,
    NoSegment,
    NotInside,
    NotAdjacent,
    Overlap,
    Twice,
    NoPart,
    NotStaying,
    NotLeaving,
    NotEmpty,
    BadFinger,
    NotNote,
    NeedsMeet,
}

impl Refusal {
    /// The number of the refusal in the order of the checks: 9 for a `Step`, 10 for memory.
    pub fn number(self) -> u8
        ensures { result ≡ number_of self }
    {
        match self {
            Refusal::AlreadyCreated => 1,
            Refusal::NotCreated => 2,
            Refusal::NoSuchNode => 3,
            Refusal::NoSuchCaller => 4,
            Refusal::NoSuchMessage => 5,
            Refusal::IdTaken => 6,
            Refusal::NoStore => 7,
            Refusal::Unsafe => 8,
            Refusal::Step(_) => 9,
            Refusal::Memory => 10,
        }
    }

    /// Why, in words; a `Step` has those of its fault.
    fn text(self) -> &'static str {
        match self {
            Refusal::AlreadyCreated => "the first node was created before",
            Refusal::NotCreated => "no node was created yet",
            Refusal::NoSuchNode => "no node has this number",
            Refusal::NoSuchCaller => "no caller has this number",
            Refusal::NoSuchMessage => "no message has this number",
            Refusal::IdTaken => "the identifier was used before",
            Refusal::NoStore => "there is no store for a node",
            Refusal::Unsafe => "the ring would not stand without the member",
            Refusal::Step(fault) => fault.text(),
            Refusal::Memory => "out of memory",
        }
    }
}

impl StepFault {
    /// Why, in words; a `Request` has those of its fault.
    fn text(self) -> &'static str {
        match self {
            StepFault::BadWindow => "a window has 1 to 16 requests",
            StepFault::Request(_) => "the request is refused",
            StepFault::WindowFull => "the window is full",
            StepFault::NumbersSpent => "the numbers are spent",
            StepFault::Idle => "the request is not pending",
            StepFault::Crashed => "the node crashed",
            StepFault::NotCrashed => "the node did not crash, or was rescued",
            StepFault::NotBetween => "the new node does not lie before the first entry",
            StepFault::HeadDead => "the first entry is dead",
            StepFault::NotHead => "the node is not the first entry",
            StepFault::Dead => "the candidate is dead",
            StepFault::NotCloser => "the candidate does not lie before the first entry",
            StepFault::HeadLive => "the first entry is live",
            StepFault::Empty => "there is no other entry",
            StepFault::NoSegment => "the node holds no segment there",
            StepFault::NotInside => "the cut is not inside the segment",
            StepFault::NotAdjacent => "the second does not begin where the first ends",
            StepFault::Overlap => "the segments meet",
            StepFault::Twice => "a call is kept in both",
            StepFault::NoPart => "there is no such part",
            StepFault::NotStaying => "the node does not stay",
            StepFault::NotLeaving => "the node is not leaving",
            StepFault::NotEmpty => "the node holds a segment or hands one over",
            StepFault::BadFinger => "a node has the fingers 1 to 128",
            StepFault::NotNote => "the message is no note",
            StepFault::NeedsMeet => "a note is met, not delivered",
        }
    }
}

impl fmt::Display for StepFault {
    fn fmt<W: fmt::Write>(&self, f: &mut fmt::Formatter<W>) -> fmt::Result {
        match self {
            StepFault::Request(fault) => fmt::Display::fmt(fault, f),
            _ => f.write_str(self.text()),
        }
    }
}

impl fmt::Display for Refusal {
    fn fmt<W: fmt::Write>(&self, f: &mut fmt::Formatter<W>) -> fmt::Result {
        match self {
            Refusal::Step(fault) => fmt::Display::fmt(fault, f),
            _ => f.write_str(self.text()),
        }
    }
}

impl From<SubmitFault> for Refusal {
    ghost from_gives = { λ fault refusal. refusal ≡ refusal_of fault };

    fn from(fault: SubmitFault) -> Refusal {
        match fault {
            SubmitFault::Bad(fault) => Refusal::Step(StepFault::Request(fault)),
            SubmitFault::WindowFull => Refusal::Step(StepFault::WindowFull),
            SubmitFault::NumbersSpent => Refusal::Step(StepFault::NumbersSpent),
            SubmitFault::Memory => Refusal::Memory,
        }
    }
}

impl From<RingFault> for Refusal {
    ghost from_gives = { λ fault refusal. refusal ≡ refusal_of_ring fault };

    fn from(fault: RingFault) -> Refusal {
        match fault {
            RingFault::NoSuchNode => Refusal::NoSuchNode,
            RingFault::IdTaken => Refusal::IdTaken,
            RingFault::NotBetween => Refusal::Step(StepFault::NotBetween),
            RingFault::Stabilise(StabiliseFault::HeadDead) => Refusal::Step(StepFault::HeadDead),
            RingFault::Stabilise(StabiliseFault::NotHead) => Refusal::Step(StepFault::NotHead),
            RingFault::Candidate(CandidateFault::Dead) => Refusal::Step(StepFault::Dead),
            RingFault::Candidate(CandidateFault::NotCloser) => Refusal::Step(StepFault::NotCloser),
            RingFault::Drop(DropFault::HeadLive) => Refusal::Step(StepFault::HeadLive),
            RingFault::Drop(DropFault::Empty) => Refusal::Step(StepFault::Empty),
            RingFault::Memory => Refusal::Memory,
        }
    }
}

impl From<CutAtFault> for Refusal {
    ghost from_gives = { λ fault refusal. refusal ≡ refusal_of_cut fault };

    fn from(fault: CutAtFault) -> Refusal {
        match fault {
            CutAtFault::NoSegment => Refusal::Step(StepFault::NoSegment),
            CutAtFault::NotInside => Refusal::Step(StepFault::NotInside),
            CutAtFault::Memory => Refusal::Memory,
        }
    }
}

impl From<MergeFault> for Refusal {
    ghost from_gives = { λ fault refusal. refusal ≡ refusal_of_merge fault };

    fn from(fault: MergeFault) -> Refusal {
        match fault {
            MergeFault::NoSegment => Refusal::Step(StepFault::NoSegment),
            MergeFault::NotAdjacent => Refusal::Step(StepFault::NotAdjacent),
            MergeFault::Overlap => Refusal::Step(StepFault::Overlap),
            MergeFault::Twice => Refusal::Step(StepFault::Twice),
            MergeFault::Memory => Refusal::Memory,
        }
    }
}

impl From<GiveFault> for Refusal {
    ghost from_gives = { λ fault refusal. refusal ≡ refusal_of_give fault };

    fn from(fault: GiveFault) -> Refusal {
        match fault {
            GiveFault::NoSegment => Refusal::Step(StepFault::NoSegment),
            GiveFault::NumbersSpent => Refusal::Step(StepFault::NumbersSpent),
            GiveFault::Memory => Refusal::Memory,
        }
    }
}

impl From<ResendPartFault> for Refusal {
    ghost from_gives = { λ fault refusal. refusal ≡ refusal_of_resend fault };

    fn from(fault: ResendPartFault) -> Refusal {
        match fault {
            ResendPartFault::NoPart => Refusal::Step(StepFault::NoPart),
            ResendPartFault::Memory => Refusal::Memory,
        }
    }
}

impl From<NotStaying> for Refusal {
    ghost from_gives = { λ fault refusal. refusal ≡ refusal_of_leave fault };

    fn from(_fault: NotStaying) -> Refusal {
        Refusal::Step(StepFault::NotStaying)
    }
}

impl From<RetireFault> for Refusal {
    ghost from_gives = { λ fault refusal. refusal ≡ refusal_of_retire fault };

    fn from(fault: RetireFault) -> Refusal {
        match fault {
            RetireFault::NotLeaving => Refusal::Step(StepFault::NotLeaving),
            RetireFault::NotEmpty => Refusal::Step(StepFault::NotEmpty),
        }
    }
}

impl From<AllocError> for Refusal {
    ghost from_gives = { λ refused refusal. refusal ≡ NoMemory };

    fn from(_refused: AllocError) -> Refusal {
        Refusal::Memory
    }
}
