//! How a line shows refusals.

use chord_map::RequestFault;
use chord_world::{Refusal, StepFault};

/// The name of a refusal on a line.
pub fn name_of(refusal: Refusal) -> &'static str {
    match refusal {
        Refusal::AlreadyCreated => "AlreadyCreated",
        Refusal::NotCreated => "NotCreated",
        Refusal::NoSuchNode => "NoSuchNode",
        Refusal::NoSuchCaller => "NoSuchCaller",
        Refusal::NoSuchMessage => "NoSuchMessage",
        Refusal::IdTaken => "IdTaken",
        Refusal::NoStore => "NoStore",
        Refusal::Unsafe => "Unsafe",
        Refusal::Step(fault) => name_of_part(fault),
        Refusal::Memory => "Memory",
    }
}

fn name_of_part(fault: StepFault) -> &'static str {
    match fault {
        StepFault::BadWindow => "BadWindow",
        StepFault::WindowFull => "WindowFull",
        StepFault::NumbersSpent => "NumbersSpent",
        StepFault::Idle => "Idle",
        StepFault::Crashed => "Crashed",
        StepFault::NotCrashed => "NotCrashed",
        StepFault::NotBetween => "NotBetween",
        StepFault::HeadDead => "HeadDead",
        StepFault::NotHead => "NotHead",
        StepFault::Dead => "Dead",
        StepFault::NotCloser => "NotCloser",
        StepFault::HeadLive => "HeadLive",
        StepFault::Empty => "Empty",
        StepFault::NoSegment => "NoSegment",
        StepFault::NotInside => "NotInside",
        StepFault::NotAdjacent => "NotAdjacent",
        StepFault::Overlap => "Overlap",
        StepFault::Twice => "Twice",
        StepFault::NoPart => "NoPart",
        StepFault::NotStaying => "NotStaying",
        StepFault::NotLeaving => "NotLeaving",
        StepFault::NotEmpty => "NotEmpty",
        StepFault::BadFinger => "BadFinger",
        StepFault::NotNote => "NotNote",
        StepFault::NeedsMeet => "NeedsMeet",
        StepFault::Request(RequestFault::KeyEmpty) => "KeyEmpty",
        StepFault::Request(RequestFault::KeyLong) => "KeyLong",
        StepFault::Request(RequestFault::ValueLong) => "ValueLong",
    }
}
