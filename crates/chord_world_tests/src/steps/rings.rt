//! Worlds of several nodes.

ghost use Rattle.std.specs.Prelude.{◌≡◌, [], List, IfOk};
ghost use Rattle.std.specs.List.{All};
ghost use Rattle.chord_map.specs.declared.pair.Pair.{Pair};

use crate::checks::check;
use crate::steps::deeds::{A, B, C, Deed, new_world, steps_of};
use chord_store::ListStore;
use chord_world::{Outcome, Refusal, StepFault, StepResult, run};
use std::alloc::{AllocError, Global};
use std::test::Fail;

/// Two empty lists.
fn two_lists(alloc: Global) -> Result<Vec<ListStore>, AllocError>
    ensures { IfOk result (λ stores. All (λ (store : List Pair). store ≡ []) stores.items) }
{
    let mut stores = Vec::new(alloc);
    stores.push(ListStore::new(alloc))?;
    stores.push(ListStore::new(alloc))?;
    Ok(stores)
}

/// C joins behind A, which takes it as its first entry; then C crashes.
const TWO_NODES: &[Deed] = &[
    Deed::Join(A, 0),
    Deed::Create(A),
    Deed::Join(C, 1),
    Deed::Join(C, 0),
    Deed::Join(C, 0),
    Deed::Join(B, 1),
    Deed::Rectify(0, 1),
    Deed::Stabilise(0, 0),
    Deed::Candidate(0, 1),
    Deed::DropDead(0),
    Deed::Crash(0),
    Deed::Crash(1),
    Deed::Crash(1),
    Deed::Finger(1, 1, 0),
    Deed::Stabilise(0, 1),
    Deed::DropDead(0),
    Deed::Stabilise(0, 0),
];

const ANSWERS_OF_TWO: &[StepResult] = &[
    StepResult::Refused(Refusal::NotCreated),
    StepResult::Did(Outcome::Node(0)),
    StepResult::Refused(Refusal::NoSuchNode),
    StepResult::Did(Outcome::Node(1)),
    StepResult::Refused(Refusal::IdTaken),
    StepResult::Refused(Refusal::NoStore),
    StepResult::Did(Outcome::Done),
    StepResult::Did(Outcome::Candidate(Some(1))),
    StepResult::Did(Outcome::Done),
    StepResult::Refused(Refusal::Step(StepFault::HeadLive)),
    StepResult::Refused(Refusal::Unsafe),
    StepResult::Did(Outcome::Done),
    StepResult::Refused(Refusal::NoSuchNode),
    StepResult::Refused(Refusal::Step(StepFault::Crashed)),
    StepResult::Refused(Refusal::Step(StepFault::HeadDead)),
    StepResult::Did(Outcome::Done),
    StepResult::Did(Outcome::Candidate(Some(1))),
];

#[test]
fn a_ring_of_two_is_kept_up(rt: HostRuntime) -> Result<(), Fail> {
    let alloc = rt.alloc();
    let steps = steps_of(alloc, TWO_NODES)?;
    let mut stores = two_lists(alloc)?;
    let mut world = new_world(alloc)?;
    let answers = run(alloc, &mut world, &mut stores, &steps)?;
    check!(&rt; answers.as_slice() == ANSWERS_OF_TWO);
    world.stands_on_one_ring();
    Ok(())
}
