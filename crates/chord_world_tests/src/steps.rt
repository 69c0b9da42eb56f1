//! Worlds of one node.

ghost use Rattle.std.specs.Prelude.{◌≡◌, [], List, IfOk};
ghost use Rattle.std.specs.List.{All};
ghost use Rattle.chord_map.specs.declared.pair.Pair.{Pair};

use crate::checks::check;
use chord_ident::Id;
use chord_links::Peer;
use chord_map::Reply;
use chord_node::Message;
use chord_store::ListStore;
use chord_world::{Outcome, Refusal, Step, StepFault, StepResult, World, run};
use deeds::{A, Deed, new_world, steps_of};
use std::alloc::{AllocError, Global};
use std::test::Fail;

mod deeds;
mod disturbed;
mod growths;
mod rings;
mod scripts;

/// A caller inserts x under `abc`, and the call is delivered twice.
const REPEATED: &[Deed] = &[
    Deed::Deliver(0),
    Deed::Create(A),
    Deed::Create(A),
    Deed::Open(17),
    Deed::Open(1),
    Deed::Insert(0, b"abc", b"x"),
    Deed::Deliver(0),
    Deed::Deliver(1),
    Deed::Deliver(0),
    Deed::Deliver(2),
    Deed::Deliver(3),
];

const ANSWERS_TO_REPEATED: &[StepResult] = &[
    StepResult::Refused(Refusal::NotCreated),
    StepResult::Did(Outcome::Node(0)),
    StepResult::Refused(Refusal::AlreadyCreated),
    StepResult::Refused(Refusal::Step(StepFault::BadWindow)),
    StepResult::Did(Outcome::Caller(0)),
    StepResult::Did(Outcome::Message(0)),
    StepResult::Did(Outcome::Told(1)),
    StepResult::Did(Outcome::Fresh(0)),
    StepResult::Did(Outcome::Told(2)),
    StepResult::Did(Outcome::Known),
    StepResult::Refused(Refusal::NoSuchMessage),
];

/// One empty list.
fn one_list(alloc: Global) -> Result<Vec<ListStore>, AllocError>
    ensures { IfOk result (λ stores. All (λ (store : List Pair). store ≡ []) stores.items) }
{
    let mut stores = Vec::new(alloc);
    stores.push(ListStore::new(alloc))?;
    Ok(stores)
}

/// The world after the steps over one list, and the answer to each.
fn world_after(
    alloc: Global,
    script: &[Deed],
) -> Result<(Box<World<ListStore>>, Vec<StepResult>), AllocError> {
    let steps = steps_of(alloc, script)?;
    let mut stores = one_list(alloc)?;
    let mut world = new_world(alloc)?;
    let answers = run(alloc, &mut world, &mut stores, &steps)?;
    Ok((world, answers))
}

#[test]
fn a_repeated_call_acts_once(rt: HostRuntime) -> Result<(), Fail> {
    let (world, answers) = world_after(rt.alloc(), REPEATED)?;
    check!(&rt; answers.as_slice() == ANSWERS_TO_REPEATED && world.history().len() == 1);
    world.headline();
    Ok(())
}

/// The world after the steps.
fn world_of(alloc: Global, script: &[Deed]) -> Result<Box<World<ListStore>>, AllocError> {
    let (world, _) = world_after(alloc, script)?;
    Ok(world)
}

/// The answers to the steps.
fn answers_to(alloc: Global, script: &[Deed]) -> Result<Vec<StepResult>, AllocError> {
    let (_, answers) = world_after(alloc, script)?;
    Ok(answers)
}

/// How many replies the caller took, if there is such a caller.
fn count_taken(world: &World<ListStore>, caller: u64) -> Option<usize> {
    Some(world.mine(caller)?.len())
}

fn is_ask(world: &World<ListStore>, message: u64) -> bool {
    matches!(world.message(message), Some(Message::Ask(_)))
}

#[test]
fn a_repeated_call_is_told_once(rt: HostRuntime) -> Result<(), Fail> {
    let world = world_of(rt.alloc(), REPEATED)?;
    check!(&rt; count_taken(&world, 0) == Some(1) && count_taken(&world, 1) == None);
    check!(&rt; is_ask(&world, 0) && world.message(3).is_none());
    Ok(())
}

/// The result of creating a first node without a store.
fn created_without_a_store(alloc: Global) -> Result<Result<Outcome, Refusal>, AllocError> {
    let mut stores: Vec<ListStore> = Vec::new(alloc);
    let mut world = new_world(alloc)?;
    let step = Step::Create { id: Id::new(0) };
    let did = world.step(&mut stores, &step);
    drop(step);
    drop(world);
    Ok(did)
}

#[test]
fn a_step_without_a_store(rt: HostRuntime) -> Result<(), Fail> {
    let refused = created_without_a_store(rt.alloc())?;
    check!(&rt; refused == Err(Refusal::NoStore) && Refusal::NoStore.number() == 7);
    Ok(())
}

/// Caller 1 inserts x under `abc` and sends a note;
/// caller 0 meets the note and asks for `abc`, twice.
const NOTED: &[Deed] = &[
    Deed::Create(7),
    Deed::Open(1),
    Deed::Open(1),
    Deed::Insert(1, b"abc", b"x"),
    Deed::Deliver(0),
    Deed::Deliver(1),
    Deed::Show(1),
    Deed::Meet(0, 2),
    Deed::Retrieve(0, 0, b"abc"),
    Deed::Resend(0, None),
    Deed::Deliver(4),
    Deed::Deliver(3),
    Deed::Deliver(5),
    Deed::Deliver(2),
];

const ANSWERS_TO_NOTED: &[StepResult] = &[
    StepResult::Did(Outcome::Node(0)),
    StepResult::Did(Outcome::Caller(0)),
    StepResult::Did(Outcome::Caller(1)),
    StepResult::Did(Outcome::Message(0)),
    StepResult::Did(Outcome::Told(1)),
    StepResult::Did(Outcome::Fresh(1)),
    StepResult::Did(Outcome::Message(2)),
    StepResult::Did(Outcome::Met),
    StepResult::Did(Outcome::Message(3)),
    StepResult::Did(Outcome::Message(4)),
    StepResult::Did(Outcome::Told(5)),
    StepResult::Did(Outcome::Told(6)),
    StepResult::Did(Outcome::Fresh(0)),
    StepResult::Refused(Refusal::Step(StepFault::NeedsMeet)),
];

#[test]
fn notes_are_met(rt: HostRuntime) -> Result<(), Fail> {
    check!(&rt; answers_to(rt.alloc(), NOTED)?.as_slice() == ANSWERS_TO_NOTED);
    Ok(())
}

/// What a note told a caller comes in the history before the caller's later requests.
#[test]
fn a_note_stands_before_what_is_asked_then(rt: HostRuntime) -> Result<(), Fail> {
    let world = world_of(rt.alloc(), NOTED)?;
    let history = world.history();
    check!(&rt; history.len() == 2 && (history[0].caller, history[1].caller) == (1, 0));
    Ok(())
}

/// How many calls notes told the caller of, if there is such a caller.
fn count_told(world: &World<ListStore>, caller: u64) -> Option<usize> {
    Some(world.told(caller)?.len())
}

/// Whether the first call that a note told the caller of added a value.
fn was_told_of_an_insert(world: &World<ListStore>, caller: u64) -> Option<bool> {
    let first = world.told(caller)?.first()?;
    Some(first.reply == Reply::Added)
}

#[test]
fn a_caller_knows_what_it_was_told_of(rt: HostRuntime) -> Result<(), Fail> {
    let world = world_of(rt.alloc(), NOTED)?;
    check!(&rt; count_told(&world, 0) == Some(1) && was_told_of_an_insert(&world, 0) == Some(true));
    check!(&rt; count_told(&world, 1) == Some(0) && count_told(&world, 2) == None);
    Ok(())
}

/// Requests are sent again before there is one, while it is pending, and when its reply was taken.
const RESENT: &[Deed] = &[
    Deed::Resend(0, None),
    Deed::Resend(0, Some(1)),
    Deed::Deliver(0),
    Deed::Create(A),
    Deed::Create(A),
    Deed::Open(17),
    Deed::Open(1),
    Deed::Resend(0, None),
    Deed::Insert(0, b"abc", b"x"),
    // The request is pending: it goes out again under its number, whichever way it is named.
    Deed::Resend(0, None),
    Deed::Resend(0, Some(1)),
    Deed::Resend(0, Some(2)),
    // Each of the three calls is answered, and one of them twice.
    Deed::Deliver(0),
    Deed::Deliver(1),
    Deed::Deliver(2),
    Deed::Deliver(0),
    // It goes out again as long as no answer came, and the first one to come is taken.
    Deed::Resend(0, None),
    Deed::Deliver(3),
    Deed::Deliver(4),
    Deed::Deliver(7),
    Deed::Deliver(8),
    Deed::Deliver(9),
    // No request is pending any more.
    Deed::Resend(0, Some(1)),
    Deed::Resend(0, None),
    Deed::Meet(0, 1),
];

const IDLE: StepResult = StepResult::Refused(Refusal::Step(StepFault::Idle));

const ANSWERS_TO_RESENT: &[StepResult] = &[
    StepResult::Refused(Refusal::NotCreated),
    StepResult::Refused(Refusal::NotCreated),
    StepResult::Refused(Refusal::NotCreated),
    StepResult::Did(Outcome::Node(0)),
    StepResult::Refused(Refusal::AlreadyCreated),
    StepResult::Refused(Refusal::Step(StepFault::BadWindow)),
    StepResult::Did(Outcome::Caller(0)),
    IDLE,
    StepResult::Did(Outcome::Message(0)),
    StepResult::Did(Outcome::Message(1)),
    StepResult::Did(Outcome::Message(2)),
    IDLE,
    StepResult::Did(Outcome::Told(3)),
    StepResult::Did(Outcome::Told(4)),
    StepResult::Did(Outcome::Told(5)),
    StepResult::Did(Outcome::Told(6)),
    StepResult::Did(Outcome::Message(7)),
    StepResult::Did(Outcome::Fresh(0)),
    StepResult::Did(Outcome::Known),
    StepResult::Did(Outcome::Told(8)),
    StepResult::Did(Outcome::Known),
    StepResult::Refused(Refusal::NoSuchMessage),
    IDLE,
    IDLE,
    StepResult::Refused(Refusal::Step(StepFault::NotNote)),
];

#[test]
fn a_request_goes_out_again(rt: HostRuntime) -> Result<(), Fail> {
    let answers = answers_to(rt.alloc(), RESENT)?;
    let are_wanted = answers.as_slice() == ANSWERS_TO_RESENT;
    drop(answers);
    check!(&rt;
        are_wanted,
        "a request is sent again while it is pending, and at no other time"
    );
    let world = world_of(rt.alloc(), RESENT)?;
    check!(&rt;
        world.history().len() == 1,
        "however often it is sent, it acts once"
    );
    Ok(())
}

/// A node is created; its fingers are set to nodes that exist and to some that do not.
const FINGERS: &[Deed] = &[
    Deed::Create(7),
    Deed::Finger(0, 129, 7),
    Deed::Finger(0, 129, 0),
    Deed::Finger(0, 1, 0),
];

const ANSWERS_TO_FINGERS: &[StepResult] = &[
    StepResult::Did(Outcome::Node(0)),
    StepResult::Refused(Refusal::NoSuchNode),
    StepResult::Refused(Refusal::Step(StepFault::BadFinger)),
    StepResult::Did(Outcome::Done),
];

/// Whether node 0 is the only node, and only its first finger is set, to itself.
fn has_its_first_finger(world: &World<ListStore>) -> bool {
    let Some(links) = world.links(0) else {
        return false;
    };
    let id = Id::new(7);
    let (first, second) = (links.fingers().get(1), links.fingers().get(2));
    first == Some(Peer { number: 0, id }) && second == None && world.links(1).is_none()
}

#[test]
fn fingers_are_set(rt: HostRuntime) -> Result<(), Fail> {
    let (world, answers) = world_after(rt.alloc(), FINGERS)?;
    let are_told = answers.as_slice() == ANSWERS_TO_FINGERS;
    let are_set = has_its_first_finger(&world);
    drop(world);
    drop(answers);
    check!(&rt; are_told && are_set);
    Ok(())
}
