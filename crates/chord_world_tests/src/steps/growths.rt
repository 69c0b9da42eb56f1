//! A growth is refused: its step answers Memory and changes nothing. It is done again, or left out
//! as if it were not in the script. With ample memory nothing is refused; the tests are also run
//! with each growth refused in turn.
ghost use Rattle.std.specs.Prelude.{◌≡◌, [], IfOk};
ghost use Rattle.std.specs.List.{All};

use crate::checks::check;
use crate::steps::deeds::{A, B, C, Deed, new_world, steps_of};
use crate::steps::disturbed::two_stores;
use crate::steps::scripts::{
    ANSWERS_TO_FULL_STORE_AND_A_RETRY, ANSWERS_TO_MOVING_KEY, ANSWERS_TO_TWO_PARTS,
    FULL_STORE_AND_A_RETRY, MOVING_KEY, VALUES, sixty_five_and_two_parts,
};
use chord_ident::Id;
use chord_map::Reply;
use chord_node::Holder;
use chord_store::{CappedStore, EntryStore};
use chord_world::{Outcome, Refusal, Step, StepFault, StepResult, World, run};
use std::alloc::{AllocError, Global};
use std::test::Fail;

/// A step, and its expected answer.
type Row = (Deed, Result<Outcome, Refusal>);

/// One store alone.
fn alone<S: EntryStore>(alloc: Global, store: S) -> Result<Vec<S>, AllocError>
    requires { S.content store ≡ [] }
    ensures { IfOk result (λ stores. All (λ s. S.content s ≡ []) stores.items) }
{
    let mut stores = Vec::new(alloc);
    stores.reserve(1)?;
    stores.push_reserved(store);
    Ok(stores)
}

/// Two stores with room for `room` pairs each, made again if memory was refused.
fn stores_at_last(alloc: Global, room: u64) -> Result<Vec<CappedStore>, AllocError>
    ensures { IfOk result (λ stores. All (λ s. s.pairs ≡ []) stores.items) }
{
    match two_stores(alloc, room) {
        Ok(stores) => Ok(stores),
        Err(_) => two_stores(alloc, room),
    }
}

/// Does the step, again if memory was refused.
fn at_last<S: EntryStore>(
    world: &mut World<S>,
    stores: &mut Vec<S>,
    step: &Step,
) -> Result<Outcome, Refusal>
    requires { All (λ s. S.content s ≡ []) stores.old.items }
    ensures { All (λ s. S.content s ≡ []) stores.new.items }
{
    match world.step(stores, step) {
        Err(Refusal::Memory) => world.step(stores, step),
        result => result,
    }
}

/// A world, made again if memory was refused.
fn world_at_last<S: EntryStore>(alloc: Global) -> Result<Box<World<S>>, AllocError> {
    match new_world(alloc) {
        Ok(world) => Ok(world),
        Err(_) => new_world(alloc),
    }
}

/// The step of a script, made again if memory was refused.
fn step_at_last(alloc: Global, deed: Deed) -> Result<Step, AllocError> {
    match deed.step(alloc) {
        Ok(step) => Ok(step),
        Err(_) => deed.step(alloc),
    }
}

const NO_PART: Refusal = Refusal::Step(StepFault::NoPart);

/// A call that a full store refuses is sent again after there is room, and its caller sends a note.
const FULL_STORE: &[Row] = &[
    (Deed::Create(A), Ok(Outcome::Node(0))),
    (Deed::Open(1), Ok(Outcome::Caller(0))),
    (Deed::Open(1), Ok(Outcome::Caller(1))),
    (Deed::Insert(0, b"a", b"x"), Ok(Outcome::Message(0))),
    (Deed::Deliver(0), Ok(Outcome::Told(1))),
    (Deed::Deliver(1), Ok(Outcome::Fresh(0))),
    (Deed::Insert(1, b"a", b"y"), Ok(Outcome::Message(2))),
    (Deed::Deliver(2), Ok(Outcome::Full(3))),
    (Deed::Deliver(3), Ok(Outcome::HeardFull)),
    (
        Deed::Remove(1, b"a", b"y"),
        Err(Refusal::Step(StepFault::WindowFull)),
    ),
    (Deed::Remove(0, b"a", b"x"), Ok(Outcome::Message(4))),
    (Deed::Deliver(4), Ok(Outcome::Told(5))),
    (Deed::Deliver(5), Ok(Outcome::Fresh(0))),
    (Deed::Resend(1, None), Ok(Outcome::Message(6))),
    (Deed::Deliver(6), Ok(Outcome::Told(7))),
    (Deed::Deliver(7), Ok(Outcome::Fresh(1))),
    (Deed::Show(1), Ok(Outcome::Message(8))),
    (Deed::Meet(0, 8), Ok(Outcome::Met)),
];

/// Whether each step has its expected answer.
fn does_all<S: EntryStore>(
    alloc: Global,
    world: &mut World<S>,
    stores: &mut Vec<S>,
    rows: &[Row],
) -> Result<bool, AllocError>
    requires { All (λ s. S.content s ≡ []) stores.old.items }
    ensures { All (λ s. S.content s ≡ []) stores.new.items }
{
    for (deed, wanted) in rows {
        let step = step_at_last(alloc, *deed)?;
        let did = at_last(world, stores, &step);
        drop(step);
        if did != *wanted {
            return Ok(false);
        }
    }
    Ok(true)
}

/// Whether the last reply that the caller took is Added.
fn took_added_last<S: EntryStore>(world: &World<S>, caller: u64) -> bool {
    let last = world.mine(caller).and_then(|mine| mine.last());
    last.is_some_and(|done| matches!(done.reply, Reply::Added))
}

/// Whether a call that a full store refuses is executed in the
/// end, and its caller's note tells the other caller of it.
fn is_done_again<S: EntryStore>(
    alloc: Global,
    world: &mut World<S>,
    stores: &mut Vec<S>,
) -> Result<bool, AllocError>
    requires { All (λ s. S.content s ≡ []) stores.old.items }
{
    let is_done = does_all(alloc, world, stores, FULL_STORE)?;
    let told = world.told(0).map_or(0, |told| told.len());
    Ok(is_done && world.history().len() == 3 && told == 1 && took_added_last(world, 1))
}

#[test]
fn a_refused_step_is_done_again(rt: HostRuntime) -> Result<(), Fail> {
    let alloc = rt.alloc();
    let mut stores = match alone(alloc, CappedStore::new(alloc, 1)) {
        Ok(stores) => stores,
        Err(_) => alone(alloc, CappedStore::new(alloc, 1))?,
    };
    let mut world = world_at_last(alloc)?;
    let is_done = is_done_again(alloc, &mut world, &mut stores);
    drop(world);
    drop(stores);
    check!(&rt; is_done == Ok(true));
    Ok(())
}

/// Whether this is the expected answer.
fn is_answer(did: Result<Outcome, Refusal>, wanted: StepResult) -> bool {
    match wanted {
        StepResult::Did(outcome) => did == Ok(outcome),
        StepResult::Refused(refusal) => did == Err(refusal),
    }
}

/// Whether each step of the script has its expected answer.
fn does_script<S: EntryStore>(
    alloc: Global,
    world: &mut World<S>,
    stores: &mut Vec<S>,
    script: &[Deed],
    wanted: &[StepResult],
) -> Result<bool, AllocError>
    requires { All (λ s. S.content s ≡ []) stores.old.items }
{
    for (deed, wanted) in script.iter().zip(wanted) {
        let step = step_at_last(alloc, *deed)?;
        let did = at_last(world, stores, &step);
        drop(step);
        if !is_answer(did, *wanted) {
            return Ok(false);
        }
    }
    Ok(true)
}

/// Whether a key moves from node to node and back.
fn moves_a_key<S: EntryStore>(
    alloc: Global,
    world: &mut World<S>,
    stores: &mut Vec<S>,
) -> Result<bool, AllocError>
    requires { All (λ s. S.content s ≡ []) stores.old.items }
{
    let is_done = does_script(alloc, world, stores, MOVING_KEY, ANSWERS_TO_MOVING_KEY)?;
    let (last, first) = (world.holder(Id::new(C)), world.holder(Id::new(0)));
    let taken = world.mine(0).map_or(0, |mine| mine.len());
    let is_held = last == Some(Holder::Node(0)) && first == last;
    Ok(is_done && is_held && world.history().len() == 4 && taken == 4)
}

/// A key moves, whichever growth is refused.
#[test]
fn a_key_moves_all_the_same(rt: HostRuntime) -> Result<(), Fail> {
    let alloc = rt.alloc();
    let mut stores = stores_at_last(alloc, 9)?;
    let mut world = world_at_last(alloc)?;
    let moves = moves_a_key(alloc, &mut world, &mut stores);
    drop(world);
    drop(stores);
    check!(&rt; moves == Ok(true));
    Ok(())
}

/// A node and a caller.
const BEGINNING: &[Row] = &[
    (Deed::Create(A), Ok(Outcome::Node(0))),
    (Deed::Open(1), Ok(Outcome::Caller(0))),
];

/// Caller 0 inserts a value, after `others` values before it.
fn takes<S: EntryStore>(
    alloc: Global,
    world: &mut World<S>,
    stores: &mut Vec<S>,
    others: u8,
    value: &'static [u8],
) -> Result<bool, AllocError>
    requires { All (λ s. S.content s ≡ []) stores.old.items }
    ensures { All (λ s. S.content s ≡ []) stores.new.items }
{
    let message = 2 * u64::from(others);
    let told = message + 1;
    let rows = [
        (Deed::Insert(0, b"a", value), Ok(Outcome::Message(message))),
        (Deed::Deliver(message), Ok(Outcome::Told(told))),
        (Deed::Deliver(told), Ok(Outcome::Fresh(0))),
    ];
    does_all(alloc, world, stores, &rows)
}

/// Caller 0 inserts each of the values.
fn takes_each<S: EntryStore>(
    alloc: Global,
    world: &mut World<S>,
    stores: &mut Vec<S>,
) -> Result<bool, AllocError>
    requires { All (λ s. S.content s ≡ []) stores.old.items }
    ensures { All (λ s. S.content s ≡ []) stores.new.items }
{
    for (others, value) in (0..65u8).zip(VALUES.chunks(1)) {
        if !takes(alloc, world, stores, others, value)? {
            return Ok(false);
        }
    }
    Ok(true)
}

/// A new node is given half of the circle; the first part comes twice.
const FIRST_PART: &[Row] = &[
    (Deed::Join(C, 0), Ok(Outcome::Node(1))),
    (Deed::Cut(0, C), Ok(Outcome::Done)),
    (Deed::Give(0, 1), Ok(Outcome::Message(130))),
    (Deed::Deliver(130), Ok(Outcome::Noted)),
    (Deed::Deliver(130), Ok(Outcome::Noted)),
];

/// The second part, which is the last one, comes, and the first one once more.
const SECOND_PART: &[Row] = &[
    (Deed::SendPart(3), Err(NO_PART)),
    (Deed::SendPart(2), Ok(Outcome::Message(131))),
    (Deed::Deliver(131), Ok(Outcome::Got(132))),
    (Deed::Deliver(130), Ok(Outcome::Got(133))),
];

/// The giver hears that the handover was taken, and its outbox has no part of it any more.
const CONFIRMATION: &[Row] = &[
    (Deed::Deliver(132), Ok(Outcome::Freed)),
    (Deed::SendPart(1), Err(NO_PART)),
];

const UNDER_WAY: Holder = Holder::UnderWay {
    from: 0,
    to: 1,
    number: 1,
};

/// Whether a node that holds the whole circle hands half of it, and B with it, over in two parts.
fn hands_over<S: EntryStore>(
    alloc: Global,
    world: &mut World<S>,
    stores: &mut Vec<S>,
) -> Result<bool, AllocError>
    requires { All (λ s. S.content s ≡ []) stores.old.items }
{
    let is_begun = does_all(alloc, world, stores, BEGINNING)? && takes_each(alloc, world, stores)?;
    if !is_begun || world.holder(Id::new(B)) != Some(Holder::Node(0)) {
        return Ok(false);
    }
    for (rows, holder) in [
        (FIRST_PART, UNDER_WAY),
        (SECOND_PART, Holder::Node(1)),
        (CONFIRMATION, Holder::Node(1)),
    ] {
        let is_done = does_all(alloc, world, stores, rows)?;
        if !is_done || world.holder(Id::new(B)) != Some(holder) {
            return Ok(false);
        }
    }
    Ok(world.history().len() == 65)
}

/// A handover takes two parts, whichever growth is refused.
#[test]
fn a_handover_in_two_parts(rt: HostRuntime) -> Result<(), Fail> {
    let alloc = rt.alloc();
    let mut stores = stores_at_last(alloc, 65)?;
    let mut world = world_at_last(alloc)?;
    let handed = hands_over(alloc, &mut world, &mut stores);
    drop(world);
    drop(stores);
    check!(&rt; handed == Ok(true));
    Ok(())
}

/// The steps of a script, made again if memory was refused.
fn steps_at_last(alloc: Global, script: &[Deed]) -> Result<Vec<Step>, AllocError> {
    match steps_of(alloc, script) {
        Ok(steps) => Ok(steps),
        Err(_) => steps_of(alloc, script),
    }
}

/// A world after a script, and the answers to its steps.
type After = (Box<World<CappedStore>>, Vec<StepResult>);

/// Does the script over two stores with room for `room` pairs each. A step that is refused memory
/// is left out.
fn after(alloc: Global, room: u64, script: &[Deed]) -> Result<After, AllocError> {
    let steps = steps_at_last(alloc, script)?;
    let mut stores = stores_at_last(alloc, room)?;
    let mut world = world_at_last(alloc)?;
    let answers = match run(alloc, &mut world, &mut stores, &steps) {
        Ok(answers) => answers,
        Err(_) => run(alloc, &mut world, &mut stores, &steps)?,
    };
    drop(steps);
    drop(stores);
    Ok((world, answers))
}

/// The script without the deed at this place.
fn without(alloc: Global, script: &[Deed], place: usize) -> Result<Vec<Deed>, AllocError> {
    let mut rest = Vec::new(alloc);
    for (at, deed) in script.iter().enumerate() {
        if at != place {
            rest.push(*deed)?;
        }
    }
    Ok(rest)
}

/// Whether both worlds have the same history, and the same holders, callers and links.
fn are_alike<S: EntryStore>(one: &World<S>, other: &World<S>) -> bool {
    for id in [Id::new(0), Id::new(A), Id::new(B), Id::new(C)] {
        if one.holder(id) != other.holder(id) {
            return false;
        }
    }
    for number in [0, 1] {
        if one.mine(number) != other.mine(number) || one.links(number) != other.links(number) {
            return false;
        }
    }
    one.history() == other.history()
}

/// Whether the answers are the same but for that at this place.
fn are_others(answers: &[StepResult], place: usize, rest: &[StepResult]) -> bool {
    let before = answers.iter().take(place);
    let behind = answers.iter().skip(place.saturating_add(1));
    before.chain(behind).eq(rest)
}

/// Whether the script is done as its last answers say, or, where a step was refused memory, as if
/// that step were not in it.
fn goes_on(
    alloc: Global,
    room: u64,
    script: &[Deed],
    last: &[StepResult],
) -> Result<bool, AllocError> {
    let (world, answers) = after(alloc, room, script)?;
    let refused = StepResult::Refused(Refusal::Memory);
    let Some(place) = answers.iter().position(|answer| *answer == refused) else {
        let is_done = answers.ends_with(last);
        drop(answers);
        drop(world);
        return Ok(is_done);
    };
    let shorter = without(alloc, script, place)?;
    let (other, rest) = after(alloc, room, &shorter)?;
    let is_same = are_others(&answers, place, &rest) && are_alike(&*world, &*other);
    drop(shorter);
    drop(other);
    drop(world);
    Ok(is_same)
}

/// A step that is refused memory is as if it were not in the script.
#[test]
fn a_refused_step_is_left_out(rt: HostRuntime) {
    let alloc = rt.alloc();
    let moves = goes_on(alloc, u64::MAX, MOVING_KEY, ANSWERS_TO_MOVING_KEY);
    check!(&rt; moves == Ok(true), "a key moves");
    let answers = ANSWERS_TO_FULL_STORE_AND_A_RETRY;
    let retries = goes_on(alloc, 1, FULL_STORE_AND_A_RETRY, answers);
    check!(&rt; retries == Ok(true), "a full store and a retry");
}

/// The script of a handover in two parts, made again if memory was refused.
fn two_parts_at_last(alloc: Global) -> Result<Vec<Deed>, AllocError> {
    match sixty_five_and_two_parts(alloc) {
        Ok(script) => Ok(script),
        Err(_) => sixty_five_and_two_parts(alloc),
    }
}

/// The same for a handover in two parts.
#[test]
fn a_refused_step_of_a_handover_is_left_out(rt: HostRuntime) -> Result<(), Fail> {
    let alloc = rt.alloc();
    let script = two_parts_at_last(alloc)?;
    let goes_on = goes_on(alloc, u64::MAX, &script, ANSWERS_TO_TWO_PARTS);
    check!(&rt; goes_on == Ok(true));
    Ok(())
}
