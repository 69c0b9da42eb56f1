//! Messages are lost, repeated, late or out of order: each identifier has one holder, and the
//! history is that of one map.
ghost use Rattle.std.specs.Prelude.{◌≡◌, [], IfOk};
ghost use Rattle.std.specs.List.{All};

use crate::checks::check;
use crate::steps::deeds::{A, B, C, Deed, new_world, steps_of};
use crate::steps::scripts::{
    DECLINED_HANDOVER, FULL_STORE_AND_A_RETRY, MOVING_KEY, TWO_NOTES, sixty_five_and_two_parts,
};
use chord_ident::Id;
use chord_map::{Done, PlainMap};
use chord_store::{CappedStore, EntryStore};
use chord_world::{Step, World};
use std::alloc::{AllocError, Global};
use std::test::Fail;

/// The indices of a script's steps, in the order in which they are done.
type Order = Vec<usize>;

/// What happens to one delivery of a script.
#[derive(Clone, Copy)]
enum Disturbance {
    /// It is left out.
    Lost,
    /// It is done twice in a row.
    Repeated,
    /// It changes places with the next delivery, if there is one.
    Swapped,
    /// It is done at the end of the script.
    Late,
}

const DISTURBANCES: [Disturbance; 4] = [
    Disturbance::Lost,
    Disturbance::Repeated,
    Disturbance::Swapped,
    Disturbance::Late,
];

/// Two stores with room for `room` pairs each.
pub fn two_stores(alloc: Global, room: u64) -> Result<Vec<CappedStore>, AllocError>
    ensures { IfOk result (λ stores. All (λ s. s.pairs ≡ []) stores.items) }
{
    let mut stores = Vec::new(alloc);
    stores.push(CappedStore::new(alloc, room))?;
    stores.push(CappedStore::new(alloc, room))?;
    Ok(stores)
}

/// All indices but this one.
fn without(alloc: Global, count: usize, place: usize) -> Result<Order, AllocError> {
    let mut order = Vec::new(alloc);
    for at in 0..count {
        if at != place {
            order.push(at)?;
        }
    }
    Ok(order)
}

/// All indices, this one twice.
fn doubled(alloc: Global, count: usize, place: usize) -> Result<Order, AllocError> {
    let mut order = Vec::new(alloc);
    for at in 0..count {
        order.push(at)?;
        if at == place {
            order.push(at)?;
        }
    }
    Ok(order)
}

/// All indices, with these two swapped.
fn swapped(alloc: Global, count: usize, one: usize, other: usize) -> Result<Order, AllocError> {
    let mut order = Vec::new(alloc);
    for at in 0..count {
        let place = if at == one {
            other
        } else if at == other {
            one
        } else {
            at
        };
        order.push(place)?;
    }
    Ok(order)
}

/// All indices, this one last.
fn last(alloc: Global, count: usize, place: usize) -> Result<Order, AllocError> {
    let mut order = without(alloc, count, place)?;
    order.push(place)?;
    Ok(order)
}

/// Whether the step takes in a message.
fn is_delivery(step: &Step) -> bool {
    matches!(step, Step::Deliver { .. } | Step::Meet { .. })
}

/// The next delivery after an index, or the index itself if there is none.
fn next_delivery(steps: &[Step], place: usize) -> usize {
    for (at, step) in steps.iter().enumerate() {
        if at > place && is_delivery(step) {
            return at;
        }
    }
    place
}

/// The order of the steps with the delivery at an index disturbed.
fn order_of(
    alloc: Global,
    steps: &[Step],
    place: usize,
    disturbance: Disturbance,
) -> Result<Order, AllocError> {
    let count = steps.len();
    match disturbance {
        Disturbance::Lost => without(alloc, count, place),
        Disturbance::Repeated => doubled(alloc, count, place),
        Disturbance::Swapped => swapped(alloc, count, place, next_delivery(steps, place)),
        Disturbance::Late => last(alloc, count, place),
    }
}

/// Does the steps in this order, whatever they answer.
fn play<S: EntryStore>(world: &mut World<S>, stores: &mut Vec<S>, steps: &[Step], order: &[usize])
    requires { All (λ s. S.content s ≡ []) stores.old.items }
{
    for place in order {
        if let Some(step) = steps.get(*place) {
            let _ = world.step(stores, step);
        }
    }
}

/// Whether the map gives the call the same reply.
fn replies(map: &mut PlainMap, done: &Done) -> Result<bool, AllocError> {
    if done.request.check().is_err() {
        return Ok(false);
    }
    let reply = map.apply(&done.request)?;
    let is_same = reply == done.reply;
    drop(reply);
    Ok(is_same)
}

/// Whether a replay of the history on a plain map gives each of its replies.
fn replays(alloc: Global, history: &[Done]) -> Result<bool, AllocError> {
    let mut map = PlainMap::new(alloc);
    for done in history {
        if !replies(&mut map, done)? {
            return Ok(false);
        }
    }
    Ok(true)
}

/// Whether, after the steps in this order, five identifiers have holders and the history is that of
/// one map.
fn stands(alloc: Global, room: u64, steps: &[Step], order: &[usize]) -> Result<bool, AllocError> {
    let mut stores = two_stores(alloc, room)?;
    let mut world = new_world(alloc)?;
    play(&mut world, &mut stores, steps, order);
    let abc = Id::of_bytes(b"abc");
    for id in [Id::new(0), Id::new(A), Id::new(B), Id::new(C), abc] {
        if world.holder(id).is_none() {
            return Ok(false);
        }
    }
    replays(alloc, world.history())
}

/// Whether `stands` is true with this delivery disturbed in each way.
fn stands_disturbed(
    alloc: Global,
    room: u64,
    steps: &[Step],
    place: usize,
) -> Result<bool, AllocError> {
    for disturbance in DISTURBANCES {
        let order = order_of(alloc, steps, place, disturbance)?;
        if !stands(alloc, room, steps, &order)? {
            return Ok(false);
        }
    }
    Ok(true)
}

/// How many deliveries of the script were disturbed, from an index on, if `stands` was true each
/// time.
fn disturbs_from(
    alloc: Global,
    room: u64,
    script: &[Deed],
    first: usize,
) -> Result<Option<u64>, AllocError> {
    let steps = steps_of(alloc, script)?;
    let mut count: u64 = 0;
    for (place, step) in steps.iter().enumerate() {
        if place >= first && is_delivery(step) {
            if !stands_disturbed(alloc, room, &steps, place)? {
                return Ok(None);
            }
            count = count.saturating_add(1);
        }
    }
    Ok(Some(count))
}

/// The same for all deliveries of the script.
fn disturbs(alloc: Global, room: u64, script: &[Deed]) -> Result<Option<u64>, AllocError> {
    disturbs_from(alloc, room, script, 0)
}

#[test]
fn a_moving_key_is_disturbed(rt: HostRuntime) -> Result<(), Fail> {
    check!(&rt; disturbs(rt.alloc(), u64::MAX, MOVING_KEY)? == Some(20));
    Ok(())
}

#[test]
fn a_full_store_is_disturbed(rt: HostRuntime) -> Result<(), Fail> {
    check!(&rt; disturbs(rt.alloc(), 1, FULL_STORE_AND_A_RETRY)? == Some(8));
    Ok(())
}

#[test]
fn a_declined_handover_is_disturbed(rt: HostRuntime) -> Result<(), Fail> {
    check!(&rt; disturbs(rt.alloc(), u64::MAX, DECLINED_HANDOVER)? == Some(8));
    Ok(())
}

#[test]
fn notes_are_disturbed(rt: HostRuntime) -> Result<(), Fail> {
    check!(&rt; disturbs(rt.alloc(), u64::MAX, TWO_NOTES)? == Some(9));
    Ok(())
}

/// Two steps and 65 calls of three are done before the handover, whose deliveries are disturbed.
#[test]
fn two_parts_are_disturbed(rt: HostRuntime) -> Result<(), Fail> {
    let script = sixty_five_and_two_parts(rt.alloc())?;
    check!(&rt; disturbs_from(rt.alloc(), u64::MAX, &script, 197)? == Some(8));
    Ok(())
}
