//! What a client stores of the numbers above its floor.
ghost use Rattle.std.specs.Prelude.{◌≡◌, ◌<◌, ◌≤◌, ◌+◌, ◌-◌, ◌^◌, length, slice_set};
ghost use Rattle.std.specs.Option.{option_copied};
ghost use Rattle.std.specs.VecDeque.{deque_capacity};
ghost use Rattle.chord_caller.specs.declared.request_state.RequestState.TheVariants.{Over as OverSlot};
ghost use Rattle.chord_caller.specs.Slots.{state_of, request_waiting_in, is_over, IsRaised};

use chord_map::Request;
use std::collections::VecDeque;

/// A submitted request: it waits, or it is over: its reply was taken, or it was given up.
#[derive(Debug, Drop)]
pub enum RequestState {
    Waiting(Request),
    Over,
}

/// The pending request of this number; all numbers up to the floor are over.
pub fn waiting_request(states: &VecDeque<RequestState>, floor: u64, number: u64) -> Option<&Request>
    ensures { option_copied result ≡ request_waiting_in (state_of floor states.now.items number) }
{
    if number <= floor {
        return None;
    }
    match states.get((number - floor - 1) as usize) {
        Some(RequestState::Waiting(request)) => Some(request),
        _ => None,
    }
}

/// Whether the request of this number is over.
pub fn is_number_over(states: &VecDeque<RequestState>, floor: u64, number: u64) -> bool
    ensures { result ≡ is_over (state_of floor states.now.items number) }
{
    if number <= floor {
        return number != 0;
    }
    matches!(
        states.get((number - floor - 1) as usize),
        Some(RequestState::Over)
    )
}

/// Drops the first slots while they are over, and raises the floor past their numbers.
pub fn raise_front(states: &mut VecDeque<RequestState>, floor: u64) -> u64
    requires { floor + length states.old.items < 2 ^ 64 }
    ensures raised { IsRaised floor states.old.items result states.new.items }
    ensures capacity { deque_capacity states.new ≡ deque_capacity states.old }
{
    let mut raised = floor;
    while let Some(RequestState::Over) = states.front() {
        states.pop_front();
        raised += 1;
    }
    raised
}

/// Drops the pending request of a number above the floor, and raises the floor.
pub fn settle_state(states: &mut VecDeque<RequestState>, floor: u64, number: u64) -> u64
    requires above { floor < number }
    requires within { number ≤ floor + length states.old.items }
    requires numbered { floor + length states.old.items < 2 ^ 64 }
    ensures raised { IsRaised floor (slice_set states.old.items (number - floor - 1) OverSlot) result states.new.items }
    ensures capacity { deque_capacity states.new ≡ deque_capacity states.old }
{
    states[(number - floor - 1) as usize] = RequestState::Over;
    raise_front(states, floor)
}
