//! What a caller submitted, by number.
ghost use Rattle.std.specs.Prelude.{◌≡◌, ◌<◌, ◌≤◌, length, slice_get};
ghost use Rattle.std.specs.Option.{option_copied};
ghost use Rattle.std.specs.Vec.{vec_len, vec_capacity};
ghost use Rattle.chord_caller.specs.Submitted.{submitted_at, IsFloor, AreSettled, IsPending, Settles, GivesUp};

use crate::told::Told;
use chord_map::{Done, Request};
use std::mem::replace;

/// The progress of a submitted request.
#[derive(Debug, Drop)]
pub enum RequestProgress {
    Pending(Request),
    /// Its reply was taken. The request is in the taken call at this index.
    Taken(usize),
    /// It was given up.
    GivenUp(Request),
}

/// A submitted request, and how many calls its caller
/// had taken, and had been told of by notes, before it.
#[derive(Debug, Drop)]
pub struct Submitted {
    pub progress: RequestProgress,
    pub mine_seen: u64,
    pub told_seen: u64,
}

/// The submission of this number, counted from 1.
pub fn submission(submitted: &[Submitted], number: u64) -> Option<&Submitted>
    ensures { option_copied result ≡ submitted_at number submitted.now }
{
    if number == 0 {
        return None;
    }
    submitted.get((number - 1) as usize)
}

/// The call at this index.
pub fn done_in(dones: &[Done], place: usize) -> Option<&Done>
    ensures { option_copied result ≡ slice_get dones.now place }
{
    dones.get(place)
}

/// Raises a floor to the greatest number with the requests of all numbers up to it settled.
pub fn raise_floor(submitted: &[Submitted], floor: u64) -> u64
    requires within { floor ≤ length submitted.now }
    requires settled { AreSettled floor submitted.now }
    ensures { IsFloor result submitted.now }
{
    let mut floor = floor as usize;
    while floor < submitted.len() {
        if let RequestProgress::Pending(_) = submitted[floor].progress {
            break;
        }
        floor += 1;
    }
    floor as u64
}

/// Moves the reply's pending request to the end of the taken calls, with the reply.
pub fn settle(submitted: &mut Vec<Submitted>, mine: &mut Vec<Done>, told: Told)
    requires pending { IsPending told.number submitted.old.items }
    requires room { vec_len mine.old < vec_capacity mine.old }
    ensures { Settles told submitted.old.items mine.old.items submitted.new.items mine.new.items }
{
    let place = mine.len();
    let entry = &mut submitted[(told.number - 1) as usize];
    if let RequestProgress::Pending(request) = replace(
        &mut entry.progress,
        RequestProgress::Taken(place),
    ) {
        mine.push_reserved(Done {
            caller: told.caller,
            number: told.number,
            request,
            reply: told.reply,
        });
    }
}

/// Makes the pending request of this number one that was given up.
pub fn give_up_at(submitted: &mut Vec<Submitted>, number: u64)
    requires { IsPending number submitted.old.items }
    ensures { GivesUp number submitted.old.items submitted.new.items }
{
    let entry = &mut submitted[(number - 1) as usize];
    if let RequestProgress::Pending(request) = replace(
        &mut entry.progress,
        RequestProgress::Taken(0),
    ) {
        entry.progress = RequestProgress::GivenUp(request);
    }
}
