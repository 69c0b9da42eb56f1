use super::samples::equal;
use crate::checks::check;
use chord_map::{Done, Reply, Request, copy_dones, find_done};
use std::alloc::{AllocError, Global};

/// The call of this caller and number, which added x under a.
pub fn added(alloc: Global, caller: u64, number: u64) -> Result<Done, AllocError> {
    Ok(Done {
        caller,
        number,
        request: Request::insert(alloc, b"a", b"x")?,
        reply: Reply::Added,
    })
}

/// Adds two calls of caller 1.
fn add_two(alloc: Global, dones: &mut Vec<Done>) -> Result<(), AllocError> {
    dones.push(added(alloc, 1, 1)?)?;
    dones.push(added(alloc, 1, 2)?)?;
    Ok(())
}

/// Two calls of caller 1.
fn two(alloc: Global) -> Result<Vec<Done>, AllocError> {
    let mut dones = Vec::new(alloc);
    match add_two(alloc, &mut dones) {
        Ok(()) => Ok(dones),
        Err(fault) => {
            drop(dones);
            Err(fault)
        }
    }
}

/// The number of the call that is found among the two.
fn number_found(alloc: Global, caller: u64, number: u64) -> Option<u64> {
    let dones = two(alloc).ok()?;
    let found = match find_done(&dones, caller, number) {
        Some(done) => Some(done.number),
        None => None,
    };
    drop(dones);
    found
}

#[test]
fn a_call_is_found_by_caller_and_number(rt: HostRuntime) {
    let alloc = rt.alloc();
    let found = [
        number_found(alloc, 1, 2),
        number_found(alloc, 1, 3),
        number_found(alloc, 2, 1),
    ];
    check!(&rt; found == [Some(2), None, None]);
}

/// Whether copies of the two are equal to them.
fn copies_are_equal(alloc: Global) -> Option<bool> {
    let dones = two(alloc).ok()?;
    let copies = copy_dones(alloc, &dones).ok();
    equal(copies, Some(dones))
}

/// Whether a copy of a call is equal to it.
fn copy_is_equal(alloc: Global) -> Option<bool> {
    let done = added(alloc, 1, 2).ok()?;
    let copy = done.try_copy().ok();
    equal(copy, Some(done))
}

/// Whether two calls are equal if each has the other's number as its caller.
fn others_are_equal(alloc: Global) -> Option<bool> {
    equal(added(alloc, 1, 2).ok(), added(alloc, 2, 1).ok())
}

#[test]
fn calls_are_copied(rt: HostRuntime) {
    let alloc = rt.alloc();
    let are_equal = [
        copies_are_equal(alloc),
        copy_is_equal(alloc),
        others_are_equal(alloc),
    ];
    check!(&rt; are_equal == [Some(true), Some(true), Some(false)]);
}
