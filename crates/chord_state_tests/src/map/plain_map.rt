use super::samples::{equal, one_value};
use crate::checks::check;
use chord_map::{Bytes, PlainMap, Reply, Request, SharedValues};
use std::alloc::{AllocError, Global};

// The reply to the request, if the request is valid and memory does not run out.
fn told(map: &mut PlainMap, request: &Request) -> Option<Reply> {
    if request.check().is_err() {
        return None;
    }
    map.apply(request).ok()
}

// Whether this is the reply to the request.
fn tells(map: &mut PlainMap, request: Result<Request, AllocError>, reply: &Reply) -> Option<bool> {
    let request = request.ok()?;
    let found = told(map, &request);
    drop(request);
    let is_told = match &found {
        Some(found) => Some(found == reply),
        None => None,
    };
    drop(found);
    is_told
}

// Whether the values found under `abc` are these.
fn finds(alloc: Global, map: &mut PlainMap, values: SharedValues) -> Option<bool> {
    let wanted = Reply::Values(values);
    let is_found = tells(map, Request::retrieve(alloc, b"abc"), &wanted);
    drop(wanted);
    is_found
}

// Whether x alone is found under `abc`, and a copy of the reply is equal to it.
fn finds_x(alloc: Global, map: &mut PlainMap) -> Option<bool> {
    let request = Request::retrieve(alloc, b"abc").ok()?;
    let found = told(map, &request);
    drop(request);
    let found = found?;
    let copy = found.try_copy().ok();
    let is_found = equal(one_value(alloc, b"x").ok(), Some(found));
    let is_copied = equal(copy, one_value(alloc, b"x").ok());
    Some(is_found? & is_copied?)
}

// Whether this is the reply to an insert of x under `abc`.
fn inserts(alloc: Global, map: &mut PlainMap, reply: Reply) -> Option<bool> {
    tells(map, Request::insert(alloc, b"abc", b"x"), &reply)
}

// Whether this is the reply to a remove of x under `abc`.
fn removes(alloc: Global, map: &mut PlainMap, reply: Reply) -> Option<bool> {
    tells(map, Request::remove(alloc, b"abc", b"x"), &reply)
}

#[test]
fn inserts_retrieves_and_removes(rt: HostRuntime) {
    let alloc = rt.alloc();
    let mut map = PlainMap::new(alloc);
    let are_told = [
        finds(alloc, &mut map, SharedValues::empty()),
        inserts(alloc, &mut map, Reply::Added),
        inserts(alloc, &mut map, Reply::Present),
        finds_x(alloc, &mut map),
        removes(alloc, &mut map, Reply::Removed),
        removes(alloc, &mut map, Reply::Absent),
    ];
    drop(map);
    check!(&rt; are_told == [Some(true); 6]);
}

// Whether this is the reply to an insert of the value under `a`.
fn inserts_into_set(
    alloc: Global,
    map: &mut PlainMap,
    value: &[u8],
    reply: &Reply,
) -> Option<bool> {
    tells(map, Request::insert(alloc, b"a", value), reply)
}

// Whether each of the values 0000 to 0999 is added under `a`.
fn is_filled(alloc: Global, map: &mut PlainMap) -> Option<bool> {
    for n in 0..1000u32 {
        let value = format!(in alloc; "{n:04}").ok()?;
        if !inserts_into_set(alloc, map, value.as_bytes(), &Reply::Added)? {
            return Some(false);
        }
    }
    Some(true)
}

#[test]
fn fills_a_set(rt: HostRuntime) {
    let alloc = rt.alloc();
    let mut map = PlainMap::new(alloc);
    let are_told = [
        is_filled(alloc, &mut map),
        inserts_into_set(alloc, &mut map, b"1000", &Reply::SetFull),
        inserts_into_set(alloc, &mut map, b"0999", &Reply::Present),
        tells(
            &mut map,
            Request::remove(alloc, b"a", b"0000"),
            &Reply::Removed,
        ),
        inserts_into_set(alloc, &mut map, b"1000", &Reply::Added),
    ];
    drop(map);
    check!(&rt; are_told == [Some(true); 5]);
}

// The request to add the value [n], tried again if memory was refused.
fn insert_of(alloc: Global, n: u8) -> Result<Request, AllocError> {
    match Request::insert(alloc, b"a", &[n]) {
        Ok(request) => Ok(request),
        Err(_) => Request::insert(alloc, b"a", &[n]),
    }
}

// Whether this is the value [n].
fn is_number(value: &Bytes, n: u8) -> bool {
    value.as_slice() == [n].as_slice()
}

// Whether these are [0], [1] and so on, below `end`.
fn are_below(values: &SharedValues, end: u8) -> bool {
    let mut rest = values.as_slice().iter();
    for n in 0..end {
        match rest.next() {
            Some(value) if is_number(value, n) => {}
            _ => return false,
        }
    }
    rest.next().is_none()
}

// Whether the values under `a` are those below `end`. A retrieve refused memory is tried again.
fn ends_at(alloc: Global, map: &mut PlainMap, end: u8) -> bool {
    let Ok(request) = Request::retrieve(alloc, b"a") else {
        return false;
    };
    let found = match told(map, &request) {
        Some(found) => Some(found),
        None => told(map, &request),
    };
    drop(request);
    let is_end = match &found {
        Some(Reply::Values(values)) => are_below(values, end),
        _ => false,
    };
    drop(found);
    is_end
}

// Whether the reply is Added, with memory for it.
fn adds(map: &mut PlainMap, request: &Request) -> Option<bool> {
    equal(told(map, request), Some(Reply::Added))
}

// Whether [n] is added. If memory was refused, the values
// must be those below it, and a second try adds it.
fn adds_at_last(alloc: Global, map: &mut PlainMap, n: u8) -> bool {
    let Ok(request) = insert_of(alloc, n) else {
        return false;
    };
    let is_added = match adds(map, &request) {
        Some(is_added) => is_added,
        None => ends_at(alloc, map, n) && adds(map, &request) == Some(true),
    };
    drop(request);
    is_added
}

// With ample memory nothing is refused.
#[test]
fn a_refused_growth_leaves_the_map(rt: HostRuntime) {
    let alloc = rt.alloc();
    let mut map = PlainMap::new(alloc);
    for n in 0..12 {
        assert!(rt; adds_at_last(alloc, &mut map, n), "at {n}");
    }
    check!(&rt; ends_at(alloc, &mut map, 12));
    drop(map);
}
