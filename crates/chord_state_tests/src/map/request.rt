use super::samples::{equal, one_value};
use crate::checks::check;
use chord_map::{Reply, Request, RequestFault};
use std::alloc::{AllocError, Global};

/// The result of the request's check.
fn checked(request: Result<Request, AllocError>) -> Option<Result<(), RequestFault>> {
    let request = request.ok()?;
    let checked = request.check();
    drop(request);
    Some(checked)
}

#[test]
fn keys_have_limits(rt: HostRuntime) {
    let alloc = rt.alloc();
    let long = [7u8; 256];
    let found = [
        checked(Request::retrieve(alloc, &[])),
        checked(Request::retrieve(alloc, &long[..1])),
        checked(Request::retrieve(alloc, &long[..255])),
        checked(Request::retrieve(alloc, &long)),
    ];
    let empty = Some(Err(RequestFault::KeyEmpty));
    let fits = Some(Ok(()));
    check!(&rt; found == [empty, fits, fits, Some(Err(RequestFault::KeyLong))]);
}

#[test]
fn values_have_limits(rt: HostRuntime) {
    let alloc = rt.alloc();
    let long = [7u8; 4097];
    let found = [
        checked(Request::insert(alloc, b"a", &[])),
        checked(Request::insert(alloc, b"a", &long[..4096])),
        checked(Request::insert(alloc, b"a", &long)),
        checked(Request::remove(alloc, b"a", &long)),
        checked(Request::remove(alloc, &[], &long)),
    ];
    let fits = Some(Ok(()));
    let long = Some(Err(RequestFault::ValueLong));
    check!(&rt; found == [fits, fits, long, long, Some(Err(RequestFault::KeyEmpty))]);
}

/// Whether the fault has this text.
fn reads(alloc: Global, fault: RequestFault, text: &str) -> Option<bool> {
    let made = format!(in alloc; "{fault}").ok()?;
    Some(made.as_str() == text)
}

#[test]
fn tells_its_fault(rt: HostRuntime) {
    for (fault, text) in [
        (RequestFault::KeyEmpty, "the key is empty"),
        (RequestFault::KeyLong, "the key has more than 255 bytes"),
        (
            RequestFault::ValueLong,
            "the value has more than 4096 bytes",
        ),
    ] {
        check!(&rt; reads(rt.alloc(), fault, text) == Some(true), text);
    }
}

/// Whether a copy of the request is equal to it.
fn is_its_copy(request: Result<Request, AllocError>) -> Option<bool> {
    let request = request.ok()?;
    let copy = request.try_copy().ok();
    equal(copy, Some(request))
}

/// Whether the request is equal to the one to insert x under `abc`.
fn is_insert(alloc: Global, request: Result<Request, AllocError>) -> Option<bool> {
    equal(Request::insert(alloc, b"abc", b"x").ok(), request.ok())
}

/// Whether the request names this key and this value.
fn names(request: Result<Request, AllocError>, key: &[u8], value: &[u8]) -> Option<bool> {
    let request = request.ok()?;
    let is_named = (request.key() == key) & (request.value() == value);
    drop(request);
    Some(is_named)
}

#[test]
fn copies(rt: HostRuntime) {
    let alloc = rt.alloc();
    let are_copies = [
        is_its_copy(Request::insert(alloc, b"abc", b"x")),
        is_its_copy(Request::retrieve(alloc, b"abc")),
        is_its_copy(Request::remove(alloc, b"abc", b"x")),
    ];
    check!(&rt; are_copies == [Some(true); 3]);
}

#[test]
fn compares(rt: HostRuntime) {
    let alloc = rt.alloc();
    let (is, is_not) = (Some(true), Some(false));
    let retrieve = Request::retrieve(alloc, b"abc").ok();
    let are_equal = [
        is_insert(alloc, Request::insert(alloc, b"abc", b"x")),
        is_insert(alloc, Request::insert(alloc, b"abc", b"y")),
        is_insert(alloc, Request::remove(alloc, b"abc", b"x")),
        is_insert(alloc, Request::retrieve(alloc, b"abc")),
        equal(retrieve, Request::retrieve(alloc, b"ab").ok()),
    ];
    check!(&rt; are_equal == [is, is_not, is_not, is_not, is_not]);
}

#[test]
fn names_its_key_and_value(rt: HostRuntime) {
    let alloc = rt.alloc();
    let are_named = [
        names(Request::insert(alloc, b"abc", b"x"), b"abc", b"x"),
        names(Request::remove(alloc, b"abc", b"x"), b"abc", b"x"),
        names(Request::retrieve(alloc, b"abc"), b"abc", b""),
    ];
    check!(&rt; are_named == [Some(true); 3]);
}

/// Whether the reply fits the request.
fn fits(reply: &Reply, request: Result<Request, AllocError>) -> Option<bool> {
    let request = request.ok()?;
    let fits = reply.fits(&request);
    drop(request);
    Some(fits)
}

/// Whether the reply fits an insert, a retrieve and a remove.
fn fitting(alloc: Global, reply: Reply) -> [Option<bool>; 3] {
    let fitting = [
        fits(&reply, Request::insert(alloc, b"a", b"x")),
        fits(&reply, Request::retrieve(alloc, b"a")),
        fits(&reply, Request::remove(alloc, b"a", b"x")),
    ];
    drop(reply);
    fitting
}

/// Whether the reply with the value x fits an insert, a retrieve and a remove.
fn fitting_values(alloc: Global) -> Option<[Option<bool>; 3]> {
    Some(fitting(alloc, one_value(alloc, b"x").ok()?))
}

#[test]
fn knows_the_replies_of_its_kind(rt: HostRuntime) {
    let alloc = rt.alloc();
    let (is, is_not) = (Some(true), Some(false));
    let found = [
        fitting(alloc, Reply::Added),
        fitting(alloc, Reply::Present),
        fitting(alloc, Reply::SetFull),
        fitting(alloc, Reply::Removed),
        fitting(alloc, Reply::Absent),
    ];
    let of_insert = [is, is_not, is_not];
    let of_remove = [is_not, is_not, is];
    check!(&rt; found == [of_insert, of_insert, of_insert, of_remove, of_remove]);
    check!(&rt; fitting_values(alloc) == Some([is_not, is, is_not]));
}

/// Whether the reply is equal to the one with the value x.
fn is_x(alloc: Global, reply: Option<Reply>) -> Option<bool> {
    equal(one_value(alloc, b"x").ok(), reply)
}

#[test]
fn replies_are_compared(rt: HostRuntime) {
    let alloc = rt.alloc();
    let are_x = [
        is_x(alloc, one_value(alloc, b"x").ok()),
        is_x(alloc, one_value(alloc, b"y").ok()),
        is_x(alloc, Some(Reply::Added)),
    ];
    check!(&rt; are_x == [Some(true), Some(false), Some(false)]);
}
