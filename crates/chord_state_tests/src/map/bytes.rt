use super::samples::equal;
use crate::checks::check;
use chord_map::Bytes;
use std::alloc::Global;
use std::cmp::Ordering;

// How the two compare, and whether they are equal, if both were made.
fn compared_all<T: Ord + Drop>(left: Option<T>, right: Option<T>) -> Option<(Ordering, bool)> {
    let (left, right) = left.zip(right)?;
    Some((left.cmp(&right), left == right))
}

// How two byte strings compare, and whether they are equal.
fn compared(alloc: Global, left: &[u8], right: &[u8]) -> Option<(Ordering, bool)> {
    compared_all(
        Bytes::from_slice(alloc, left).ok(),
        Bytes::from_slice(alloc, right).ok(),
    )
}

#[test]
fn bytes_compare_one_by_one(rt: HostRuntime) {
    let alloc = rt.alloc();
    let less = Some((Ordering::Less, false));
    let found = [
        compared(alloc, b"", b""),
        compared(alloc, b"a", b"aa"),
        compared(alloc, b"b", b"aa"),
        compared(alloc, &[127], &[128]),
    ];
    let same = Some((Ordering::Equal, true));
    check!(&rt; found == [same, less, Some((Ordering::Greater, false)), less]);
}

// Up to 24 bytes are stored inline, more in a block of 63, 127 or 255, and more than that in a
// vector.
#[test]
fn short_and_long_bytes_compare(rt: HostRuntime) {
    let alloc = rt.alloc();
    let less = Some((Ordering::Less, false));
    let found = [
        compared(alloc, &[7; 24], &[7; 25]),
        compared(alloc, &[7; 25], &[8; 24]),
        compared(alloc, &[7; 63], &[7; 64]),
        compared(alloc, &[7; 64], &[8; 63]),
        compared(alloc, &[7; 127], &[7; 128]),
        compared(alloc, &[7; 255], &[7; 256]),
        compared(alloc, &[7; 25], &[7; 25]),
        compared(alloc, &[7; 64], &[7; 64]),
    ];
    let same = Some((Ordering::Equal, true));
    check!(&rt; found == [less, less, less, less, less, less, same, same]);
}

// Whether the copy was made and has these bytes.
fn is_copy(copy: Option<Bytes>, bytes: &[u8]) -> Option<bool> {
    let copy = copy?;
    let is_same = copy.as_slice() == bytes;
    drop(copy);
    Some(is_same)
}

// Whether the bytes of a vector, a copy of them and a copy of the vector's slice are equal.
fn are_all_equal(alloc: Global, bytes: &[u8]) -> Option<bool> {
    let vector = Bytes::from_vec(bytes.to_vec(alloc).ok()?);
    let copy = vector.try_copy().ok();
    let is_same = vector.as_slice() == bytes;
    let of_slice = Bytes::from_slice(alloc, bytes).ok();
    let is_equal = equal(of_slice, Some(vector));
    let is_copied = is_copy(copy, bytes);
    Some(is_same & is_equal? & is_copied?)
}

#[test]
fn bytes_are_the_same_wherever_they_stand(rt: HostRuntime) {
    let alloc = rt.alloc();
    let are_equal = [
        are_all_equal(alloc, b"x"),
        are_all_equal(alloc, &[7; 24]),
        are_all_equal(alloc, &[7; 25]),
        are_all_equal(alloc, &[7; 63]),
        are_all_equal(alloc, &[7; 64]),
        are_all_equal(alloc, &[7; 127]),
        are_all_equal(alloc, &[7; 255]),
        are_all_equal(alloc, &[7; 256]),
        are_all_equal(alloc, &[7; 4096]),
    ];
    check!(&rt; are_equal == [Some(true); 9]);
}

// Whether a copy of a copy has these bytes once both that it was made of are dropped.
fn outlives(alloc: Global, bytes: &[u8]) -> Option<bool> {
    let first = Bytes::from_slice(alloc, bytes).ok()?;
    let second = first.try_copy().ok();
    drop(first);
    let second = second?;
    let third = second.try_copy().ok();
    drop(second);
    is_copy(third, bytes)
}

#[test]
fn a_copy_outlives_what_it_was_made_of(rt: HostRuntime) {
    let alloc = rt.alloc();
    let found = [
        outlives(alloc, &[7; 24]),
        outlives(alloc, &[7; 25]),
        outlives(alloc, &[7; 63]),
        outlives(alloc, &[7; 127]),
        outlives(alloc, &[7; 255]),
        outlives(alloc, &[7; 256]),
    ];
    check!(&rt; found == [Some(true); 6]);
}
