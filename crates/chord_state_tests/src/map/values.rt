use super::samples::equal;
use crate::checks::check;
use chord_map::{Bytes, Values};
use std::alloc::{AllocError, Global};

// Adds a value for each letter.
fn fill(alloc: Global, values: &mut Values, letters: &[u8]) -> Result<(), AllocError> {
    for letter in letters {
        values.push(Bytes::from_slice(alloc, &[*letter])?)?;
    }
    Ok(())
}

// Whether this is the value of the letter.
fn is_letter(value: &Bytes, letter: u8) -> bool {
    value.as_slice() == [letter].as_slice()
}

// Whether there is a value for each letter, in the order given.
fn are_of(values: &Values, letters: &[u8]) -> bool {
    let mut rest = values.as_slice().iter();
    for letter in letters {
        match rest.next() {
            Some(value) if is_letter(value, *letter) => {}
            _ => return false,
        }
    }
    rest.next().is_none()
}

// Whether these values are those of the letters, in the order given.
fn end_as(values: Values, letters: &[u8]) -> bool {
    let are_of_letters = are_of(&values, letters);
    drop(values);
    are_of_letters
}

#[test]
fn holds_values_in_the_order_given(rt: HostRuntime) {
    let alloc = rt.alloc();
    for letters in [b"".as_slice(), b"x", b"xyz"] {
        let mut values = Values::new(alloc);
        let is_filled = fill(alloc, &mut values, letters).is_ok();
        check!(&rt; is_filled & end_as(values, letters));
    }
}

// Inserts the letter at the index `place`, if that is in range.
fn put(values: &mut Values, place: usize, alloc: Global, letter: u8) -> Result<(), AllocError> {
    if place > values.as_slice().len() {
        return Ok(());
    }
    values.insert(place, Bytes::from_slice(alloc, &[letter])?)
}

#[test]
fn a_value_goes_between_two(rt: HostRuntime) {
    let alloc = rt.alloc();
    let mut values = Values::new(alloc);
    let is_filled = fill(alloc, &mut values, b"xz").is_ok();
    let is_put = put(&mut values, 1, alloc, b'y').is_ok();
    check!(&rt; is_filled & is_put & end_as(values, b"xyz"));
}

#[test]
fn a_value_goes_before_the_only_one(rt: HostRuntime) {
    let alloc = rt.alloc();
    let mut values = Values::new(alloc);
    let is_filled = fill(alloc, &mut values, b"z").is_ok();
    let is_put = put(&mut values, 0, alloc, b'y').is_ok();
    check!(&rt; is_filled & is_put & end_as(values, b"yz"));
}

// Whether the value removed at the index `place` is that of the letter.
fn takes(values: &mut Values, place: usize, letter: u8) -> bool {
    if place >= values.as_slice().len() {
        return false;
    }
    let value = values.remove(place);
    let is_its = is_letter(&value, letter);
    drop(value);
    is_its
}

#[test]
fn a_value_is_taken_out(rt: HostRuntime) {
    let alloc = rt.alloc();
    let mut values = Values::new(alloc);
    let is_filled = fill(alloc, &mut values, b"xyz").is_ok();
    let is_taken = takes(&mut values, 1, b'y');
    check!(&rt; is_filled & is_taken & end_as(values, b"xz"));
}

#[test]
fn the_last_of_two_comes_out(rt: HostRuntime) {
    let alloc = rt.alloc();
    let mut values = Values::new(alloc);
    let is_filled = fill(alloc, &mut values, b"xy").is_ok();
    let is_first_taken = takes(&mut values, 0, b'x') & are_of(&values, b"y");
    let is_last_taken = takes(&mut values, 0, b'y');
    check!(&rt; is_filled & is_first_taken & is_last_taken & end_as(values, b""));
}

#[test]
fn the_only_value_comes_out(rt: HostRuntime) {
    let alloc = rt.alloc();
    let mut values = Values::new(alloc);
    let is_filled = fill(alloc, &mut values, b"x").is_ok();
    let is_taken = takes(&mut values, 0, b'x');
    check!(&rt; is_filled & is_taken & end_as(values, b""));
}

// A value for each letter, in the order given.
fn values_of(alloc: Global, letters: &[u8]) -> Result<Values, AllocError> {
    let mut values = Values::new(alloc);
    match fill(alloc, &mut values, letters) {
        Ok(()) => Ok(values),
        Err(fault) => {
            drop(values);
            Err(fault)
        }
    }
}

// Whether a copy is equal to the values, and to those of the other letters.
fn copy_equals(alloc: Global, letters: &[u8], others: &[u8]) -> Option<[Option<bool>; 2]> {
    let values = values_of(alloc, letters).ok()?;
    let copy = values.try_copy().ok();
    let is_other = equal(values.try_copy().ok(), values_of(alloc, others).ok());
    Some([equal(copy, Some(values)), is_other])
}

#[test]
fn a_copy_is_equal(rt: HostRuntime) {
    let alloc = rt.alloc();
    for letters in [b"".as_slice(), b"x", b"xyz"] {
        let are_equal = copy_equals(alloc, letters, b"xz");
        check!(&rt; are_equal == Some([Some(true), Some(false)]));
    }
}

// Whether the values of a reply are as long as these letters, a copy of them is equal to them once
// they are dropped, and those of the other letters are.
fn shared_equal(
    alloc: Global,
    letters: &[u8],
    others: &[u8],
) -> Option<(usize, [Option<bool>; 2])> {
    let shared = values_of(alloc, letters).ok()?.share().ok()?;
    let count = shared.as_slice().len();
    let copy = shared.try_copy().ok();
    let again = shared.try_copy().ok();
    drop(shared);
    let same = equal(copy, values_of(alloc, letters).ok()?.share().ok());
    let other = equal(again, values_of(alloc, others).ok()?.share().ok());
    Some((count, [same, other]))
}

#[test]
fn copies_of_a_replys_values_are_equal(rt: HostRuntime) {
    let alloc = rt.alloc();
    for letters in [b"".as_slice(), b"x", b"xyz"] {
        let seen = shared_equal(alloc, letters, b"xz");
        check!(&rt; seen == Some((letters.len(), [Some(true), Some(false)])));
    }
}

// Whether a copy of some bytes is equal to them.
fn bytes_are_copied(alloc: Global) -> Option<bool> {
    let bytes = Bytes::from_slice(alloc, b"x").ok()?;
    let copy = bytes.try_copy().ok();
    equal(copy, Some(bytes))
}

#[test]
fn copies_bytes(rt: HostRuntime) {
    check!(&rt; bytes_are_copied(rt.alloc()) == Some(true));
}

// Whether the value of the letter is added, with memory for it.
fn is_pushed(alloc: Global, values: &mut Values, letter: u8) -> bool {
    match Bytes::from_slice(alloc, &[letter]) {
        Ok(value) => values.push(value).is_ok(),
        Err(_) => false,
    }
}

// Whether each letter is added. If memory was refused,
// the values must be unchanged, and a second try adds it.
fn push_each(alloc: Global, values: &mut Values, letters: &[u8]) -> bool {
    for n in 0..letters.len() {
        if !is_pushed(alloc, values, letters[n])
            && !(are_of(values, &letters[..n]) && is_pushed(alloc, values, letters[n]))
        {
            return false;
        }
    }
    true
}

// With ample memory nothing is refused.
#[test]
fn a_refused_push_leaves_the_values(rt: HostRuntime) {
    let letters = b"abcdefghijkl";
    let alloc = rt.alloc();
    let mut values = Values::new(alloc);
    let are_pushed = push_each(alloc, &mut values, letters);
    check!(&rt; are_pushed & end_as(values, letters));
}

// Whether each letter is inserted first, from the last on, as `push_each` adds each.
fn put_each_first(alloc: Global, values: &mut Values, letters: &[u8]) -> bool {
    for n in (0..letters.len()).rev() {
        if put(values, 0, alloc, letters[n]).is_err()
            && !(are_of(values, &letters[n + 1..]) && put(values, 0, alloc, letters[n]).is_ok())
        {
            return false;
        }
    }
    true
}

#[test]
fn a_refused_insert_leaves_the_values(rt: HostRuntime) {
    let letters = b"abcdefghijkl";
    let alloc = rt.alloc();
    let mut values = Values::new(alloc);
    let are_put = put_each_first(alloc, &mut values, letters);
    check!(&rt; are_put & end_as(values, letters));
}
