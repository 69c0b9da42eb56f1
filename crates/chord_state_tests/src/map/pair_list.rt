use crate::checks::check;
use chord_map::{Pair, PairList, Values};
use std::alloc::AllocError;

// Adds the pairs (a, x), (a, y) and (b, x), from the last to the first.
fn put_three(pairs: &mut PairList) -> Result<(), AllocError> {
    for (key, value) in [(b"b", b"x"), (b"a", b"y"), (b"a", b"x"), (b"a", b"x")] {
        pairs.insert(key, value)?;
    }
    Ok(())
}

fn is_of(pair: &Pair, key: &[u8], value: &[u8]) -> bool {
    pair.key.as_slice() == key && pair.value.as_slice() == value
}

#[test]
fn keeps_a_pair_once(rt: HostRuntime) {
    let mut pairs = PairList::new(rt.alloc());
    let are_put = put_three(&mut pairs).is_ok();
    let are_counted = (pairs.len() == 3) & (pairs.count_under(b"a") == 2);
    let has_one = pairs.contains(b"b", b"x") & !pairs.contains(b"b", b"y");
    check!(&rt; are_put & are_counted & has_one);
    drop(pairs);
}

// Whether the pair and a copy of it have this key and value.
fn is_of_as_copied(pair: &Pair, key: &[u8], value: &[u8]) -> bool {
    let Ok(copy) = pair.try_copy() else {
        return false;
    };
    let are_of = is_of(pair, key, value) & is_of(&copy, key, value);
    drop(copy);
    are_of
}

// Whether these, and a copy of each, are the three pairs in order.
fn are_in_order(pairs: &[Pair]) -> bool {
    match pairs {
        [first, second, third] => {
            is_of_as_copied(first, b"a", b"x")
                & is_of_as_copied(second, b"a", b"y")
                & is_of_as_copied(third, b"b", b"x")
        }
        _ => false,
    }
}

#[test]
fn keeps_pairs_in_order(rt: HostRuntime) {
    let mut pairs = PairList::new(rt.alloc());
    let are_put = put_three(&mut pairs).is_ok();
    check!(&rt; are_put & are_in_order(pairs.as_slice()));
    drop(pairs);
}

// Whether these are two values, the first of which is x.
fn begin_with_x(values: Values) -> bool {
    let begin_with_x = match values.as_slice() {
        [first, _] => first.as_slice() == b"x".as_slice(),
        _ => false,
    };
    drop(values);
    begin_with_x
}

#[test]
fn copies_the_values_of_a_key(rt: HostRuntime) {
    let alloc = rt.alloc();
    let mut pairs = PairList::new(alloc);
    let are_put = put_three(&mut pairs).is_ok();
    let is_copied = match pairs.values(alloc, b"a") {
        Ok(values) => begin_with_x(values),
        Err(_) => false,
    };
    drop(pairs);
    check!(&rt; are_put & is_copied);
}

#[test]
fn removes_a_pair(rt: HostRuntime) {
    let mut pairs = PairList::new(rt.alloc());
    let are_put = put_three(&mut pairs).is_ok();
    let was_there = pairs.remove(b"a", b"y");
    let is_there = pairs.remove(b"a", b"y");
    check!(&rt; are_put & was_there & !is_there & (pairs.len() == 2));
    drop(pairs);
}

#[test]
fn retains_pairs(rt: HostRuntime) {
    let mut pairs = PairList::new(rt.alloc());
    let are_put = put_three(&mut pairs).is_ok();
    pairs.retain(|pair| pair.key.as_slice() == b"b".as_slice());
    check!(&rt; are_put & (pairs.len() == 1) & pairs.contains(b"b", b"x"));
    drop(pairs);
}

// Whether this is the pair with the key [n].
fn has_key(pair: &Pair, n: u8) -> bool {
    pair.key.as_slice() == [n].as_slice()
}

// Whether these are the pairs with the keys [0], [1] and so on, below `end`.
fn ends_at(pairs: &PairList, end: u8) -> bool {
    let mut rest = pairs.as_slice().iter();
    for n in 0..end {
        match rest.next() {
            Some(pair) if has_key(pair, n) => {}
            _ => return false,
        }
    }
    rest.next().is_none()
}

// Whether the pair of [n] is added. If memory was refused,
// the others must be unchanged, and a second try adds it.
fn adds_at_last(pairs: &mut PairList, n: u8) -> bool {
    pairs.insert(&[n], b"x").is_ok() || (ends_at(pairs, n) && pairs.insert(&[n], b"x").is_ok())
}

// With ample memory nothing is refused.
#[test]
fn a_refused_growth_leaves_the_pairs(rt: HostRuntime) {
    let mut pairs = PairList::new(rt.alloc());
    for n in 0..12 {
        assert!(rt; adds_at_last(&mut pairs, n), "at {n}");
    }
    check!(&rt; ends_at(&pairs, 12));
    drop(pairs);
}
