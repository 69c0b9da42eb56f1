use super::done::added;
use crate::checks::check;
use chord_history::History;
use std::alloc::{AllocError, Global};

/// Adds the calls 1 and 2 of caller 1. Gives how many calls the history had before each and has
/// behind the last.
fn add_two(alloc: Global, history: &mut History) -> Result<[usize; 3], AllocError> {
    let first = added(alloc, 1, 1)?;
    let second = added(alloc, 1, 2)?;
    let none = history.calls().len();
    history.reserve()?;
    history.add(first);
    let one = history.calls().len();
    history.reserve()?;
    history.add(second);
    Ok([none, one, history.calls().len()])
}

#[test]
fn a_history_has_what_was_added_in_order(rt: HostRuntime) {
    let alloc = rt.alloc();
    let mut history = History::new(alloc);
    check!(&rt; add_two(alloc, &mut history).ok() == Some([0, 1, 2]));
    let same = match (history.calls(), added(alloc, 1, 1), added(alloc, 1, 2)) {
        ([first, second], Ok(one), Ok(two)) => *first == one && *second == two,
        _ => false,
    };
    check!(&rt; same, "the calls are equal to those that were added");
}
