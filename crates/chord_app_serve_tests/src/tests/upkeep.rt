//! How upkeep rests, and which identifier a node gets that joins without one.

use crate::checks::check;
use chord_app_serve::{Gap, Pace, free_id};
use chord_ident::Id;
use chord_live_ring::Round;

const A: u128 = 0x40000000000000000000000000000000;

const B: u128 = 0x80000000000000000000000000000000;

const C: u128 = 0xc0000000000000000000000000000000;

/// The pace after this many quiet rounds in a row.
fn after_quiet(rounds: u64) -> Pace {
    let mut pace = Pace::new();
    for _ in 0..rounds {
        pace = pace.after(Round::Quiet);
    }
    pace
}

/// A rest takes a millisecond, behind 1,000 quiet rounds twice as long each time, at most 250.
#[test]
fn quiet_rounds_follow_more_slowly(rt: HostRuntime) {
    for (rounds, rest) in [
        (0, 1),
        (1, 1),
        (999, 1),
        (1_000, 2),
        (1_001, 4),
        (1_006, 128),
        (1_007, 250),
        (1_008, 250),
    ] {
        assert!(rt; after_quiet(rounds).rest() == rest, "{rounds} quiet rounds");
    }
    let busy = after_quiet(2_000).after(Round::Busy);
    check!(&rt; busy.rest() == 1, "a busy round");
    check!(&rt; busy.after(Round::Quiet).rest() == 1, "and one behind it");
}

fn gap(after: u128, width: u128) -> Gap {
    Gap {
        after: Id::new(after),
        width,
    }
}

/// A gap ends before the next identifier, and is the whole circle but one point where there is
/// none.
#[test]
fn gaps_between_identifiers(rt: HostRuntime) {
    let (a, b, c) = (Id::new(A), Id::new(B), Id::new(C));
    check!(&rt; Gap::behind(a, &[]) == gap(A, u128::MAX), "no identifiers");
    check!(&rt; Gap::behind(a, &[a]) == gap(A, u128::MAX), "itself alone");
    check!(&rt;
        Gap::behind(a, &[c, b, a]) == gap(A, B - A - 1),
        "the next of three"
    );
    check!(&rt;
        Gap::behind(c, &[a, b, c]) == gap(C, B - 1),
        "past the greatest"
    );
    check!(&rt; Gap::widest(&[]) == None, "no identifiers have no gap");
    check!(&rt;
        Gap::widest(&[b, a, c]) == Some(gap(C, B - 1)),
        "the widest of three"
    );
    let tight = Gap::behind(Id::new(7), &[Id::new(7), Id::new(8)]);
    check!(&rt; tight == gap(7, 0), "neighbours");
}

/// An identifier by the middle of a gap, in its second half.
#[test]
fn identifiers_by_the_middle(rt: HostRuntime) {
    check!(&rt; gap(7, 0).by_middle(3) == None, "an empty gap");
    check!(&rt;
        gap(7, 1).by_middle(3) == Some(Id::new(8)),
        "one identifier"
    );
    check!(&rt;
        gap(7, 8).by_middle(0) == Some(Id::new(12)),
        "the middle of eight"
    );
    check!(&rt; gap(7, 8).by_middle(1) == Some(Id::new(13)), "another draw");
    check!(&rt;
        gap(7, 8).by_middle(2) == Some(Id::new(13)),
        "at most an eighth further"
    );
    let last = gap(u128::MAX, 1).by_middle(0);
    check!(&rt; last == Some(Id::new(0)), "past the end of the numbers");
}

/// A node that joins without an identifier gets one that no member has.
#[test]
fn identifiers_for_nodes(rt: HostRuntime) {
    let (a, b, c) = (Id::new(A), Id::new(B), Id::new(C));
    check!(&rt; free_id(&[], 5) == None, "there is no member");
    check!(&rt; free_id(&[a], 0) == Some(c), "opposite the only one");
    check!(&rt;
        free_id(&[a, b, c], 0) == Some(Id::new(0)),
        "opposite B, between C and A"
    );
    check!(&rt; free_id(&[a, b, c], 9) == Some(Id::new(9)), "close to it");
}
