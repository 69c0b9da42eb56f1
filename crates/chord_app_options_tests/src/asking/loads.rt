//! The size of loads, and whose their values are.

use crate::asking::serving::{client_of, load_of};
use crate::checks::check;
use chord_app_ask::{Kind, Load, Tokens};

#[test]
fn shares_of_connections(rt: HostRuntime) {
    let load = Load {
        connections: 4,
        ..load_of(client_of(2, 1, 3, None), Kind::Insert, 10)
    };
    for (connection, share) in [(0, 3), (1, 3), (2, 2), (3, 2)] {
        check!(&rt; load.share(connection) == share);
    }
}

/// Values are of one load alone where it inserts some of 16 bytes at least, in sessions whose
/// connections are cut.
#[test]
fn values_that_nobody_else_inserts(rt: HostRuntime) {
    let tokens = Some(Tokens::new(&rt).expect(&rt, "random bytes"));
    let cut = load_of(client_of(2, 1, 3, tokens), Kind::Insert, 10);
    let drops = cut.drops;
    for (kind, value_size, tokens, drops, is_unique, rule) in [
        (Kind::Insert, 16, tokens, drops, true, "16 bytes are enough"),
        (Kind::Insert, 4096, tokens, drops, true, "and so are more"),
        (
            Kind::Insert,
            15,
            tokens,
            drops,
            false,
            "15 bytes are too few",
        ),
        (
            Kind::Retrieve,
            16,
            tokens,
            drops,
            false,
            "nothing is inserted",
        ),
        (
            Kind::Insert,
            16,
            tokens,
            None,
            false,
            "no connection is cut",
        ),
        (Kind::Insert, 16, None, drops, false, "no session goes on"),
    ] {
        let load = Load {
            kind,
            value_size,
            tokens,
            drops,
            ..cut
        };
        check!(&rt; load.has_unique_values() == is_unique, rule);
    }
}
