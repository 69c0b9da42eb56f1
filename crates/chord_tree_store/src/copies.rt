//! Copies of pairs, put into order.
ghost use Rattle.std.specs.Prelude.{◌≡◌, List};
ghost use Rattle.chord_map.specs.declared.pair.Pair.{Pair as PairOf};
ghost use Rattle.chord_map.specs.Map.{pair_cmp};
ghost use Rattle.chord_map.specs.Pairs.{IsRising};
ghost use Rattle.chord_tree_store.specs.Copied.{AreCopies};

use chord_map::Pair;
use std::cmp::Ordering;

// The order of pairs: by key, and then by value.
fn compare(a: &Pair, b: &Pair) -> Ordering
    ensures { result ≡ pair_cmp a.now b.now }
{
    match a.key.cmp(&b.key) {
        Ordering::Equal => a.value.cmp(&b.value),
        apart => apart,
    }
}

/// Puts copies of the pairs of a map into the map's order. It takes no memory.
pub fn sort(copies: &mut Vec<Pair>)
    ensures { (pairs : List PairOf) → IsRising pairs → AreCopies pairs copies.old.items → copies.new.items ≡ pairs }
{
    copies.sort_unstable_by(
        |a: &Pair, b: &Pair| -> Ordering
            ensures { result ≡ pair_cmp a.now b.now }
        { compare(a, b) },
    );
}
