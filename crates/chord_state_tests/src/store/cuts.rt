//! Where a span is cut, for pairs that anybody counts.
ghost use Rattle.std.specs.Prelude.{◌<◌};

use crate::checks::check;
use chord_ident::{Id, Span};
use chord_map::PairList;
use chord_store::{CountSpan, cut_after};
use std::alloc::{AllocError, Global};
use std::test::Fail;

// Identifiers of keys: the first 128 bits of their SHA-1 digests, in the order of the circle.
const ID_OF_C: u128 = 0x84a5_1684_1ba7_7a5b_4648_de2c_d0df_cb30;

const ID_OF_A: u128 = 0x86f7_e437_faa5_a7fc_e15d_1ddc_b9ea_eaea;

const ID_OF_B: u128 = 0xe9d7_1f5e_e7c9_2d6d_c9e9_2ffd_ad17_b8bd;

// One pair under c, two under a, and one under b.
fn four_pairs(alloc: Global) -> Result<PairList, AllocError> {
    let mut pairs = PairList::new(alloc);
    pairs.insert(b"a", b"x")?;
    pairs.insert(b"a", b"y")?;
    pairs.insert(b"b", b"x")?;
    pairs.insert(b"c", b"x")?;
    Ok(pairs)
}

// The span from 0 on.
fn up_to(number: u128) -> Span {
    Span::new(Id::new(0), Id::new(number))
}

#[test]
fn pairs_are_counted_by_spans(rt: HostRuntime) -> Result<(), Fail> {
    let pairs = four_pairs(rt.alloc())?;
    let counts = [ID_OF_C, ID_OF_A, ID_OF_B, 0].map(|upto| pairs.count_span(&up_to(upto)));
    drop(pairs);
    check!(&rt; counts == [1, 3, 4, 4]);
    Ok(())
}

// Where the span from 0 on is cut so that at least `n` pairs lie before the cut.
fn cut_by(pairs: &PairList, upto: u128, n: u64) -> Option<Id>
    requires { 0 < n }
{
    cut_after(pairs, up_to(upto), n, 0)
}

// A cut that no few looks find is the first one with enough pairs before it. The end of a span is
// no cut of it.
#[test]
fn a_span_is_cut_at_the_first_identifier_with_enough_pairs(rt: HostRuntime) -> Result<(), Fail> {
    let pairs = four_pairs(rt.alloc())?;
    let whole = [
        cut_by(&pairs, 0, 1),
        cut_by(&pairs, 0, 2),
        cut_by(&pairs, 0, 3),
        cut_by(&pairs, 0, 4),
        cut_by(&pairs, 0, 5),
    ];
    let lower = cut_by(&pairs, ID_OF_B, 4);
    drop(pairs);
    let [c, a, b] = [ID_OF_C, ID_OF_A, ID_OF_B].map(|id| Some(Id::new(id)));
    check!(&rt; whole == [c, a, a, b, None]);
    check!(&rt; lower == None);
    Ok(())
}
