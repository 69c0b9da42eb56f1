//! Worked values.

use crate::checks::check;
use chord_ident::{HexFault, Id, NotInside, Span, SpanJoinFault, between};
use std::test::Fail;

const A: u128 = 0x40000000000000000000000000000000;

const B: u128 = 0x80000000000000000000000000000000;

const C: u128 = 0xc0000000000000000000000000000000;

fn span(after: u128, upto: u128) -> Span {
    Span::new(Id::new(after), Id::new(upto))
}

#[test]
fn digests_are_identifiers(rt: HostRuntime) -> Result<(), Fail> {
    let text = Id::of_bytes(b"abc").to_hex(rt.alloc())?;
    check!(&rt; text.as_str() == "a9993e364706816aba3e25717850c26c");
    let text = Id::of_bytes(b"a").to_hex(rt.alloc())?;
    check!(&rt; text.as_str() == "86f7e437faa5a7fce15d1ddcb9eaeaea");
    Ok(())
}

#[test]
fn what_is_written_is_read(rt: HostRuntime) -> Result<(), Fail> {
    for number in [0, 1, A, B, C, A + 0xfedcba9876543210, u128::MAX] {
        let text = Id::new(number).to_hex(rt.alloc())?;
        check!(&rt; Id::of_hex(text.as_str()) == Ok(Id::new(number)));
    }
    Ok(())
}

#[test]
fn reads_hex(rt: HostRuntime) -> Result<(), Fail> {
    check!(&rt; Id::of_hex("40000000000000000000000000000000") == Ok(Id::new(A)));
    check!(&rt; Id::of_hex("4000000000000000000000000000000") == Err(HexFault::BadLength));
    check!(&rt; Id::of_hex("0000000000000000000000000000000g") == Err(HexFault::BadDigit(31)));
    check!(&rt; Id::of_hex("FFffFFffFFffFFffFFffFFffFFffFFff") == Ok(Id::new(u128::MAX)));
    Ok(())
}

#[test]
fn cuts_and_joins(rt: HostRuntime) -> Result<(), Fail> {
    let whole = span(A, A);
    check!(&rt; whole.contains(Id::new(A)) && whole.contains(Id::new(0)));
    check!(&rt; whole.cut(Id::new(A)) == Err(NotInside));
    check!(&rt; whole.cut(Id::new(B)) == Ok((span(A, B), span(B, A))));
    check!(&rt; span(A, B).join(span(B, A)) == Ok(whole));
    check!(&rt; span(A, B).join(span(C, A)) == Err(SpanJoinFault::NotAdjacent));
    check!(&rt; whole.join(span(A, B)) == Err(SpanJoinFault::Overlap));
    let over_zero = span(C, A);
    check!(&rt;
        over_zero.contains(Id::new(0))
            && over_zero.contains(Id::new(A))
            && !over_zero.contains(Id::new(C))
    );
    let only_zero = span(u128::MAX, 0);
    check!(&rt; only_zero.contains(Id::new(0)) && !only_zero.contains(Id::new(1)));
    check!(&rt; only_zero.cut(Id::new(0)) == Err(NotInside));
    check!(&rt;
        between(Id::new(A), Id::new(B), Id::new(A)) && !between(Id::new(A), Id::new(A), Id::new(A))
    );
    Ok(())
}

#[test]
fn goes_round(rt: HostRuntime) {
    check!(&rt; Id::new(C).value() == C);
    check!(&rt; Id::new(A).distance(Id::new(C)) == B);
    check!(&rt; Id::new(C).distance(Id::new(A)) == B);
    check!(&rt; Id::new(A).plus_power(126) == Id::new(B));
    check!(&rt; Id::new(C).plus_power(127) == Id::new(A));
    check!(&rt; span(A, B).meets(span(C, B)) && !span(A, B).meets(span(B, A)));
}

#[test]
fn faults_say_what_is_wrong(rt: HostRuntime) -> Result<(), Fail> {
    let alloc = rt.alloc();
    let text = format!(in alloc; "{}; {}", HexFault::BadLength, HexFault::BadDigit(31))?;
    check!(&rt;
        text.as_str()
            == "an identifier has 32 hexadecimal digits; byte 31, from 0, is no hexadecimal digit"
    );
    let text = format!(in alloc;
        "{}; {}; {}",
        NotInside,
        SpanJoinFault::NotAdjacent,
        SpanJoinFault::Overlap
    )?;
    check!(&rt;
        text.as_str()
            == "the cut is not inside the span; the second span does not begin where the first ends; the spans meet"
    );
    Ok(())
}
