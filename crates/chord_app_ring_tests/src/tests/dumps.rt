//! The command `dump`: at a scripted server, and by pages that are plain values.

use super::loopback::Command;
use crate::checks::check;
use chord_app_operator::{PageState, PairsRequest};
use chord_app_ring::{
    DumpFault, PAGE_TRIES, Page, PageTeller, PageTurn, RingFault, dump, first_behind, id_in,
    request_behind,
};
use chord_app_text::{Fault, Finish};
use chord_ident::Id;
use std::alloc::Global;

/// A look at all pairs, from the first page on.
const FIRST: &[u8] = b"GET /pairs?limit=1000 HTTP/1.1\r\nhost: 127.0.0.1:";

/// The page behind 7f..ff.
const SECOND: &[u8] = b"GET /pairs?after=7fffffffffffffffffffffffffffffff&limit=1000 HTTP/1.1\r\n";

/// The page behind 80..00.
const THIRD: &[u8] = b"GET /pairs?after=80000000000000000000000000000000&limit=1000 HTTP/1.1\r\n";

const FIRST_PAGE: &[u8] =
    b"HTTP/1.1 200 OK\r\ncontent-type: text/plain\r\nchord-page: held\r\nchord-next: 7fffffffffffffffffffffffffffffff\r\ncontent-length: 21\r\n\r\ninsert a 1\ninsert b 2";

const SECOND_PAGE: &[u8] =
    b"HTTP/1.1 200 OK\r\ncontent-type: text/plain\r\nChord-Page: held\r\ncontent-length: 1\r\nChord-Next: 80000000000000000000000000000000\r\n\r\n\n";

const LAST_PAGE: &[u8] =
    b"HTTP/1.1 200 OK\r\ncontent-type: text/plain\r\nchord-page: held\r\ncontent-length: 11\r\n\r\ninsert c 3\n";

/// The page behind 7f..ff while its pairs are under way.
const MOVING_PAGE: &[u8] =
    b"HTTP/1.1 200 OK\r\ncontent-type: text/plain\r\nchord-page: underway\r\nchord-next: 7fffffffffffffffffffffffffffffff\r\ncontent-length: 0\r\n\r\n";

/// The page behind 7f..ff, up to 80..00, lost with a node.
const LOST_PAGE: &[u8] =
    b"HTTP/1.1 200 OK\r\ncontent-type: text/plain\r\nchord-page: lost\r\nchord-next: 80000000000000000000000000000000\r\ncontent-length: 0\r\n\r\n";

/// The last page, lost with a node.
const LOST_END: &[u8] =
    b"HTTP/1.1 200 OK\r\ncontent-type: text/plain\r\nchord-page: lost\r\ncontent-length: 0\r\n\r\n";

#[test]
fn three_pages_are_copied(rt: HostRuntime) {
    let talks = [
        (FIRST, FIRST_PAGE),
        (SECOND, SECOND_PAGE),
        (THIRD, LAST_PAGE),
    ];
    let wanted = "insert a 1\ninsert b 2\ninsert c 3\n# pairs 3\n";
    let ran = Command::Dump.run_at(&rt, rt.alloc(), &talks, (wanted, ""));
    check!(&rt; ran == Some((Ok(Finish::Done), true, true)));
}

#[test]
fn a_page_under_way_comes_later(rt: HostRuntime) {
    let talks = [
        (FIRST, LAST_PAGE_ON),
        (SECOND, MOVING_PAGE),
        (SECOND, LAST_PAGE),
    ];
    let wanted = "insert b 2\ninsert c 3\n# pairs 2\n";
    let ran = Command::Dump.run_at(&rt, rt.alloc(), &talks, (wanted, ""));
    check!(&rt; ran == Some((Ok(Finish::Done), true, true)));
}

/// What was lost with a node is passed over and told, and the copy of all else is whole.
#[test]
fn what_is_lost_is_passed_over(rt: HostRuntime) {
    let talks = [
        (FIRST, LAST_PAGE_ON),
        (SECOND, LOST_PAGE),
        (THIRD, LOST_END),
    ];
    let errors =
        "lost 80000000000000000000000000000000 to 80000000000000000000000000000000\nlost 80000000000000000000000000000001 to ffffffffffffffffffffffffffffffff\n";
    let ran = Command::Dump.run_at(&rt, rt.alloc(), &talks, ("insert b 2\n# pairs 1\n", errors));
    check!(&rt; ran == Some((Err(Finish::Fault(Fault::PassedOver)), true, true)));
}

/// A first page of one whole line.
const LAST_PAGE_ON: &[u8] =
    b"HTTP/1.1 200 OK\r\ncontent-type: text/plain\r\nchord-page: held\r\nchord-next: 7fffffffffffffffffffffffffffffff\r\ncontent-length: 11\r\n\r\ninsert b 2\n";

/// Second answers that are no page, or whose next page can't follow: it has no type, no state or
/// another one, its identifier is cut, lies before the page, is the one before it, or is the
/// greatest.
const NOT_UNDERSTOOD: &[&[u8]] = &[
    b"HTTP/1.1 200 OK\r\nchord-page: held\r\ncontent-length: 0\r\n\r\n",
    b"HTTP/1.1 200 OK\r\ncontent-type: text/plain\r\ncontent-length: 0\r\n\r\n",
    b"HTTP/1.1 200 OK\r\ncontent-type: text/plain\r\nchord-page: gone\r\ncontent-length: 0\r\n\r\n",
    b"HTTP/1.1 200 OK\r\ncontent-type: text/plain\r\nchord-page: held\r\nchord-next: 7fff\r\ncontent-length: 0\r\n\r\n",
    b"HTTP/1.1 200 OK\r\ncontent-type: text/plain\r\nchord-page: held\r\nchord-next: 7ffffffffffffffffffffffffffffffe\r\ncontent-length: 0\r\n\r\n",
    b"HTTP/1.1 200 OK\r\ncontent-type: text/plain\r\nchord-page: lost\r\nchord-next: 7fffffffffffffffffffffffffffffff\r\ncontent-length: 1\r\n\r\nx",
    b"HTTP/1.1 200 OK\r\ncontent-type: text/plain\r\nchord-page: held\r\nchord-next: ffffffffffffffffffffffffffffffff\r\ncontent-length: 0\r\n\r\n",
];

#[test]
fn a_copy_ends_at_an_answer_that_is_not_understood(rt: HostRuntime) {
    let wanted = Some((Err(Finish::Fault(Fault::Answer)), true, true));
    for answer in NOT_UNDERSTOOD {
        let talks = [(FIRST, LAST_PAGE_ON), (SECOND, *answer)];
        let ran = Command::Dump.run_at(&rt, rt.alloc(), &talks, ("insert b 2\n", ""));
        check!(&rt; ran == wanted, "what came before stays written");
    }
}

#[test]
fn a_copy_ends_at_an_answer_that_is_cut(rt: HostRuntime) {
    let cut = b"HTTP/1.1 200 OK\r\ncontent-length: 6\r\n\r\nthre";
    let talks = [(FIRST, LAST_PAGE_ON), (SECOND, cut.as_slice())];
    let ran = Command::Dump.run_at(&rt, rt.alloc(), &talks, ("insert b 2\n", ""));
    let wanted = Some((Err(Finish::Fault(Fault::Lost)), true, true));
    check!(&rt; ran == wanted, "what came before stays written");
}

#[test]
fn a_copy_ends_at_a_refusal(rt: HostRuntime) {
    let refused = b"HTTP/1.1 507 Insufficient Storage\r\ncontent-length: 0\r\n\r\n";
    let talks = [(FIRST, LAST_PAGE_ON), (SECOND, refused.as_slice())];
    let errors = "refused Memory\n";
    let ran = Command::Dump.run_at(&rt, rt.alloc(), &talks, ("insert b 2\n", errors));
    let wanted = Some((Err(Finish::Refused), true, true));
    check!(&rt; ran == wanted, "what came before stays written");
}

/// Tells that pairs are under way at each try, and counts them.
#[derive(Drop)]
struct MovingPages {
    alloc: Global,
    asked: u64,
}

impl PageTeller for MovingPages {
    ghost tells = { λ _ _ _ _. Unit {0} };

    fn page(&mut self, request: PairsRequest) -> Result<Page, RingFault> {
        if request != request_behind(None) {
            return Err(RingFault::Lost);
        }
        self.asked = self.asked.saturating_add(1);
        Ok(Page {
            lines: Vec::new(self.alloc),
            next: Some(Id { number: u128::MAX }),
            state: PageState::UnderWay,
        })
    }

    fn rest(&self) {}
}

#[test]
fn a_page_under_way_may_never_come(rt: HostRuntime) {
    let mut pages = MovingPages {
        alloc: rt.alloc(),
        asked: 0,
    };
    let mut written: Vec<u8> = Vec::new(rt.alloc());
    let mut errors: Vec<u8> = Vec::new(rt.alloc());
    let dumped = dump(rt.alloc(), &mut pages, &mut written, &mut errors);
    let is_under_way = matches!(&dumped, Err(DumpFault::UnderWay));
    drop(dumped);
    let is_empty = written.is_empty() && errors.is_empty();
    drop(written);
    drop(errors);
    check!(&rt; is_under_way);
    check!(&rt; pages.asked == PAGE_TRIES && is_empty);
}

/// Identifiers behind which a page is asked for, and what follows it if it goes on behind 5.
const TURNS: &[(Option<u128>, Option<PageTurn>)] = &[
    (None, Some(PageTurn::On(Id { number: 5 }))),
    (Some(4), Some(PageTurn::On(Id { number: 5 }))),
    (Some(5), None),
    (Some(6), None),
    (Some(u128::MAX), Some(PageTurn::On(Id { number: 5 }))),
];

/// What follows that page in this state.
fn turn(alloc: Global, after: Option<Id>, state: PageState) -> Option<PageTurn> {
    let page = Page {
        lines: Vec::new(alloc),
        next: Some(Id { number: 5 }),
        state,
    };
    let turn = page.turn(after);
    drop(page);
    turn
}

#[test]
fn what_follows_a_page(rt: HostRuntime) {
    for (after, wanted) in TURNS {
        let after = after.map(Id::new);
        check!(&rt; turn(rt.alloc(), after, PageState::Held) == *wanted);
        check!(&rt; turn(rt.alloc(), after, PageState::Lost) == *wanted);
        let under_way = turn(rt.alloc(), after, PageState::UnderWay);
        check!(&rt; under_way == Some(PageTurn::UnderWay));
    }
    check!(&rt; first_behind(None) == Id { number: 0 });
    check!(&rt; first_behind(Some(Id { number: 5 })) == Id { number: 6 });
}

/// Digits, and the identifier that they write, if any.
const IDENTIFIERS: &[(&[u8], Option<u128>)] = &[
    (b"00000000000000000000000000000000", Some(0)),
    (
        b"C00000000000000000000000000000aB",
        Some(0xc000_0000_0000_0000_0000_0000_0000_00ab),
    ),
    (b"ffffffffffffffffffffffffffffffff", Some(u128::MAX)),
    (b"", None),
    (b"c00000000000000000000000000000a", None),
    (b"c00000000000000000000000000000ab0", None),
    (b"c00000000000000000000000000000ab00", None),
    (b"c00000000000000000000000000000ag", None),
    (b" 0000000000000000000000000000000", None),
];

#[test]
fn identifiers_of_digits(rt: HostRuntime) {
    for (digits, number) in IDENTIFIERS {
        let id = id_in(digits);
        assert!(rt; id == number.map(Id::new), "{number:?}: {id:?}");
    }
}
