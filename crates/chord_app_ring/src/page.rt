//! A page of pairs, and what follows it.
ghost use Rattle.std.specs.Prelude.{◌≡◌};
ghost use Rattle.chord_app_ring.specs.Pages.{id_in, first_behind, turn_of, request_behind, IsNextIn, IsPageOf};

use crate::fault::RingFault;
use crate::inbox::Answer;
use crate::told::text_of;
use chord_app_operator::{PageState, PairsRequest};
use chord_ident::Id;

/// How many pairs a page has, if it is not the last of a node's segment.
pub const PAGE_PAIRS: u64 = 1000;

/// A page of a server's pairs.
#[derive(Debug, Drop)]
pub struct Page {
    /// The insert of each pair, a line each.
    pub lines: Vec<u8>,
    /// Who holds the first identifier.
    pub state: PageState,
    /// The identifier to go on behind. None at the end.
    pub next: Option<Id>,
}

/// What follows a page.
#[derive(Clone, Copy, Debug, PartialEq, Eq)]
pub enum PageTurn {
    /// It is the last one.
    End,
    /// The page behind this identifier.
    On(Id),
    /// The same page again: its pairs are under way from one node to another.
    UnderWay,
}

/// The identifier that 32 hexadecimal digits write.
pub fn id_in(digits: &[u8]) -> Option<Id>
    ensures { result ≡ id_in digits.now }
{
    let mut bytes = [0u8; 16];
    match hex::decode_to_slice(digits, &mut bytes) {
        Ok(()) => Some(Id::new(u128::from_be_bytes(bytes))),
        Err(_) => None,
    }
}

// What the field of an answer names, if it is there.
fn next_in(next: Option<Vec<u8>>) -> Result<Option<Id>, RingFault>
    ensures { IsNextIn next result }
{
    let Some(digits) = next else {
        return Ok(None);
    };
    let id = id_in(&digits);
    drop(digits);
    match id {
        Some(id) => Ok(Some(id)),
        None => Err(RingFault::NotUnderstood),
    }
}

/// The page that an answer is.
pub fn page_of(mut answer: Answer) -> Result<Page, RingFault>
    ensures { IsPageOf answer result }
{
    let state = answer.state;
    let next = answer.next.take();
    let lines = match text_of(answer) {
        Ok(lines) => lines,
        Err(fault) => {
            drop(next);
            return Err(fault);
        }
    };
    let Some(state) = state else {
        drop(next);
        drop(lines);
        return Err(RingFault::NotUnderstood);
    };
    match next_in(next) {
        Ok(next) => Ok(Page { lines, state, next }),
        Err(fault) => {
            drop(lines);
            Err(fault)
        }
    }
}

/// The request for the page behind an identifier, or for the first page.
pub fn request_behind(after: Option<Id>) -> PairsRequest
    ensures { result ≡ request_behind after }
{
    PairsRequest {
        after,
        limit: PAGE_PAIRS,
    }
}

/// The identifier with which the page behind this one begins.
pub fn first_behind(after: Option<Id>) -> Id
    ensures { result ≡ first_behind after }
{
    match after {
        Some(after) => Id::new(after.number.wrapping_add(1)),
        None => Id::new(0),
    }
}

impl Page {
    /// What follows the page that was asked for behind an identifier. None where no server tells
    /// such a page, since it goes back.
    pub fn turn(&self, after: Option<Id>) -> Option<PageTurn>
        ensures { result ≡ turn_of after self.now }
    {
        if self.state == PageState::UnderWay {
            return Some(PageTurn::UnderWay);
        }
        let Some(next) = self.next else {
            return Some(PageTurn::End);
        };
        if first_behind(after).number <= next.number && next.number != u128::MAX {
            Some(PageTurn::On(next))
        } else {
            None
        }
    }
}
