//! Pages of pairs.
ghost use Rattle.std.specs.Prelude.{◌≡◌, ◌<◌, ◌^◌, ◌-◌, IfOk, IfSome, map};
ghost use Rattle.std.specs.List.Sorted.{IsPermutation, IsSorted};
ghost use Rattle.chord_node.specs.Pages.{EndsAt, IsPageOf, last_id, next_behind, placed, placed_cmp, rest_from};

use chord_ident::{Id, Span};
use chord_map::Pair;
use chord_store::EntryStore;
use std::alloc::{AllocError, Global};
use std::cmp::Ordering;

/// The greatest identifier, with which the circle ends for who reads it from 0 on.
const LAST: u128 = u128::MAX;

/// A pair with its key's identifier.
#[derive(Debug, Drop)]
pub struct PlacedPair {
    pub id: Id,
    pub pair: Pair,
}

/// Some pairs, in the order of their identifiers, then of their keys' bytes and then of their
/// values' bytes.
#[derive(Debug, Drop)]
pub struct PairsPage {
    pub pairs: Vec<PlacedPair>,
    /// The identifier behind which to go on; none at the end of the circle.
    pub next: Option<Id>,
}

impl PlacedPair {
    /// The pair with its identifier.
    pub fn of(pair: Pair) -> PlacedPair
        ensures { result ≡ placed pair }
    {
        PlacedPair {
            id: Id::of_bytes(pair.key.as_slice()),
            pair,
        }
    }
}

// The order of a page.
fn compare(a: &PlacedPair, b: &PlacedPair) -> Ordering
    ensures { result ≡ placed_cmp a.now b.now }
{
    match a.id.number.cmp(&b.id.number) {
        Ordering::Equal => match a.pair.key.cmp(&b.pair.key) {
            Ordering::Equal => a.pair.value.cmp(&b.pair.value),
            apart => apart,
        },
        apart => apart,
    }
}

// Puts a page into order. It takes no memory.
fn sort(pairs: &mut Vec<PlacedPair>)
    ensures same { IsPermutation pairs.old.items pairs.new.items }
    ensures rises { IsSorted placed_cmp pairs.new.items }
{
    pairs.sort_unstable_by(
        |a: &PlacedPair, b: &PlacedPair| -> Ordering
            ensures { result ≡ placed_cmp a.now b.now }
        { compare(a, b) },
    );
}

// The pairs with their identifiers.
fn place_all(alloc: Global, pairs: Vec<Pair>) -> Result<Vec<PlacedPair>, AllocError>
    ensures { IfOk result (λ all. all.items ≡ map placed pairs.items) }
{
    pairs
        .into_iter()
        .map(
            |pair: Pair| -> PlacedPair
                ensures { result ≡ placed pair }
            { PlacedPair::of(pair) },
        )
        .collect(alloc)
}

/// What is read from an identifier on in a span.
pub(crate) fn rest_from(first: Id, span: Span) -> Span
    ensures { result ≡ rest_from first span }
{
    let after = Id::new(first.number.wrapping_sub(1));
    if first.number <= span.upto.number {
        return Span::new(after, span.upto);
    }
    Span::new(after, Id::new(LAST))
}

// The identifier behind which reading goes on.
fn next_behind(end: Id) -> Option<Id>
    ensures { result ≡ next_behind end }
{
    if end.number == LAST { None } else { Some(end) }
}

// Where the page of a span ends.
fn end_of<S: EntryStore>(store: &S, span: &Span, limit: u64) -> Id
    requires { 0 < limit }
    ensures { EndsAt span.now limit (S.content store.now) result }
{
    match store.cut_after(span, limit, 0) {
        Some(at) => at,
        None => span.upto,
    }
}

/// A page of the span's pairs, of at least `limit` pairs where the span has them.
pub(crate) fn page_of<S: EntryStore>(
    alloc: Global,
    store: &S,
    span: &Span,
    limit: u64,
) -> Result<PairsPage, AllocError>
    requires { 0 < limit }
    ensures { IfOk result (IsPageOf span.now limit (S.content store.now)) }
{
    let end = end_of(store, span, limit);
    let copies = store.copy_span(alloc, &Span::new(span.after, end))?;
    let mut pairs = place_all(alloc, copies)?;
    sort(&mut pairs);
    Ok(PairsPage {
        pairs,
        next: next_behind(end),
    })
}
