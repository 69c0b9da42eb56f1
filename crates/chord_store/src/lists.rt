//! The operations of the stores over a list of pairs.
ghost use Rattle.std.specs.Prelude.{◌≡◌, [], bytes_eq, filter, length, IfOk, IsOk};
ghost use Rattle.std.specs.Ordering.{is_le, is_lt, nat_cmp};
ghost use Rattle.std.specs.Cmp.Lexicographic.{slice_cmp};
ghost use Rattle.chord_map.specs.Copies.{AreFew};
ghost use Rattle.chord_map.specs.Map.{values_at};
ghost use Rattle.chord_map.specs.Pairs.{IsRising};
ghost use Rattle.chord_ident.specs.Circle.{in_span, key_id};
ghost use Rattle.chord_store.specs.Inside.{pairs_inside, pairs_outside};
ghost use Rattle.chord_store.specs.Store.{HasFew, InsertIs, PutAllIs};

use crate::cut::CountSpan;
use crate::outcome::{Inserted, StoreFault};
use chord_ident::{Id, Span};
use chord_map::limits::SET_VALUES;
use chord_map::{Pair, PairList, Values};
use std::alloc::{AllocError, Global};

/// The pairs of a key, which are neighbours in a sorted list: both ends are found by binary search.
fn run_of<'a>(pairs: &'a [Pair], key: &[u8]) -> &'a [Pair]
    requires { IsRising pairs.now }
    ensures { result.now ≡ filter (λ pair. bytes_eq pair.key key.now) pairs.now }
{
    let start = pairs.partition_point(
        |pair: &Pair| -> bool
            ensures { result ≡ is_lt (slice_cmp nat_cmp pair.now.key key.entry.now) }
        { pair.key.as_slice().cmp(&key).is_lt() },
    );
    let end = pairs.partition_point(
        |pair: &Pair| -> bool
            ensures { result ≡ is_le (slice_cmp nat_cmp pair.now.key key.entry.now) }
        { pair.key.as_slice().cmp(&key).is_le() },
    );
    &pairs[start..][..end - start]
}

/// The number of values under a key of a sorted list.
fn count_under(pairs: &[Pair], key: &[u8]) -> usize
    requires { IsRising pairs.now }
    ensures { result ≡ length (values_at key.now pairs.now) }
{
    run_of(pairs, key).len()
}

/// Copies of the values under a key of a sorted list, in byte order.
pub fn values_under(alloc: Global, pairs: &[Pair], key: &[u8]) -> Result<Values, AllocError>
    requires { IsRising pairs.now }
    ensures copy { IfOk result (λ values. values ≡ values_at key.now pairs.now) }
    ensures few { AreFew (values_at key.now pairs.now) → IsOk result }
{
    let mut values = Values::new(alloc);
    for pair in run_of(pairs, key) {
        values.push(pair.value.try_copy()?)?;
    }
    Ok(values)
}

/// Adds the value under the key in a list of at most `limit` pairs.
pub fn insert_within(
    pairs: &mut PairList,
    limit: u64,
    key: &[u8],
    value: &[u8],
) -> Result<Inserted, StoreFault>
    requires few { HasFew pairs.old }
    ensures answer { InsertIs (record { key = key.now; value = value.now }) pairs.old limit result pairs.new }
    ensures few { HasFew pairs.new }
{
    if pairs.contains(key, value) {
        return Ok(Inserted::Present);
    }
    if count_under(pairs.as_slice(), key) >= SET_VALUES {
        return Ok(Inserted::SetFull);
    }
    if limit <= pairs.len() as u64 {
        return Err(StoreFault::Full);
    }
    match pairs.insert(key, value) {
        Ok(()) => Ok(Inserted::Added),
        Err(_) => Err(StoreFault::Memory),
    }
}

/// Whether the pair's key lies in the span.
pub fn is_inside(span: &Span, pair: &Pair) -> bool
    ensures { result ≡ in_span span.now (key_id pair.now.key) }
{
    span.contains(Id::of_bytes(pair.key.as_slice()))
}

/// Removes the pairs whose keys lie in the span.
pub fn take_out(pairs: &mut PairList, span: &Span)
    ensures change { pairs.new ≡ pairs_outside span.now pairs.old }
    ensures few { HasFew pairs.old → HasFew pairs.new }
{
    pairs.retain(|pair| !is_inside(span, pair));
}

/// Copies of the pairs whose keys lie in the span, in order.
#[tactic(auto, unfolding(crate::specs::Inside::pairs_inside))]
pub fn copy_span(alloc: Global, pairs: &[Pair], span: &Span) -> Result<Vec<Pair>, AllocError>
    ensures copies { IfOk result (λ copies. copies.items ≡ pairs_inside span.now pairs.now) }
    ensures none { pairs_inside span.now pairs.now ≡ [] → IsOk result }
{
    let mut copies = Vec::new(alloc);
    for pair in pairs {
        if is_inside(span, pair) {
            copies.push(pair.try_copy()?)?;
        }
    }
    Ok(copies)
}

impl CountSpan for PairList {
    ghost pairs = { λ list. list };

    /// It computes the identifier of each key.
    fn count_span(&self, span: &Span) -> u64 {
        count_inside(self.as_slice(), span)
    }
}

/// The number of pairs whose keys lie in the span.
#[tactic(auto, unfolding(crate::specs::Inside::pairs_inside))]
fn count_inside(pairs: &[Pair], span: &Span) -> u64
    ensures { result ≡ length (pairs_inside span.now pairs.now) }
{
    let mut count = 0u64;
    for counted in pairs {
        if is_inside(span, counted) {
            count += 1;
        }
    }
    count
}

/// Adds the pairs, which lie in a span where the list has none,
/// to a list of at most `limit` pairs: all of them or none.
pub fn put_all_within(
    list: &mut PairList,
    limit: u64,
    span: &Span,
    pairs: &[Pair],
) -> Result<(), StoreFault>
    requires vacant { pairs_inside span.now list.old ≡ [] }
    requires within { pairs_inside span.now pairs.now ≡ pairs.now }
    requires few_there { HasFew list.old }
    requires few { HasFew pairs.now }
    ensures answer { PutAllIs pairs.now list.old limit result list.new }
    ensures few { HasFew list.new }
{
    let count = list.len() as u64;
    if limit < count || limit - count < pairs.len() as u64 {
        return Err(StoreFault::Full);
    }
    for pair in pairs {
        match list.insert(pair.key.as_slice(), pair.value.as_slice()) {
            Ok(()) => {}
            Err(_) => {
                take_out(list, span);
                return Err(StoreFault::Memory);
            }
        }
    }
    Ok(())
}
