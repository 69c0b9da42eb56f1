//! What every store does.
ghost use Rattle.std.specs.Prelude.{◌≡◌, ◌≤◌, ◌<◌, ℕ, [], true, List, length, IfOk, IsOk, IfSome, IfNone};
ghost use Rattle.chord_ident.specs.Circle.{cuts, key_id};
ghost use Rattle.chord_map.specs.Copies.{AreFew};
ghost use Rattle.chord_map.specs.declared.pair.Pair.{Pair};
ghost use Rattle.chord_map.specs.Map.{has_pair, remove_pair, values_at};
ghost use Rattle.chord_map.specs.Pairs.{IsRising};
ghost use Rattle.chord_store.specs.Cut.{CutsLeaveFewer, IsShort, part_up_to};
ghost use Rattle.chord_store.specs.Inside.{pairs_inside, pairs_outside};
ghost use Rattle.chord_store.specs.Store.{HasFew, InsertIs, PutAllIs};

use crate::outcome::{Inserted, StoreFault};
use chord_ident::{Id, Span};
use chord_map::{Bytes, Pair, Values};
use std::alloc::{AllocError, Global};

/// A map of sets of at most 1,000 values, as the sorted list of its pairs, with a limit on their
/// number. Who asks for a key gives its identifier too, so a store that looks keys up by identifier
/// computes no digest.
pub trait EntryStore: Drop {
    ghost content: { Self → List Pair };

    ghost limit: { Self → ℕ };

    /// Adds the value to the set under the key. Present and SetFull are answered before the limit
    /// is checked, and memory comes last.
    fn insert(&mut self, id: Id, key: &Bytes, value: &Bytes) -> Result<Inserted, StoreFault>
        requires { id.number ≡ key_id key.now }
        ensures answer { InsertIs (record { key = key.now; value = value.now }) (content self.old) (limit self.old) result (content self.new) }
        ensures limit { limit self.new ≡ limit self.old };

    /// Removes the value from the set under the key, and answers whether it was there.
    fn remove(&mut self, id: Id, key: &Bytes, value: &[u8]) -> bool
        requires { id.number ≡ key_id key.now }
        ensures was_there { result ≡ has_pair (record { key = key.now; value = value.now }) (content self.old) }
        ensures change { content self.new ≡ remove_pair (record { key = key.now; value = value.now }) (content self.old) }
        ensures limit { limit self.new ≡ limit self.old };

    /// Drops the pairs whose keys lie in the span.
    fn take_out(&mut self, span: &Span)
        ensures change { content self.new ≡ pairs_outside span.now (content self.old) }
        ensures limit { limit self.new ≡ limit self.old };

    /// Drops the pairs whose keys lie in the span; these are their
    /// copies. A tree looks each of them up and scans nothing; a list
    /// moves all that is behind the first one anyway, so it scans once.
    fn drop_copied(&mut self, span: &Span, copies: &[Pair])
        requires { pairs_inside span.now (content self.old) ≡ copies.now }
        ensures change { content self.new ≡ pairs_outside span.now (content self.old) }
        ensures limit { limit self.new ≡ limit self.old };

    /// The number of its pairs.
    fn count(&self) -> u64
        ensures count { result ≡ length (content self.now) }
        ensures rising { IsRising (content self.now) }
        ensures few { HasFew (content self.now) };

    /// The values under the key, in byte order. None, or
    /// a single one of up to 24 bytes, needs no memory.
    fn values(&self, alloc: Global, id: Id, key: &Bytes) -> Result<Values, AllocError>
        requires { id.number ≡ key_id key.now }
        ensures copy { IfOk result (λ values. values ≡ values_at key.now (content self.now)) }
        ensures few { AreFew (values_at key.now (content self.now)) → IsOk result };

    /// Copies of the pairs whose keys lie in the span, by
    /// key and then by value. Copying none needs no memory.
    fn copy_span(&self, alloc: Global, span: &Span) -> Result<Vec<Pair>, AllocError>
        ensures copies { IfOk result (λ pairs. pairs.items ≡ pairs_inside span.now (content self.now)) }
        ensures none { pairs_inside span.now (content self.now) ≡ [] → IsOk result };

    /// An identifier of the span at which a cut leaves at least `n` and at most `most` pairs before
    /// it. If that is not found by few looks, the first one at which a cut leaves at least `n`, or
    /// none where no cut does. A tree reads the shards of some parts of the span: it doubles a part
    /// until it has `n` pairs, and halves it down to the first identifier unless it has at most
    /// `most`. A list goes over all its pairs for each look.
    fn cut_after(&self, span: &Span, n: u64, most: u64) -> Option<Id>
        requires { 0 < n }
        ensures cut { IfSome result (λ at. cuts span.now at ≡ true) }
        ensures enough { IfSome result (λ at. n ≤ length (pairs_inside (part_up_to span.now at) (content self.now))) }
        ensures short { IfSome result (λ at. IsShort (part_up_to span.now at) n most (content self.now)) }
        ensures none { IfNone result (CutsLeaveFewer span.now n (content self.now)) };

    /// Adds the pairs, which lie in a span where the store has none: all of them or none.
    fn put_all(&mut self, span: &Span, pairs: &[Pair]) -> Result<(), StoreFault>
        requires vacant { pairs_inside span.now (content self.old) ≡ [] }
        requires within { pairs_inside span.now pairs.now ≡ pairs.now }
        requires rising { IsRising pairs.now }
        requires few { (key : List ℕ) → length (values_at key pairs.now) ≤ 1000 }
        ensures answer { PutAllIs pairs.now (content self.old) (limit self.old) result (content self.new) }
        ensures limit { limit self.new ≡ limit self.old };
}
