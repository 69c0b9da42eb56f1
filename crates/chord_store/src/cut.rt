//! Where a span is cut by a number of pairs.
ghost use Rattle.std.specs.Prelude.{◌≡◌, ◌⊎◌, ◌≤◌, ◌<◌, ◌+◌, ◌^◌, ℕ, List, length, true, IfSome, IfNone};
ghost use Rattle.chord_ident.specs.Circle.{cuts, walk};
ghost use Rattle.chord_store.specs.Cut.{AreFewest, CutsLeaveFewer, IsShort, pairs_within, part_up_to};
ghost use Rattle.chord_map.specs.declared.pair.Pair.{Pair};
ghost use Rattle.chord_store.specs.Inside.{pairs_inside};

use chord_ident::{Id, Span};

/// Pairs that are counted by spans.
pub trait CountSpan {
    ghost pairs: { Self → List Pair };

    /// The number of pairs whose keys lie in the span.
    fn count_span(&self, span: &Span) -> u64
        ensures { result ≡ length (pairs_inside span.now (pairs self.now)) };
}

// The steps of the first look for pairs. On a circle with fewer than 2^32 of them the nearest one
// is further away for the most part.
const FIRST_STEPS: u128 = 1 << 96;

// The identifier that is this number of steps after the start.
fn after_steps(after: Id, steps: u128) -> Id
    requires { 0 < steps }
    ensures { walk after.number result.number ≡ steps }
{
    Id::new(after.number.wrapping_add(steps))
}

// The number of pairs whose keys lie at most this number of steps after the start.
fn count_within<C: CountSpan>(counted: &C, after: Id, steps: u128) -> u64
    requires { 0 < steps }
    ensures { result ≡ length (pairs_within after.number steps (C.pairs counted.now)) }
{
    counted.count_span(&Span::new(after, after_steps(after, steps)))
}

// Steps after the start that meet `n` pairs, if `most` steps do. It looks at twice as many steps
// each time, so it reads about twice as much as it has to.
fn enough_steps<C: CountSpan>(counted: &C, after: Id, most: u128, n: u64) -> Option<u128>
    requires { 0 < most }
    ensures most { IfSome result (λ steps. steps ≤ most) }
    ensures enough { IfSome result (λ steps. n ≤ length (pairs_within after.number steps (C.pairs counted.now))) }
    ensures none { IfNone result (length (pairs_within after.number most (C.pairs counted.now)) < n) }
{
    let mut steps = most.min(FIRST_STEPS);
    while count_within(counted, after, steps) < n {
        if steps == most {
            return None;
        }
        steps = steps.saturating_mul(2).min(most);
    }
    Some(steps)
}

// Steps after the start that meet at least `n` pairs, which `most` steps do: some that meet at most
// `limit`, or else the fewest.
fn steps_to<C: CountSpan>(counted: &C, after: Id, most: u128, n: u64, limit: u64) -> u128
    requires some { 0 < n }
    requires enough { n ≤ length (pairs_within after.number most (C.pairs counted.now)) }
    ensures some { 0 < result }
    ensures most { result ≤ most }
    ensures enough { n ≤ length (pairs_within after.number result (C.pairs counted.now)) }
    ensures short { (length (pairs_within after.number result (C.pairs counted.now)) ≤ limit) ⊎ AreFewest after.number result n (C.pairs counted.now) }
{
    if count_within(counted, after, most) <= limit {
        return most;
    }
    let mut low = 0u128;
    let mut high = most;
    while high - low > 1 {
        let middle = low + (high - low) / 2;
        let met = count_within(counted, after, middle);
        if met < n {
            low = middle;
        } else if met <= limit {
            return middle;
        } else {
            high = middle;
        }
    }
    high
}

/// An identifier of the span at which a cut leaves at least `n` and at most `limit` pairs before
/// it; or else the first one at which a cut leaves at least `n`, or none where no cut does. It
/// looks at parts of the span twice as large each time, and then at halves between them.
pub fn cut_after<C: CountSpan>(counted: &C, span: Span, n: u64, limit: u64) -> Option<Id>
    requires { 0 < n }
    ensures cut { IfSome result (λ at. cuts span at ≡ true) }
    ensures enough { IfSome result (λ at. n ≤ length (pairs_inside (part_up_to span at) (C.pairs counted.now))) }
    ensures short { IfSome result (λ at. IsShort (part_up_to span at) n limit (C.pairs counted.now)) }
    ensures none { IfNone result (CutsLeaveFewer span n (C.pairs counted.now)) }
{
    let most = span.after.distance(span.upto).wrapping_sub(1);
    if most == 0 {
        return None;
    }
    let Some(enough) = enough_steps(counted, span.after, most, n) else {
        return None;
    };
    let steps = steps_to(counted, span.after, enough, n, limit);
    Some(after_steps(span.after, steps))
}
