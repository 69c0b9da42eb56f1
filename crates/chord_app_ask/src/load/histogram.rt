//! How long requests took, counted in a fixed number of buckets.
ghost use Rattle.std.specs.Prelude.{◌≡◌, ◌≤◌, ◌<◌, ◌+◌, ◌*◌, ◌/◌, ◌%◌, ◌^◌, IfOk, IfSome, None};
ghost use Rattle.std.specs.Prelude.{length};
ghost use Rattle.chord_app_ask.specs.Recorded.{value_count};
ghost use Rattle.chord_app_ask.specs.Histogram.{bound, bucket_of, joined, with_counts, IsNew};
ghost use Rattle.chord_app_ask.specs.Histogram.{IsLeast, RecordIs, PercentileIs};

use std::alloc::{AllocError, Global};
use std::marker::Model;

/// 32 buckets of one value each, and then 16 for each doubling up to 2^64.
const BUCKETS: usize = 976;

/// How many values are at or below its bound, and above the bound before.
#[derive(Clone, Copy, Debug)]
pub struct Bucket {
    pub bound: u64,
    pub count: u64,
}

#[derive(Debug, Drop)]
pub struct Histogram {
    buckets: Vec<Bucket>,
    total: u64,
}

impl Model for Histogram {
    ghost use Rattle.std.specs.Prelude.{◌≡◌, List};
    ghost use Rattle.chord_app_ask.specs.declared.load.histogram.Bucket.{Bucket};
    ghost use Rattle.chord_app_ask.specs.Recorded.{value_count};
    ghost use Rattle.chord_app_ask.specs.Histogram.{HasBounds};

    ghost Value = { List Bucket };

    ghost view = { λ h. h.buckets.items };

    ghost invariant = { λ h. (h.total ≡ value_count h.buckets.items) × HasBounds h.buckets.items };
}

// The greatest value in a bucket.
fn bound(place: usize) -> u64
    requires { place < 976 }
    ensures { result ≡ bound place }
{
    if place < 32 {
        return place as u64;
    }
    let scale = 2u64.pow((place / 16 - 1) as u32);
    (place % 16 + 16) as u64 * scale + (scale - 1)
}

// The first bucket whose bound is not below the value.
fn bucket_of(value: u64, buckets: &[Bucket]) -> Option<usize>
    ensures place { result ≡ bucket_of value buckets.now }
    ensures bound { IfSome result (λ place. place < length buckets.now) }
{
    buckets.iter().position(|bucket| value <= bucket.bound)
}

// The least bound with at least `wanted` values at or below it.
fn least_with(buckets: &[Bucket], wanted: u64) -> Option<u64>
    requires some { 1 ≤ wanted }
    requires fits { value_count buckets.now < 2 ^ 64 }
    ensures least { IfSome result (λ found. IsLeast wanted found buckets.now) }
    ensures none { result ≡ None → value_count buckets.now < wanted }
{
    let mut seen = 0;
    for bucket in buckets {
        seen += bucket.count;
        if wanted <= seen {
            return Some(bucket.bound);
        }
    }
    None
}

// Adds to each bucket the count of the one at its place.
fn add_counts(buckets: &mut Vec<Bucket>, more: &[Bucket])
    requires count { length more.now ≤ length buckets.old.items }
    requires fits { value_count buckets.old.items + value_count more.now < 2 ^ 64 }
    ensures { buckets.new.items ≡ with_counts buckets.old.items more.now }
{
    for place in 0..more.len() {
        buckets[place].count += more[place].count;
    }
}

impl Histogram {
    /// A histogram of no values.
    #[tactic(auto, using(crate::proofs::Joined::new_shape))]
    pub fn new(alloc: Global) -> Result<Histogram, AllocError>
        ensures { IfOk result (λ histogram. IsNew histogram) }
    {
        let mut buckets = Vec::with_capacity(alloc, BUCKETS)?;
        for place in 0..BUCKETS {
            let bound = bound(place);
            buckets.push(Bucket { bound, count: 0 })?;
        }
        Ok(Histogram { buckets, total: 0 })
    }

    /// How many values were recorded.
    pub fn total(&self) -> u64
        ensures { result ≡ value_count self.now }
    {
        self.total
    }

    pub fn buckets(&self) -> &[Bucket]
        ensures { result.now ≡ self.now }
    {
        self.buckets.as_slice()
    }

    /// Records a value `times` times. Says false and records nothing if the total would be 2^64 or
    /// more.
    pub fn record(&mut self, value: u64, times: u64) -> bool
        ensures { RecordIs result value times self.old self.new }
    {
        let Some(total) = self.total.checked_add(times) else {
            return false;
        };
        let Some(place) = bucket_of(value, &self.buckets) else {
            return false;
        };
        self.buckets[place].count += times;
        self.total = total;
        true
    }

    /// Adds the values of another histogram, unless the total would be 2^64 or more.
    pub fn join(&mut self, other: &Histogram)
        ensures { self.new ≡ joined self.old other.now }
    {
        if let Some(total) = self.total.checked_add(other.total) {
            add_counts(&mut self.buckets, &other.buckets);
            self.total = total;
        }
    }

    /// The least bound with at least this many thousandths of all values at or below it.
    pub fn percentile(&self, thousandths: u64) -> Option<u64>
        requires least { 1 ≤ thousandths }
        requires most { thousandths ≤ 1000 }
        ensures { PercentileIs result thousandths self.now }
    {
        if self.total == 0 {
            return None;
        }
        let wanted = (self.total as u128 * thousandths as u128 + 999) / 1000;
        least_with(&self.buckets, wanted as u64)
    }
}
