//! The results of a load.

ghost use Rattle.std.specs.Prelude.{◌≡◌, max, None, IfOk};
ghost use Rattle.chord_app_ask.specs.Counts.{added, sum};
ghost use Rattle.chord_app_ask.specs.Histogram.{joined, IsNew};
ghost use Rattle.chord_app_ask.specs.Reports.{with_doubled, with_empty, with_resumed, with_still};

use crate::load::histogram::Histogram;
use std::alloc::{AllocError, Global};
use std::fmt;

/// The percentiles of the table, as thousandths.
const PERCENTILES: [(&str, u64); 4] = [("p50", 500), ("p90", 900), ("p99", 990), ("p99.9", 999)];

#[derive(Debug, Drop)]
pub struct Report {
    /// How long requests took, in microseconds.
    pub times: Histogram,
    /// How many got no reply.
    pub faults: u64,
    /// How many retrieves were answered by an empty set.
    pub empty: u64,
    /// How long after the load began its last connection ended.
    pub milliseconds: u64,
    /// For how many milliseconds at most no connection got a reply.
    pub still: u64,
    /// How many connections went on with the session of one before, if there were sessions.
    pub resumed: Option<u64>,
    /// How many inserts found a value that nobody else inserts, if there were such values.
    pub doubled: Option<u64>,
}

/// The sum of two counts; one that is not kept counts nothing.
fn sum(one: Option<u64>, other: Option<u64>) -> Option<u64>
    ensures { result ≡ sum one other }
{
    match (one, other) {
        (Some(one), Some(other)) => Some(one.saturating_add(other)),
        (Some(count), None) | (None, Some(count)) => Some(count),
        (None, None) => None,
    }
}

impl Report {
    /// A report of nothing.
    pub fn new(alloc: Global) -> Result<Report, AllocError>
        ensures times { IfOk result (λ report. IsNew report.times) }
        ensures counts { IfOk result (λ report. (report.faults ≡ 0) × (report.empty ≡ 0)) }
        ensures passed { IfOk result (λ report. (report.milliseconds ≡ 0) × (report.still ≡ 0)) }
        ensures kept { IfOk result (λ report. (report.resumed ≡ None) × (report.doubled ≡ None)) }
    {
        Ok(Report {
            times: Histogram::new(alloc)?,
            faults: 0,
            empty: 0,
            milliseconds: 0,
            still: 0,
            resumed: None,
            doubled: None,
        })
    }

    /// Adds the results of another connection that ran at the same time.
    pub fn join(&mut self, other: &Report)
        ensures times { self.new.times ≡ joined self.old.times other.now.times }
        ensures faults { self.new.faults ≡ added self.old.faults other.now.faults }
        ensures empty { self.new.empty ≡ added self.old.empty other.now.empty }
        ensures passed { self.new.milliseconds ≡ max self.old.milliseconds other.now.milliseconds }
        ensures still { self.new.still ≡ max self.old.still other.now.still }
        ensures resumed { self.new.resumed ≡ sum self.old.resumed other.now.resumed }
        ensures doubled { self.new.doubled ≡ sum self.old.doubled other.now.doubled }
    {
        self.times.join(&other.times);
        self.faults = self.faults.saturating_add(other.faults);
        self.empty = self.empty.saturating_add(other.empty);
        self.milliseconds = self.milliseconds.max(other.milliseconds);
        self.still = self.still.max(other.still);
        self.resumed = sum(self.resumed, other.resumed);
        self.doubled = sum(self.doubled, other.doubled);
    }

    /// Counts one more retrieve that was answered by an empty set.
    pub fn note_empty(&mut self)
        ensures { self.new ≡ with_empty self.old }
    {
        self.empty = self.empty.saturating_add(1);
    }

    /// Counts one more connection that went on.
    pub fn note_resumed(&mut self)
        ensures { self.new ≡ with_resumed self.old }
    {
        self.resumed = sum(self.resumed, Some(1));
    }

    /// Counts one more insert that acted twice.
    pub fn note_doubled(&mut self)
        ensures { self.new ≡ with_doubled self.old }
    {
        self.doubled = sum(self.doubled, Some(1));
    }

    /// Takes note of a time without a reply, in milliseconds.
    pub fn note_still(&mut self, passed: u64)
        ensures { self.new ≡ with_still passed self.old }
    {
        self.still = self.still.max(passed);
    }

    /// How many requests were answered each second.
    fn rate(&self) -> u64 {
        let per_second = self.times.total() as u128 * 1000 / self.milliseconds.max(1) as u128;
        u64::try_from(per_second).unwrap_or(u64::MAX)
    }
}

impl fmt::Display for Report {
    fn fmt<W: fmt::Write>(&self, f: &mut fmt::Formatter<W>) -> fmt::Result {
        let requests = self.times.total();
        let rate = self.rate();
        let faults = self.faults;
        let milliseconds = self.milliseconds;
        let still = self.still;
        writeln!(f, "requests     {requests:>12}")?;
        writeln!(f, "milliseconds {milliseconds:>12}")?;
        writeln!(f, "still        {still:>12}")?;
        writeln!(f, "a second     {rate:>12}")?;
        for (name, thousandths) in PERCENTILES {
            write_percentile(f, name, self.times.percentile(thousandths))?;
        }
        write!(f, "faults       {faults:>12}")?;
        write_count(f, "empty sets", (self.empty > 0).then_some(self.empty))?;
        write_count(f, "resumed", self.resumed)?;
        write_count(f, "doubled", self.doubled)
    }
}

/// A further line of the table, if there is such a count.
fn write_count<W: fmt::Write>(
    f: &mut fmt::Formatter<W>,
    name: &str,
    found: Option<u64>,
) -> fmt::Result {
    match found {
        Some(count) => write!(f, "\n{name:<12} {count:>12}"),
        None => Ok(()),
    }
}

/// One line of the table: `-` if there was no request.
fn write_percentile<W: fmt::Write>(
    f: &mut fmt::Formatter<W>,
    name: &str,
    found: Option<u64>,
) -> fmt::Result {
    match found {
        Some(microseconds) => writeln!(f, "{name:<12} {microseconds:>12} us"),
        None => writeln!(f, "{name:<12} {:>12}", "-"),
    }
}
