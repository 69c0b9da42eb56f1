//! The results of loads: the times in a histogram, and the table of a report.
//!
//! - `record 5 2000`: the time 5 is recorded so often; `thousand`: each time below 1,000, once.
//! - `half 32`: the 50th percentile of a histogram of this time alone; `percentile 500`: that of
//!   these.
//! - `join 5 2000`: a histogram of the time 5, so often, is joined to this one.
//! - `buckets`: how many there are.
//! - `faults 3`, `milliseconds 400`, `still 7`, `empty 2`, `resumed 2`, `doubled 1`: what a report
//!   takes note of.
//! - `join-to 500 20`: this report is joined to another one, which takes its place. The other has
//!   each time below 1,000 once, lasted 500 milliseconds, was 20 of them without a reply, and could
//!   have doubled values, but did not.
//! - `table 1..6`: these lines of the report's table, from 1.
//!
//! Behind `; ` stands how many times were recorded.

use chord_app_ask::{Histogram, Report};
use chord_app_text::{GrammarFault, LineFault, Words};
use chord_testkit::{Fresh, Subject, Text, follow, name_of, two_numbers, yes_or_no};
use std::alloc::Global;
use std::mem;
use std::test::Fail;

/// A report, which is made at the first line.
#[derive(Drop)]
struct Results {
    alloc: Global,
    report: Option<Report>,
}

impl Fresh for Results {
    fn fresh(alloc: Global) -> Results {
        Results {
            alloc,
            report: None,
        }
    }
}

impl Subject for Results {
    fn act(&mut self, words: &mut Words) -> Result<Text, LineFault> {
        if self.report.is_none() {
            self.report = Some(Report::new(self.alloc)?);
        }
        match &mut self.report {
            Some(report) => of_report(self.alloc, report, words),
            None => Err(GrammarFault::NoLine.into()),
        }
    }

    fn show(&self) -> Text {
        match &self.report {
            Some(report) => name_of(&report.times.total()),
            None => Text::of("0"),
        }
    }
}

fn of_report(alloc: Global, report: &mut Report, words: &mut Words) -> Result<Text, LineFault> {
    match words.word()? {
        "record" => {
            let value = words.number()?;
            Ok(yes_or_no(report.times.record(value, words.number()?)))
        }
        "thousand" => Ok(yes_or_no(record_thousand(&mut report.times))),
        "half" => half_of(alloc, words.number()?),
        "percentile" => percentile(&report.times, words.number()?),
        "join" => {
            let other = histogram_of(alloc, words)?;
            report.times.join(&other);
            drop(other);
            Ok(Text::of("Joined"))
        }
        "join-to" => join_to(alloc, report, words),
        "buckets" => Ok(name_of(&report.times.buckets().len())),
        "table" => table(alloc, report, words),
        deed => note(report, deed, words.number()?),
    }
}

fn record_thousand(histogram: &mut Histogram) -> bool {
    for value in 0..1000 {
        if !histogram.record(value, 1) {
            return false;
        }
    }
    true
}

fn percentile(histogram: &Histogram, thousandths: u64) -> Result<Text, LineFault> {
    if thousandths < 1 || 1000 < thousandths {
        return Err(GrammarFault::NoLine.into());
    }
    Ok(name_of(&histogram.percentile(thousandths)))
}

fn half_of(alloc: Global, value: u64) -> Result<Text, LineFault> {
    let mut histogram = Histogram::new(alloc)?;
    let is_recorded = histogram.record(value, 1);
    let half = percentile(&histogram, 500);
    drop(histogram);
    if is_recorded {
        half
    } else {
        Ok(Text::of("not recorded"))
    }
}

/// A histogram of one time, so often.
fn histogram_of(alloc: Global, words: &mut Words) -> Result<Histogram, LineFault> {
    let value = words.number()?;
    let times = words.number()?;
    let mut histogram = Histogram::new(alloc)?;
    if histogram.record(value, times) {
        return Ok(histogram);
    }
    drop(histogram);
    Err(GrammarFault::NoLine.into())
}

fn join_to(alloc: Global, report: &mut Report, words: &mut Words) -> Result<Text, LineFault> {
    let milliseconds = words.number()?;
    let still = words.number()?;
    let mut other = Report::new(alloc)?;
    let is_recorded = record_thousand(&mut other.times);
    other.milliseconds = milliseconds;
    other.still = still;
    other.doubled = Some(0);
    other.join(report);
    let joined = mem::replace(report, other);
    drop(joined);
    Ok(yes_or_no(is_recorded))
}

fn note(report: &mut Report, deed: &str, number: u64) -> Result<Text, LineFault> {
    match deed {
        "faults" => report.faults = number,
        "milliseconds" => report.milliseconds = number,
        "still" => report.note_still(number),
        "empty" | "resumed" | "doubled" => note_often(report, deed, number),
        _ => return Err(GrammarFault::NoLine.into()),
    }
    Ok(Text::of("Noted"))
}

fn note_often(report: &mut Report, deed: &str, times: u64) {
    for _ in 0..times {
        match deed {
            "empty" => report.note_empty(),
            "resumed" => report.note_resumed(),
            _ => report.note_doubled(),
        }
    }
}

fn table(alloc: Global, report: &Report, words: &mut Words) -> Result<Text, LineFault> {
    let (first, last) = two_numbers(words, "..")?;
    let table = format!(in alloc; "{report}")?;
    let mut shown = Text::of("");
    for (place, line) in table.as_str().split("\n").enumerate() {
        let number = (place as u64).saturating_add(1);
        if first <= number && number <= last {
            shown = shown.and_str(line, 64).and_str("|", 1);
        }
    }
    drop(table);
    Ok(shown)
}

const SCRIPTS: &str = "
== buckets of values
half 0 > Some(0)
half 31 > Some(31)
half 32 > Some(33)
half 33 > Some(33)
half 34 > Some(35)
half 63 > Some(63)
half 64 > Some(67)
half 67 > Some(67)
half 68 > Some(71)
half 1000 > Some(1023)
half 1000000 > Some(1015807)
half 18446744073709551615 > Some(18446744073709551615)

== an empty histogram
percentile 500 > None
buckets > 976

== percentiles of a thousand
thousand > Yes; 1000
percentile 1 > Some(0)
percentile 10 > Some(9)
percentile 32 > Some(31)
percentile 33 > Some(33)
percentile 500 > Some(511)
percentile 999 > Some(1023)
percentile 1000 > Some(1023)

== there are less than 2^64 values
thousand > Yes; 1000
record 5 18446744073709551615 > No
record 5 18446744073709550615 > Yes; 18446744073709551615
record 5 1 > No
buckets > 976

== joined histograms
thousand > Yes; 1000
join 5 2000 > Joined; 3000
percentile 500 > Some(5)
join 5 18446744073709548615 > Joined; 18446744073709551615
percentile 500 > Some(5)

== what makes 2^64 is not joined
thousand > Yes; 1000
join 5 18446744073709550616 > Joined
percentile 500 > Some(511)

== the table of nothing in half a second
milliseconds 500 > Noted
still 500 > Noted
table 1..5 > requests                0|milliseconds          500|still                 500|a second                0|p50                     -|
table 6..20 > p90                     -|p99                     -|p99.9                   -|faults                  0|

== the table of two connections
# the last one ended after 500 milliseconds, and the longest time without a reply was 30
faults 3 > Noted
empty 2 > Noted
milliseconds 400 > Noted
still 7 > Noted
still 30 > Noted
still 9 > Noted
resumed 2 > Noted
doubled 1 > Noted
record 70 1000 > Yes; 1000
join-to 500 20 > Yes; 2000
table 1..6 > requests             2000|milliseconds          500|still                  30|a second             4000|p50                    71 us|p90                   799 us|
table 7..20 > p99                   991 us|p99.9                1023 us|faults                  3|empty sets              2|resumed                 2|doubled                 1|
";

#[test]
fn results_of_loads(rt: HostRuntime) -> Result<(), Fail> {
    follow::<Results>(rt.alloc(), SCRIPTS)
}
