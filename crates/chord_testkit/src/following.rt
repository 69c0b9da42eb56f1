//! Following scripts.

use crate::subject::{Fresh, MEMORY, Subject, Text};
use chord_app_text::{LineFault, Words};
use std::alloc::Global;
use std::fmt::InlineText;
use std::test::Fail;

/// What is wrong with a line.
type Report = InlineText<512>;

/// The answer to a line for which there is no memory before anything is done.
const NOT_READ: &str = "OutOfMemory";

/// Does the scripts of a text, each with a fresh subject, and tells which went wrong: of the first
/// one what came, of the others the line. A line that is refused memory is done again, and nothing
/// may have changed then, so scripts pass with any one growth refused. A line that begins with `! `
/// takes no memory: the subject may not be refused it there.
pub fn follow<S: Fresh>(alloc: Global, text: &str) -> Result<(), Fail> {
    let mut wrong = Report::of("");
    let mut are_right = true;
    for script in text.split("\n== ").skip(1) {
        if let Some(report) = wrong_script::<S>(alloc, script) {
            let told = if are_right { report } else { head_of(report) };
            wrong = wrong.and_str(told.as_str(), 512);
            are_right = false;
        }
    }
    if are_right {
        Ok(())
    } else {
        Err(Fail::new(wrong.as_str()))
    }
}

/// Does the lines of a text, without titles, with this subject.
pub fn follow_on<S: Subject>(subject: &mut S, lines: &str) -> Result<(), Fail> {
    match first_wrong(subject, lines) {
        Some(report) => Err(Fail::new(report.as_str())),
        None => Ok(()),
    }
}

/// The title and the line alone.
fn head_of(report: Report) -> Report {
    match report.as_str().split_once("\n  ") {
        Some((head, _)) => Report::of(format_args!("{head}\n")),
        None => report,
    }
}

/// What is wrong with the script, below its title.
fn wrong_script<S: Fresh>(alloc: Global, script: &str) -> Option<Report> {
    let (title, lines) = script.split_once("\n").unwrap_or((script, ""));
    let mut subject = S::fresh(alloc);
    let wrong = first_wrong(&mut subject, lines);
    drop(subject);
    let report = wrong?;
    let report = report.as_str();
    Some(Report::of(format_args!("== {title}\n{report}\n")))
}

/// The first line of which something else came than what is due. Lines count from 1.
fn first_wrong<S: Subject>(subject: &mut S, script: &str) -> Option<Report> {
    let mut number = 1u64;
    let mut rule = Text::of("# no rule");
    for line in script.lines() {
        let line = line.trim();
        if line.starts_with("#") {
            rule = Text::of(line);
        } else if !line.is_empty() {
            if let Some(came) = wrong_of(subject, line) {
                return Some(report(number, rule.as_str(), line, came));
            }
        }
        number = number.saturating_add(1);
    }
    None
}

/// The deed and what is due.
fn parts_of(line: &str) -> (&str, &str) {
    match line.split_once(" > ") {
        Some((deed, due)) => (deed.trim(), due.trim()),
        None => (line, ""),
    }
}

fn report(number: u64, rule: &str, line: &str, came: Text) -> Report {
    let (deed, due) = parts_of(line);
    let came = came.as_str();
    Report::of(format_args!("line {number}: {deed}\n  {rule}\n  due:  {due}\n  came: {came}"))
}

/// The answer to a line, if it is not the one that is due.
fn wrong_of<S: Subject>(subject: &mut S, line: &str) -> Option<Text> {
    let (deed, due) = parts_of(line);
    let before = subject.show();
    let came = act_as_marked(subject, deed);
    let came = with_shown(came, before, subject.show());
    if came.as_str() == due {
        None
    } else {
        Some(came)
    }
}

/// What came, and what the subject shows then, if that is new.
fn with_shown(came: Text, before: Text, after: Text) -> Text {
    if after.as_str() == before.as_str() {
        return came;
    }
    let came = came.as_str();
    let after = after.as_str();
    Text::of(format_args!("{came}; {after}"))
}

fn act_as_marked<S: Subject>(subject: &mut S, deed: &str) -> Text {
    match deed.strip_prefix("! ") {
        Some(deed) => act_again(subject, deed, false),
        None => act_again(subject, deed, true),
    }
}

/// Does it, and again if memory was refused: nothing may have changed then.
fn act_again<S: Subject>(subject: &mut S, deed: &str, takes_memory: bool) -> Text {
    let before = subject.show();
    let sum = subject.sum();
    let came = act(subject, deed);
    let is_refused = came.as_str() == NOT_READ || (takes_memory && came.as_str() == MEMORY);
    if !is_refused {
        return came;
    }
    if subject.sum() != sum || subject.show().as_str() != before.as_str() {
        return Text::of("changed by what was refused memory");
    }
    act(subject, deed)
}

fn act<S: Subject>(subject: &mut S, deed: &str) -> Text {
    let mut words = Words::new(deed);
    match subject.act(&mut words) {
        Ok(came) => match words.end() {
            Ok(()) => came,
            Err(fault) => unread(fault),
        },
        Err(fault) => unread(fault),
    }
}

/// The answer to a line that is not read to its end.
fn unread(fault: LineFault) -> Text {
    match fault {
        LineFault::OutOfMemory => Text::of(NOT_READ),
        LineFault::Grammar(why) => Text::of(format_args!("not read: {why:?}")),
    }
}
