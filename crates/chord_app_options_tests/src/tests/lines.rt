//! Scripts of command lines. What stands behind a first word other than `chord` is text as `quoted`
//! has it.
//!
//! - `chord ask --port 1`: what the line says (`saying`), or `refused` and the exit status.
//! - `usage chord load [OPTIONS] --port <N>`: the usage that the faults below print.
//! - `fault chord load --port x`: the exit status, and what is wrong, with the usage after that if
//!   it is another one; `text chord`: the exit status and the whole text.
//! - `write 4000x4 chord`: how the line ends, with room for 4,000 bytes of output and for 4 of
//!   errors, and which of both got the whole text. `write 4000x4 memory`: what refused memory ends.
//! - `print chord`: how the line ends once its text is printed.
//! - `small 7`, `number 3..9 7`: the number of a port, or from 3 to 9, that the word is.
//! - `stores tl`: whether the letters name stores.

use crate::quoted::{OneLine, all_words, rest, text};
use crate::tests::saying::said_by;
use chord_app_options::{
    commands, names_stores, number_from, print_fault, small_number, write_fault,
};
use chord_app_text::{GrammarFault, LineFault, Words};
use chord_testkit::{Subject, Text, follow_on, name_of, two_numbers, yes_or_no};
use std::alloc::{AllocError, Global};
use std::test::Fail;

#[derive(Drop)]
struct CommandLines<'a> {
    rt: &'a HostRuntime,
    /// The usage that faults print.
    usage: Text,
}

/// Does a script of command lines.
pub fn follow_lines(rt: &HostRuntime, script: &str) -> Result<(), Fail> {
    let mut lines = CommandLines {
        rt,
        usage: Text::of(""),
    };
    follow_on(&mut lines, script)
}

impl Subject for CommandLines<'_> {
    fn act(&mut self, words: &mut Words) -> Result<Text, LineFault> {
        let alloc = self.rt.alloc();
        let line = *words;
        match words.word()? {
            "chord" => {
                *words = line;
                said(alloc, words)
            }
            "usage" => {
                let usage = rest(alloc, words)?;
                self.usage = Text::of(usage.as_str());
                drop(usage);
                Ok(Text::of("Set"))
            }
            "fault" => {
                let fault = fault_in(alloc, words)?;
                told(alloc, fault, self.usage)
            }
            "text" => {
                let fault = fault_in(alloc, words)?;
                whole_text(alloc, fault)
            }
            "write" => write(alloc, words),
            "print" => {
                let fault = fault_in(alloc, words)?;
                Ok(name_of(&print_fault(self.rt, fault)))
            }
            deed => word_deed(alloc, deed, words),
        }
    }

    fn show(&self) -> Text {
        Text::of("")
    }
}

/// What a line says, or its fault or help.
fn read(alloc: Global, words: &[&str]) -> Result<Text, clap::Error> {
    let matches = commands(alloc)?.try_get_matches_from(words)?;
    let said = match matches.subcommand() {
        Some((name, found)) => said_by(alloc, name, found),
        None => Ok(Text::of("nothing")),
    };
    drop(matches);
    said
}

fn read_line(alloc: Global, words: &mut Words) -> Result<Result<Text, clap::Error>, LineFault> {
    let line = all_words(alloc, words)?;
    let said = read(alloc, line.as_slice());
    drop(line);
    Ok(said)
}

fn said(alloc: Global, words: &mut Words) -> Result<Text, LineFault> {
    match read_line(alloc, words)? {
        Ok(said) => Ok(said),
        Err(fault) => {
            let status = fault.exit_code();
            drop(fault);
            Ok(Text::of(format_args!("refused {status}")))
        }
    }
}

/// The fault of a line, or the help that it asks for.
fn fault_in(alloc: Global, words: &mut Words) -> Result<clap::Error, LineFault> {
    let mut ahead = *words;
    if ahead.word()? == "memory" {
        *words = ahead;
        return Ok(clap::Error::from(AllocError));
    }
    match read_line(alloc, words)? {
        Ok(_) => Err(GrammarFault::NoLine.into()),
        Err(fault) => Ok(fault),
    }
}

/// The exit status and the text of a fault or of help.
fn status_and_text(alloc: Global, fault: clap::Error) -> Result<(i32, String), LineFault> {
    let status = fault.exit_code();
    let text = fault.to_string(alloc);
    drop(fault);
    Ok((status, text?))
}

fn whole_text(alloc: Global, fault: clap::Error) -> Result<Text, LineFault> {
    let (status, text) = status_and_text(alloc, fault)?;
    let line = OneLine(text.as_str());
    let told = Text::of(format_args!("{status} {line}"));
    drop(text);
    Ok(told)
}

fn told(alloc: Global, fault: clap::Error, usage: Text) -> Result<Text, LineFault> {
    let (status, text) = status_and_text(alloc, fault)?;
    let what = Text::of(OneLine(without_usage(text.as_str(), usage.as_str())));
    drop(text);
    let what = what.as_str();
    Ok(Text::of(format_args!("{status} {what}")))
}

/// What is wrong, if the text says that, the usage and where there is help; else the whole text.
fn without_usage<'a>(text: &'a str, usage: &str) -> &'a str {
    let inside = text.strip_prefix("error: ").and_then(|text| text.strip_suffix(
        "\n\nFor more information, try '--help'.\n",
    ));
    match inside.and_then(|inside| inside.split_once("\n\nUsage: ")) {
        Some((what, its)) if its == usage => what,
        _ => text,
    }
}

/// The writers have the room that is named, for a text of at most 4,000 bytes.
fn write(alloc: Global, words: &mut Words) -> Result<Text, LineFault> {
    let (output, errors) = two_numbers(words, "x")?;
    let output = output.min(4_000) as usize;
    let errors = errors.min(4_000) as usize;
    let fault = fault_in(alloc, words)?;
    let mut output_room = [0u8; 4_000];
    let mut errors_room = [0u8; 4_000];
    let mut to_output = &mut output_room[..output];
    let mut to_errors = &mut errors_room[..errors];
    let ended = write_fault(&fault, &mut to_output, &mut to_errors);
    let output = output.saturating_sub(to_output.len());
    let errors = errors.saturating_sub(to_errors.len());
    let text = fault.to_string(alloc);
    drop(fault);
    let text = text?;
    let wrote = name_of(&ended);
    let wrote = with_got(wrote, ", output", &output_room[..output], text.as_str());
    let wrote = with_got(wrote, ", errors", &errors_room[..errors], text.as_str());
    drop(text);
    Ok(wrote)
}

/// What a stream got, if it got anything: its name where that is the text.
fn with_got(wrote: Text, name: &str, bytes: &[u8], text: &str) -> Text {
    if bytes.is_empty() {
        return wrote;
    }
    let wrote = wrote.and_str(name, 16);
    if bytes == text.as_bytes() {
        wrote
    } else {
        wrote.and_str(" of something else", 20)
    }
}

fn word_deed(alloc: Global, deed: &str, words: &mut Words) -> Result<Text, LineFault> {
    let (least, most) = match deed {
        "number" => two_numbers(words, "..")?,
        _ => (0, 0),
    };
    let word = text(alloc, words)?;
    let came = match deed {
        "small" => Some(name_of(&small_number(word.as_str()))),
        "number" => Some(name_of(&number_from(word.as_str(), least, most))),
        "stores" => Some(yes_or_no(names_stores(word.as_str()))),
        _ => None,
    };
    drop(word);
    match came {
        Some(came) => Ok(came),
        None => Err(GrammarFault::NoLine.into()),
    }
}
