//! Lines of the console.

use chord_app_text::{GrammarFault, LineFault, Words};
use chord_ident::Id;
use chord_map::Request;
use chord_world::Step;
use std::alloc::Global;

/// What a line of the console asks for.
#[derive(Debug, Drop)]
pub enum Line {
    Step(Step),
    /// How many calls were executed.
    History,
    /// Who holds this identifier.
    Holder(Id),
    /// The successors that this node lists.
    List(u64),
    /// A node copies the list of its first entry, whichever that is.
    Stabilise(u64),
}

impl Line {
    /// Reads a line without its end.
    pub fn read(alloc: Global, line: &str) -> Result<Line, LineFault> {
        let mut words = Words::new(line);
        let word = words.word()?;
        let line = line_of(alloc, word, &mut words)?;
        match words.end() {
            Ok(()) => Ok(line),
            Err(fault) => {
                drop(line);
                Err(fault)
            }
        }
    }
}

/// The line that begins with this word.
fn line_of(alloc: Global, word: &str, words: &mut Words) -> Result<Line, LineFault> {
    match word {
        "history" => Ok(Line::History),
        "holder" => Ok(Line::Holder(words.id()?)),
        "list" => Ok(Line::List(words.number()?)),
        "stabilise" => Ok(Line::Stabilise(words.number()?)),
        _ => Ok(Line::Step(step_of(alloc, word, words)?)),
    }
}

/// The step of a line that begins with this word.
fn step_of(alloc: Global, word: &str, words: &mut Words) -> Result<Step, LineFault> {
    match word {
        "insert" | "retrieve" | "remove" => submit(alloc, word, words),
        "create" => create(words),
        "caller" => caller(words),
        "resend" => resend(words),
        "giveup" => give_up(words),
        "meet" => meet(words),
        "join" => join(words),
        "cut" => cut(words),
        "merge" => merge(words),
        "give" => give(words),
        "part" => part(words),
        "candidate" => candidate(words),
        "rectify" => rectify(words),
        "finger" => finger(words),
        _ => step_of_one(word, words),
    }
}

/// The step of a line that has this word and one number.
fn step_of_one(word: &str, words: &mut Words) -> Result<Step, LineFault> {
    match word {
        "deliver" => Ok(Step::Deliver {
            message: words.number()?,
        }),
        "show" => Ok(Step::Show {
            caller: words.number()?,
        }),
        "drop" => Ok(Step::DropDead {
            node: words.number()?,
        }),
        "leave" => Ok(Step::Leave {
            node: words.number()?,
        }),
        "retire" => Ok(Step::Retire {
            node: words.number()?,
        }),
        "crash" => Ok(Step::Crash {
            node: words.number()?,
        }),
        "rescue" => Ok(Step::Rescue {
            node: words.number()?,
        }),
        _ => Err(GrammarFault::NoLine.into()),
    }
}

fn create(words: &mut Words) -> Result<Step, LineFault> {
    Ok(Step::Create { id: words.id()? })
}

/// A caller with the window on the line, or else with window 1.
fn caller(words: &mut Words) -> Result<Step, LineFault> {
    let window = if words.has_more() { words.number()? } else { 1 };
    Ok(Step::OpenCaller { window })
}

/// A caller's request to a node, of the kind that the word says.
fn submit(alloc: Global, word: &str, words: &mut Words) -> Result<Step, LineFault> {
    Ok(Step::Submit {
        caller: words.number()?,
        via: words.number()?,
        request: request(alloc, word, words)?,
    })
}

fn request(alloc: Global, word: &str, words: &mut Words) -> Result<Request, LineFault> {
    let key = words.bytes(alloc)?;
    match word {
        "retrieve" => Ok(Request::Retrieve { key }),
        "insert" => Ok(Request::Insert {
            key,
            value: words.bytes(alloc)?,
        }),
        _ => Ok(Request::Remove {
            key,
            value: words.bytes(alloc)?,
        }),
    }
}

/// Sends a request again: that of the number on the line, or else the least pending one.
fn resend(words: &mut Words) -> Result<Step, LineFault> {
    let caller = words.number()?;
    let via = words.number()?;
    let number = if words.has_more() {
        Some(words.number()?)
    } else {
        None
    };
    Ok(Step::Resend {
        caller,
        via,
        number,
    })
}

fn give_up(words: &mut Words) -> Result<Step, LineFault> {
    Ok(Step::GiveUp {
        caller: words.number()?,
        number: words.number()?,
    })
}

fn meet(words: &mut Words) -> Result<Step, LineFault> {
    Ok(Step::Meet {
        caller: words.number()?,
        message: words.number()?,
    })
}

fn join(words: &mut Words) -> Result<Step, LineFault> {
    Ok(Step::Join {
        id: words.id()?,
        behind: words.number()?,
    })
}

fn cut(words: &mut Words) -> Result<Step, LineFault> {
    Ok(Step::Cut {
        node: words.number()?,
        place: words.number()?,
        at: words.id()?,
    })
}

fn merge(words: &mut Words) -> Result<Step, LineFault> {
    Ok(Step::Merge {
        node: words.number()?,
        place: words.number()?,
        behind: words.number()?,
    })
}

fn give(words: &mut Words) -> Result<Step, LineFault> {
    Ok(Step::Give {
        node: words.number()?,
        place: words.number()?,
        to: words.number()?,
    })
}

/// Sends a part of a handover again.
fn part(words: &mut Words) -> Result<Step, LineFault> {
    Ok(Step::SendPart {
        node: words.number()?,
        to: words.number()?,
        number: words.number()?,
        part: words.number()?,
    })
}

fn candidate(words: &mut Words) -> Result<Step, LineFault> {
    Ok(Step::Candidate {
        node: words.number()?,
        peer: words.number()?,
    })
}

fn rectify(words: &mut Words) -> Result<Step, LineFault> {
    Ok(Step::Rectify {
        node: words.number()?,
        notifier: words.number()?,
    })
}

fn finger(words: &mut Words) -> Result<Step, LineFault> {
    Ok(Step::Finger {
        node: words.number()?,
        finger: words.number()?,
        to: words.number()?,
    })
}
