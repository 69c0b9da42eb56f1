//! Scripts of a caller, or of a client, which answers alike.
//!
//! - `begin 7 2`: number 7, with a window of two. What comes is its number.
//! - `submit abc`, `refusal abc`: an insert of x under `abc`, or under no byte with `-`; and why it
//!   would be refused. `resend 1`: the call of number 1 again.
//! - `take 7#1 added`: a reply to call 1 of caller 7. `give-up 1`, `waits 1`: of number 1.
//! - `turns 60`: for each number below 60 in turn submits the one two ahead, and takes its reply.
//!
//! Callers alone have `submitted 0 1`, `taken 1 2`, `mine`, `told`, `counts` (of both), `note`,
//! which keeps what it shows for a later `meet`, also of the next caller.
//!
//! Behind `; ` stands the floor, and which number waits.

use chord_app_text::{GrammarFault, LineFault, ReplyText, Words};
use chord_caller::{Ask, CallerCore, ClientCore, Note, SubmitFault, TakeOutcome, Told};
use chord_map::{Done, Reply, Request, SharedValues};
use chord_testkit::{
    DoneText, DonesText, Fresh, MEMORY, RequestText, Subject, Text, name_of, sum_of, two_numbers,
    yes_or_no,
};
use std::alloc::Global;
use std::mem;

#[derive(Drop)]
enum Core {
    Caller(CallerCore),
    Client(ClientCore),
}

#[derive(Drop)]
pub struct Calling<const IS_CLIENT: bool> {
    alloc: Global,
    core: Core,
    note: Option<Note>,
}

impl<const IS_CLIENT: bool> Fresh for Calling<IS_CLIENT> {
    fn fresh(alloc: Global) -> Calling<IS_CLIENT> {
        Calling {
            alloc,
            core: Core::Caller(CallerCore::new(alloc, 0, 1)),
            note: None,
        }
    }
}

impl<const IS_CLIENT: bool> Subject for Calling<IS_CLIENT> {
    fn act(&mut self, words: &mut Words) -> Result<Text, LineFault> {
        match words.word()? {
            "begin" => begin(self.alloc, &mut self.core, IS_CLIENT, words),
            "submit" => Ok(submit(&mut self.core, insert(self.alloc, words)?)),
            "refusal" => Ok(refusal(&self.core, insert(self.alloc, words)?)),
            "resend" => Ok(resend(&self.core, words.number()?)),
            "take" => Ok(take(&mut self.core, told(words)?)),
            "waits" => Ok(yes_or_no(is_pending(&self.core, words.number()?))),
            "give-up" => Ok(give_up(&mut self.core, words.number()?)),
            "turns" => turns(self.alloc, &mut self.core, words.number()?),
            word => match &mut self.core {
                Core::Caller(core) => caller_deed(core, &mut self.note, word, words),
                Core::Client(_) => Err(GrammarFault::NoLine.into()),
            },
        }
    }

    fn show(&self) -> Text {
        let floor = floor(&self.core);
        match pending(&self.core) {
            Some(number) => Text::of(format_args!("floor {floor} waits {number}")),
            None => Text::of(format_args!("floor {floor}")),
        }
    }

    fn sum(&self) -> u64 {
        match &self.core {
            Core::Caller(core) => sum_of(&core.mine()) ^ sum_of(&core.told()).rotate_left(1),
            Core::Client(_) => 0,
        }
    }
}

fn floor(core: &Core) -> u64 {
    match core {
        Core::Caller(core) => core.floor(),
        Core::Client(core) => core.floor(),
    }
}

fn pending(core: &Core) -> Option<u64> {
    match core {
        Core::Caller(core) => core.pending(),
        Core::Client(core) => core.pending(),
    }
}

fn is_pending(core: &Core, number: u64) -> bool {
    match core {
        Core::Caller(core) => core.is_pending(number),
        Core::Client(core) => core.is_pending(number),
    }
}

fn number_of(core: &Core) -> Text {
    let number = match core {
        Core::Caller(core) => core.number(),
        Core::Client(core) => core.number(),
    };
    Text::of(format_args!("{number}"))
}

fn begin(
    alloc: Global,
    place: &mut Core,
    is_client: bool,
    words: &mut Words,
) -> Result<Text, LineFault> {
    let number = words.number()?;
    let window = words.number()?;
    if window == 0 || window > 16 {
        return Err(GrammarFault::NoLine.into());
    }
    let core = if is_client {
        Core::Client(ClientCore::new(alloc, number, window)?)
    } else {
        Core::Caller(CallerCore::new(alloc, number, window))
    };
    let before = mem::replace(place, core);
    drop(before);
    Ok(number_of(place))
}

fn insert(alloc: Global, words: &mut Words) -> Result<Request, LineFault> {
    let key = match words.word()? {
        "-" => "",
        key => key,
    };
    Ok(Request::insert(alloc, key.as_bytes(), b"x")?)
}

fn show_ask(ask: Ask) -> Text {
    let caller = ask.caller;
    let number = ask.number;
    let floor = ask.floor;
    let hops = ask.hops;
    let request = RequestText(&ask.request);
    let text = Text::of(format_args!("{caller}#{number} floor {floor} hops {hops} {request}"));
    drop(ask);
    text
}

fn submit_to(core: &mut Core, request: Request) -> Result<Ask, SubmitFault> {
    match core {
        Core::Caller(core) => core.submit(request),
        Core::Client(core) => core.submit(request),
    }
}

fn submit(core: &mut Core, request: Request) -> Text {
    match submit_to(core, request) {
        Ok(ask) => show_ask(ask),
        Err(fault) => name_of(&fault),
    }
}

fn refusal(core: &Core, request: Request) -> Text {
    let refusal = match core {
        Core::Caller(core) => core.refusal(&request),
        Core::Client(core) => core.refusal(&request),
    };
    drop(request);
    name_of(&refusal)
}

fn resend(core: &Core, number: u64) -> Text {
    let again = match core {
        Core::Caller(core) => core.resend(number),
        Core::Client(core) => core.resend(number),
    };
    match again {
        Ok(ask) => show_ask(ask),
        Err(fault) => name_of(&fault),
    }
}

fn told(words: &mut Words) -> Result<Told, LineFault> {
    let (caller, number) = two_numbers(words, "#")?;
    let reply = match words.word()? {
        "added" => Reply::Added,
        "present" => Reply::Present,
        "values" => Reply::Values(SharedValues::empty()),
        _ => return Err(GrammarFault::NoLine.into()),
    };
    Ok(Told {
        caller,
        number,
        reply,
    })
}

fn take(core: &mut Core, told: Told) -> Text {
    let reply = Text::of(ReplyText(&told.reply));
    match core {
        Core::Caller(core) => match core.take(told) {
            Ok(heard) => name_of(&heard),
            Err(fault) => name_of(&fault),
        },
        Core::Client(core) => of_outcome(core.take(told), reply),
    }
}

/// A client must hand out the reply that it took.
fn of_outcome(outcome: TakeOutcome, reply: Text) -> Text {
    let text = match &outcome {
        TakeOutcome::Fresh(came) => {
            if Text::of(ReplyText(came)).as_str() == reply.as_str() {
                Text::of("Fresh")
            } else {
                Text::of("Fresh, another reply")
            }
        }
        TakeOutcome::Known => Text::of("Known"),
        TakeOutcome::Foreign => Text::of("Foreign"),
    };
    drop(outcome);
    text
}

fn give_up(core: &mut Core, number: u64) -> Text {
    match core {
        Core::Caller(core) if core.is_pending(number) => core.give_up(number),
        Core::Client(core) if core.is_pending(number) => core.give_up(number),
        _ => return Text::of("NotPending"),
    }
    Text::of("GivenUp")
}

/// The number of the next insert, tried again if memory was refused.
fn next_number(alloc: Global, core: &mut Core) -> Option<u64> {
    let mut submitted = submit_to(core, Request::insert(alloc, b"a", b"x").ok()?);
    if matches!(&submitted, Err(SubmitFault::Memory)) {
        drop(submitted);
        submitted = submit_to(core, Request::insert(alloc, b"a", b"x").ok()?);
    }
    let ask = submitted.ok()?;
    let number = ask.number;
    drop(ask);
    Some(number)
}

/// Takes the reply to an insert of this number, which added its value.
fn take_added(core: &mut Core, number: u64) -> Text {
    let caller = match core {
        Core::Caller(core) => core.number(),
        Core::Client(core) => core.number(),
    };
    let reply = Reply::Added;
    take(
        core,
        Told {
            caller,
            number,
            reply,
        },
    )
}

/// Whether the number two ahead is submitted, and then the reply to this one taken, which raises
/// the floor. What was refused memory is done again.
fn turns_once(alloc: Global, core: &mut Core, number: u64) -> bool {
    let ahead = next_number(alloc, core);
    let mut taken = take_added(core, number);
    if taken.as_str() == MEMORY {
        taken = take_added(core, number);
    }
    ahead == Some(number.saturating_add(2)) && taken.as_str() == "Fresh" && floor(core) == number
}

fn turns(alloc: Global, core: &mut Core, end: u64) -> Result<Text, LineFault> {
    for number in 1..end {
        if !turns_once(alloc, core, number) {
            return Ok(Text::of(format_args!("not at {number}")));
        }
    }
    Ok(Text::of("Turned"))
}

fn caller_deed(
    core: &mut CallerCore,
    note: &mut Option<Note>,
    word: &str,
    words: &mut Words,
) -> Result<Text, LineFault> {
    match word {
        "mine" => Ok(with_dones("mine", core.mine())),
        "told" => Ok(with_dones("told", core.told())),
        "counts" => Ok(counts(core)),
        "note" => Ok(show_note(core, note)),
        "meet" => meet(core, note),
        "submitted" | "taken" => look(core, word, words),
        _ => Err(GrammarFault::NoLine.into()),
    }
}

fn with_dones(word: &str, dones: &[Done]) -> Text {
    let dones = DonesText(dones);
    Text::of(format_args!("{word}{dones}"))
}

fn counts(core: &CallerCore) -> Text {
    let mine = core.mine().len();
    let told = core.told().len();
    Text::of(format_args!("{mine} {told}"))
}

fn show_note(core: &CallerCore, place: &mut Option<Note>) -> Text {
    let Ok(note) = core.show() else {
        return Text::of(MEMORY);
    };
    let caller = note.caller;
    let dones = DonesText(note.done.as_slice());
    let text = Text::of(format_args!("of {caller}{dones}"));
    let before = mem::replace(place, Some(note));
    drop(before);
    text
}

fn meet(core: &mut CallerCore, note: &Option<Note>) -> Result<Text, LineFault> {
    let Some(note) = note else {
        return Err(GrammarFault::NoLine.into());
    };
    match core.meet(note) {
        Ok(()) => Ok(Text::of("Met")),
        Err(_) => Ok(Text::of(MEMORY)),
    }
}

/// Which numbers were submitted, or which calls were taken.
fn look(core: &CallerCore, word: &str, words: &mut Words) -> Result<Text, LineFault> {
    let mut text = Text::of(word);
    for _ in 0..8u64 {
        if words.has_more() {
            let number = words.number()?;
            let next = if word == "taken" {
                taken(core, number)
            } else {
                yes_or_no(core.was_submitted(number))
            };
            text = text.and_str(" ", 1).and_str(next.as_str(), 64);
        }
    }
    Ok(text)
}

fn taken(core: &CallerCore, number: u64) -> Text {
    match core.taken(number) {
        Some(done) => Text::of(DoneText(done)),
        None => Text::of("None"),
    }
}
