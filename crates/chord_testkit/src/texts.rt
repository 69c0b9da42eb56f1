//! How lines show what the program answers. A plain enum has no text here: its `Debug` is one.

use chord_app_text::ReplyText;
use chord_ident::Id;
use chord_map::{Done, Reply};
use chord_node::Answered;
use std::fmt;

/// An identifier: `A`, `B` and `C` are those of the tests, at a quarter, a half and three quarters
/// of the circle, and `0` is the least.
#[derive(Clone, Copy, Debug)]
pub struct IdText(pub Id);

impl fmt::Display for IdText {
    fn fmt<W: fmt::Write>(&self, f: &mut fmt::Formatter<W>) -> fmt::Result {
        match self.0.number {
            0 => f.write_str("0"),
            0x40000000000000000000000000000000 => f.write_str("A"),
            0x80000000000000000000000000000000 => f.write_str("B"),
            0xc0000000000000000000000000000000 => f.write_str("C"),
            other => write!(f, "{other:032x}"),
        }
    }
}

/// A call with its reply: `0#1 added` is the first call of caller 0.
#[derive(Clone, Copy, Debug)]
pub struct CallText<'a> {
    pub caller: u64,
    pub number: u64,
    pub reply: &'a Reply,
}

impl<'a> CallText<'a> {
    pub fn of(done: &'a Done) -> CallText<'a> {
        CallText {
            caller: done.caller,
            number: done.number,
            reply: &done.reply,
        }
    }
}

impl fmt::Display for CallText<'_> {
    fn fmt<W: fmt::Write>(&self, f: &mut fmt::Formatter<W>) -> fmt::Result {
        let caller = self.caller;
        let number = self.number;
        let reply = ReplyText(self.reply);
        write!(f, "{caller}#{number} {reply}")
    }
}

/// What a node answers: `Told 0#1 added`, or `Forward 2: 0#1 hops 254`, a call that goes on to node
/// 2.
#[derive(Clone, Copy, Debug)]
pub struct AnsweredText<'a>(pub &'a Answered);

impl fmt::Display for AnsweredText<'_> {
    fn fmt<W: fmt::Write>(&self, f: &mut fmt::Formatter<W>) -> fmt::Result {
        match self.0 {
            Answered::Told(told) => {
                let call = CallText {
                    caller: told.caller,
                    number: told.number,
                    reply: &told.reply,
                };
                write!(f, "Told {call}")
            }
            Answered::Forward(to, ask) => {
                let caller = ask.caller;
                let number = ask.number;
                let hops = ask.hops;
                write!(f, "Forward {to}: {caller}#{number} hops {hops}")
            }
            Answered::Dropped => f.write_str("Dropped"),
            Answered::Full => f.write_str("Full"),
        }
    }
}
