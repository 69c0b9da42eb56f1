//! What nodes do with messages and with what they hold, without a lock.
//!
//! - `found 4`: node 0, at A, which holds the circle, with room for 4 pairs. `newborn 4`: node 1, at
//!   C, which holds nothing.
//! - `0 ask 1 insert abc x`, `0 ask-by-id ..`: what node 0 sends for call 1 of caller 7, which may
//!   come with the identifier of its key. `0 part`, `0 got`, `0 declined`: what it sends for the part
//!   of the first handover of node 0 to node 1, which is kept and comes as a copy, or for the answer
//!   to that.
//! - `0 cut 0 C`, `0 give 0`: segment 0 is cut, or given to node 1. `0 leave`, `0 retire`.
//! - `0 tidy C`, `0 join C`: what tidying finds if the predecessor is at C, and whether segments
//!   between that and the node are joined. `0 trim 0 2`: whether a piece of two pairs is cut off.
//! - `for ask`, `for part` and the like: which of nodes 0 and 1 such a message is for.
//!
//! Behind `; ` stands of each node in which of its segments keys are, how many segments and pairs it
//! has, and how many handovers it gives.

use super::running::{Roomy, outcome};
use super::{ONE, ZERO};
use chord_app_text::{GrammarFault, LineFault, Words};
use chord_caller::Ask;
use chord_handover::{Part, Ticket};
use chord_ident::Id;
use chord_journal::JournalBuffer;
use chord_links::Links;
use chord_live_ring::{Target, deal, join_adjoining, tidy, trim};
use chord_live_steps::{deal_by_id, is_for};
use chord_map::Request;
use chord_node::{Message, Node};
use chord_store::{CappedStore, EntryStore};
use chord_testkit::{CallText, Fresh, Subject, Text, follow, ident, name_of, yes_or_no};
use chord_tree_store::TreeStore;
use std::alloc::Global;
use std::str::from_utf8;
use std::test::Fail;

/// The first handover of node 0 to node 1.
const FIRST: Ticket = Ticket {
    from: 0,
    to: 1,
    number: 1,
};

/// Keys in the order of their identifiers: that of `d` is before A, and those of the others follow.
const KEYS: [&[u8]; 5] = [b"c", b"a", b"abc", b"b", b"d"];

#[derive(Drop)]
struct Dealing<S: EntryStore> {
    alloc: Global,
    zero: Option<Node<S>>,
    one: Option<Node<S>>,
    part: Option<Part>,
}

impl<S: Roomy> Fresh for Dealing<S> {
    fn fresh(alloc: Global) -> Dealing<S> {
        Dealing {
            alloc,
            zero: None,
            one: None,
            part: None,
        }
    }
}

impl<S: Roomy> Subject for Dealing<S> {
    fn act(&mut self, words: &mut Words) -> Result<Text, LineFault> {
        let alloc = self.alloc;
        match words.word()? {
            "found" => {
                self.zero = founded(alloc, words.number()?);
                Ok(yes_or_no(self.zero.is_some()))
            }
            "newborn" => {
                self.one = newborn(alloc, words.number()?);
                Ok(yes_or_no(self.one.is_some()))
            }
            "for" => {
                let message = message(alloc, &self.part, words)?;
                let for_zero = is_for(&message, 0);
                let for_one = is_for(&message, 1);
                drop(message);
                Ok(Text::of(format_args!("{for_zero} {for_one}")))
            }
            "0" => act(alloc, &mut self.zero, &mut self.part, words),
            "1" => act(alloc, &mut self.one, &mut self.part, words),
            _ => Err(GrammarFault::NoLine.into()),
        }
    }

    fn show(&self) -> Text {
        let zero = shown(&self.zero);
        let one = shown(&self.one);
        zero.and_str(one.as_str(), 120)
    }
}

fn founded<S: Roomy>(alloc: Global, room: u64) -> Option<Node<S>> {
    let store = S::with_room(alloc, room);
    if store.count() != 0 {
        drop(store);
        return None;
    }
    Node::found(alloc, ZERO, 3, store).ok()
}

fn newborn<S: Roomy>(alloc: Global, room: u64) -> Option<Node<S>> {
    let store = S::with_room(alloc, room);
    if store.count() != 0 {
        drop(store);
        return None;
    }
    Some(Node::newborn(alloc, Links::alone(ONE, 3), store))
}

fn act<S: EntryStore>(
    alloc: Global,
    node: &mut Option<Node<S>>,
    part: &mut Option<Part>,
    words: &mut Words,
) -> Result<Text, LineFault> {
    let Some(node) = node else {
        return Err(GrammarFault::NoLine.into());
    };
    let line = *words;
    match words.word()? {
        "tidy" => Ok(name_of(&tidy(node, ident(words)?)?)),
        "join" => Ok(yes_or_no(join_adjoining(node, ident(words)?)?)),
        "trim" => {
            let place = words.number()? as usize;
            Ok(yes_or_no(trim(node, place, words.number()?)?))
        }
        "cut" => {
            let place = words.number()? as usize;
            Ok(name_of(&node.cut_at(place, ident(words)?)))
        }
        "give" => match node.give(words.number()? as usize, 1) {
            Ok(given) => {
                *part = Some(given);
                Ok(Text::of("Given"))
            }
            Err(fault) => Ok(name_of(&fault)),
        },
        "leave" => Ok(yes_or_no(node.begin_leave().is_ok())),
        "retire" => Ok(outcome(node.retire())),
        "ask-by-id" => send_by_id(alloc, node, ask(alloc, words)?),
        _ => {
            *words = line;
            let message = message(alloc, part, words)?;
            send(alloc, node, message)
        }
    }
}

/// The call of this number and key.
fn ask(alloc: Global, words: &mut Words) -> Result<Ask, LineFault> {
    let number = words.number()?;
    let key = words.word()?.as_bytes();
    if number < 1 || 16 < number {
        return Err(GrammarFault::NoLine.into());
    }
    Ok(Ask {
        caller: 7,
        number,
        floor: 0,
        request: Request::insert(alloc, key, b"x")?,
        hops: 255,
    })
}

/// The message of these words.
fn message(alloc: Global, part: &Option<Part>, words: &mut Words) -> Result<Message, LineFault> {
    match words.word()? {
        "ask" => Ok(Message::Ask(ask(alloc, words)?)),
        "part" => match part {
            Some(part) => Ok(Message::Part(part.try_copy()?)),
            None => Err(GrammarFault::NoLine.into()),
        },
        "got" => Ok(Message::Got(FIRST)),
        "declined" => Ok(Message::Declined(FIRST)),
        "full" => Ok(Message::Full {
            caller: 0,
            number: 1,
        }),
        _ => Err(GrammarFault::NoLine.into()),
    }
}

/// What the node sends for a message, if that is for it.
fn send<S: EntryStore>(
    alloc: Global,
    node: &mut Node<S>,
    message: Message,
) -> Result<Text, LineFault> {
    let number = node.number();
    if !is_for(&message, number) {
        drop(message);
        return Ok(Text::of("not for it"));
    }
    let sent = deal(node, message, &mut JournalBuffer::none(alloc))?;
    Ok(sent_by(sent))
}

/// What the node sends for a call that comes with the identifier of its key.
fn send_by_id<S: EntryStore>(
    alloc: Global,
    node: &mut Node<S>,
    ask: Ask,
) -> Result<Text, LineFault> {
    let id = Id::of_bytes(ask.request.key());
    let sent = deal_by_id(node, id, Message::Ask(ask), &mut JournalBuffer::none(alloc))?;
    Ok(sent_by(sent))
}

fn sent_by(sent: Option<(Target, Message)>) -> Text {
    let text = match &sent {
        Some((Target::Caller(to), Message::Told(told))) => {
            let call = CallText {
                caller: told.caller,
                number: told.number,
                reply: &told.reply,
            };
            Text::of(format_args!("to caller {to}: Told {call}"))
        }
        Some((Target::Caller(to), Message::Full { caller, number })) => {
            Text::of(format_args!("to caller {to}: Full {caller}#{number}"))
        }
        Some((Target::Node(to), Message::Got(of))) => {
            Text::of(format_args!("to node {to}: Got {}#{} to {}", of.from, of.number, of.to))
        }
        Some((Target::Node(to), Message::Declined(of))) => {
            Text::of(format_args!(
                "to node {to}: Declined {}#{} to {}",
                of.from, of.number, of.to
            ))
        }
        Some(_) => Text::of("something else"),
        None => Text::of("nothing"),
    };
    drop(sent);
    text
}

fn shown<S: EntryStore>(node: &Option<Node<S>>) -> Text {
    let Some(node) = node else {
        return Text::of("");
    };
    let number = node.number();
    let mut text = Text::of(format_args!("({number}:"));
    for key in KEYS {
        if let Some(place) = place_of(node, Id::of_bytes(key)) {
            let key = from_utf8(key).unwrap_or("?");
            text = text.and(format_args!(" {key} {place}"), 32);
        }
    }
    let held = node.held_count();
    let pairs = node.pair_count();
    let given = node.outbox_len();
    text.and(
        format_args!(" of {held}, pairs {pairs}, gives {given})"),
        80,
    )
}

/// The place of the segment that holds the identifier.
fn place_of<S: EntryStore>(node: &Node<S>, id: Id) -> Option<usize> {
    for place in 0..node.held_count() {
        if node.span(place)?.contains(id) {
            return Some(place);
        }
    }
    None
}

const CALLS: &str = "
== a node alone tidies
found 4 > Yes; (0: c 0 a 0 abc 0 b 0 d 0 of 1, pairs 0, gives 0)
# a segment around the predecessor is cut there, and what is not its own is to be given
0 tidy C > Cut; (0: c 0 a 0 abc 0 b 1 d 1 of 2, pairs 0, gives 0)
0 tidy C > Give(0)
# a leaving node tidies nothing
0 leave > Yes
0 tidy C > Nothing

== a call is answered to its caller
# so is that the store is full
found 1 > Yes; (0: c 0 a 0 abc 0 b 0 d 0 of 1, pairs 0, gives 0)
0 ask 1 abc > to caller 7: Told 7#1 added; (0: c 0 a 0 abc 0 b 0 d 0 of 1, pairs 1, gives 0)
0 ask 2 b > to caller 7: Full 7#2

== a call with its identifier is answered
found 1 > Yes; (0: c 0 a 0 abc 0 b 0 d 0 of 1, pairs 0, gives 0)
0 ask-by-id 1 abc > to caller 7: Told 7#1 added; (0: c 0 a 0 abc 0 b 0 d 0 of 1, pairs 1, gives 0)

== a newborn node drops a call
newborn 4 > Yes; (1: of 0, pairs 0, gives 0)
1 ask 1 abc > nothing

== a message is for the node that it names
# a call is for any, and what is for a caller for none
for ask 1 abc > true true
for got > true false
for declined > true false
for full > false false
";

const HANDOVERS: &str = "
== a part is answered to its giver
found 1 > Yes; (0: c 0 a 0 abc 0 b 0 d 0 of 1, pairs 0, gives 0)
newborn 1 > Yes; (0: c 0 a 0 abc 0 b 0 d 0 of 1, pairs 0, gives 0)(1: of 0, pairs 0, gives 0)
0 ask 1 abc > to caller 7: Told 7#1 added; (0: c 0 a 0 abc 0 b 0 d 0 of 1, pairs 1, gives 0)(1: of 0, pairs 0, gives 0)
0 cut 0 C > Ok(()); (0: c 0 a 0 abc 0 b 1 d 1 of 2, pairs 1, gives 0)(1: of 0, pairs 0, gives 0)
0 give 0 > Given; (0: b 0 d 0 of 1, pairs 0, gives 1)(1: of 0, pairs 0, gives 0)
for part > false true
# a handover is taken when its last part comes, and one that comes again is answered again
1 part > to node 0: Got 0#1 to 1; (0: b 0 d 0 of 1, pairs 0, gives 1)(1: c 0 a 0 abc 0 of 1, pairs 1, gives 0)
1 part > to node 0: Got 0#1 to 1
# nothing is sent for a Got, and the giver lets the handover go
0 got > nothing; (0: b 0 d 0 of 1, pairs 0, gives 0)(1: c 0 a 0 abc 0 of 1, pairs 1, gives 0)

== a gone node declines a part
# however often the part comes
found 1 > Yes; (0: c 0 a 0 abc 0 b 0 d 0 of 1, pairs 0, gives 0)
newborn 1 > Yes; (0: c 0 a 0 abc 0 b 0 d 0 of 1, pairs 0, gives 0)(1: of 0, pairs 0, gives 0)
0 ask 1 abc > to caller 7: Told 7#1 added; (0: c 0 a 0 abc 0 b 0 d 0 of 1, pairs 1, gives 0)(1: of 0, pairs 0, gives 0)
0 cut 0 C > Ok(()); (0: c 0 a 0 abc 0 b 1 d 1 of 2, pairs 1, gives 0)(1: of 0, pairs 0, gives 0)
0 give 0 > Given; (0: b 0 d 0 of 1, pairs 0, gives 1)(1: of 0, pairs 0, gives 0)
1 leave > Yes
1 retire > Ok(())
1 part > to node 0: Declined 0#1 to 1
1 part > to node 0: Declined 0#1 to 1
# the giver holds the segment again, and a Declined that comes again changes nothing
0 declined > nothing; (0: c 1 a 1 abc 1 b 0 d 0 of 2, pairs 1, gives 0)(1: of 0, pairs 0, gives 0)
0 declined > nothing

== a full store answers no part
found 1 > Yes; (0: c 0 a 0 abc 0 b 0 d 0 of 1, pairs 0, gives 0)
newborn 0 > Yes; (0: c 0 a 0 abc 0 b 0 d 0 of 1, pairs 0, gives 0)(1: of 0, pairs 0, gives 0)
0 ask 1 abc > to caller 7: Told 7#1 added; (0: c 0 a 0 abc 0 b 0 d 0 of 1, pairs 1, gives 0)(1: of 0, pairs 0, gives 0)
0 cut 0 C > Ok(()); (0: c 0 a 0 abc 0 b 1 d 1 of 2, pairs 1, gives 0)(1: of 0, pairs 0, gives 0)
0 give 0 > Given; (0: b 0 d 0 of 1, pairs 0, gives 1)(1: of 0, pairs 0, gives 0)
1 part > nothing
1 part > nothing
";

/// Of nodes with trees. The keys are `c`, `a` and `b`, in the order of their identifiers behind A.
const PIECES: &str = "
== a piece has the first pairs
found 0 > Yes; (0: c 0 a 0 abc 0 b 0 d 0 of 1, pairs 0, gives 0)
0 ask 1 a > to caller 7: Told 7#1 added; (0: c 0 a 0 abc 0 b 0 d 0 of 1, pairs 1, gives 0)
0 ask 2 b > to caller 7: Told 7#2 added; (0: c 0 a 0 abc 0 b 0 d 0 of 1, pairs 2, gives 0)
0 ask 3 c > to caller 7: Told 7#3 added; (0: c 0 a 0 abc 0 b 0 d 0 of 1, pairs 3, gives 0)
0 trim 0 1 > Yes; (0: c 0 a 1 abc 1 b 1 d 1 of 2, pairs 3, gives 0)
# one pair is not enough for a piece of two, but the two others are, behind which is no pair
0 trim 0 2 > No
0 trim 1 2 > Yes; (0: c 0 a 1 abc 1 b 1 d 2 of 3, pairs 3, gives 0)
# there are three segments
0 trim 3 1 > No

== segments that adjoin are joined
found 0 > Yes; (0: c 0 a 0 abc 0 b 0 d 0 of 1, pairs 0, gives 0)
0 ask 1 a > to caller 7: Told 7#1 added; (0: c 0 a 0 abc 0 b 0 d 0 of 1, pairs 1, gives 0)
0 ask 2 b > to caller 7: Told 7#2 added; (0: c 0 a 0 abc 0 b 0 d 0 of 1, pairs 2, gives 0)
0 ask 3 c > to caller 7: Told 7#3 added; (0: c 0 a 0 abc 0 b 0 d 0 of 1, pairs 3, gives 0)
# (A, c], (c, b] and (b, A]
0 cut 0 84a516841ba77a5b4648de2cd0dfcb30 > Ok(()); (0: c 0 a 1 abc 1 b 1 d 1 of 2, pairs 3, gives 0)
0 cut 1 e9d71f5ee7c92d6dc9e92ffdad17b8bd > Ok(()); (0: c 0 a 1 abc 1 b 1 d 2 of 3, pairs 3, gives 0)
# one segment alone lies between C and the node
0 join C > No
# all three are a node's that is alone: the second goes on behind the first, and then the third
0 join A > Yes; (0: c 0 a 0 abc 0 b 0 d 1 of 2, pairs 3, gives 0)
0 join A > Yes; (0: c 0 a 0 abc 0 b 0 d 0 of 1, pairs 3, gives 0)
# the whole circle is not joined with itself
0 join A > No
";

#[test]
fn nodes_deal_with_messages_and_segments(rt: HostRuntime) -> Result<(), Fail> {
    follow::<Dealing<CappedStore>>(rt.alloc(), CALLS)?;
    follow::<Dealing<CappedStore>>(rt.alloc(), HANDOVERS)?;
    follow::<Dealing<TreeStore>>(rt.alloc(), PIECES)
}
