//! How lines show what nodes hold and give.

use crate::texts::IdText;
use chord_app_text::{Hex, ReplyText};
use chord_handover::Part;
use chord_ident::Span;
use chord_map::{Done, Pair, Reply, Request};
use chord_segment::Segment;
use std::fmt;
use std::str::from_utf8;

/// A span: `(A B]`.
#[derive(Clone, Copy, Debug)]
pub struct SpanText(pub Span);

impl fmt::Display for SpanText {
    fn fmt<W: fmt::Write>(&self, f: &mut fmt::Formatter<W>) -> fmt::Result {
        let after = IdText(self.0.after);
        let upto = IdText(self.0.upto);
        write!(f, "({after} {upto}]")
    }
}

/// A key or a value: a word of letters and digits as it is, others as `x:` and digits.
#[derive(Clone, Copy, Debug)]
struct BytesText<'a>(&'a [u8]);

impl fmt::Display for BytesText<'_> {
    fn fmt<W: fmt::Write>(&self, f: &mut fmt::Formatter<W>) -> fmt::Result {
        let is_word = !self.0.is_empty() && self.0.iter().all(|byte| byte.is_ascii_alphanumeric());
        if is_word {
            return f.write_str(from_utf8(self.0).unwrap_or("?"));
        }
        let hex = Hex(self.0);
        write!(f, "x:{hex}")
    }
}

/// A pair: `abc=x`.
#[derive(Clone, Copy, Debug)]
pub struct PairText<'a>(pub &'a Pair);

impl fmt::Display for PairText<'_> {
    fn fmt<W: fmt::Write>(&self, f: &mut fmt::Formatter<W>) -> fmt::Result {
        let key = BytesText(self.0.key.as_slice());
        let value = BytesText(self.0.value.as_slice());
        write!(f, "{key}={value}")
    }
}

/// A request: `abc+x` inserts, `abc-x` removes, `abc` retrieves.
#[derive(Clone, Copy, Debug)]
pub struct RequestText<'a>(pub &'a Request);

impl fmt::Display for RequestText<'_> {
    fn fmt<W: fmt::Write>(&self, f: &mut fmt::Formatter<W>) -> fmt::Result {
        let key = BytesText(self.0.key());
        let value = BytesText(self.0.value());
        match self.0 {
            Request::Insert { .. } => write!(f, "{key}+{value}"),
            Request::Remove { .. } => write!(f, "{key}-{value}"),
            Request::Retrieve { .. } => write!(f, "{key}"),
        }
    }
}

/// A call with its reply: `0#1 abc+x`, and `0#1 abc+x present`. An insert is answered `added` where
/// it says nothing.
#[derive(Clone, Copy, Debug)]
pub struct DoneText<'a>(pub &'a Done);

impl fmt::Display for DoneText<'_> {
    fn fmt<W: fmt::Write>(&self, f: &mut fmt::Formatter<W>) -> fmt::Result {
        let caller = self.0.caller;
        let number = self.0.number;
        let request = RequestText(&self.0.request);
        write!(f, "{caller}#{number} {request}")?;
        match (&self.0.request, &self.0.reply) {
            (Request::Insert { .. }, Reply::Added) => Ok(()),
            (_, reply) => {
                let reply = ReplyText(reply);
                write!(f, " {reply}")
            }
        }
    }
}

/// Calls with their replies, each behind a comma.
#[derive(Clone, Copy, Debug)]
pub struct DonesText<'a>(pub &'a [Done]);

impl fmt::Display for DonesText<'_> {
    fn fmt<W: fmt::Write>(&self, f: &mut fmt::Formatter<W>) -> fmt::Result {
        for done in self.0 {
            let done = DoneText(done);
            write!(f, ", {done}")?;
        }
        Ok(())
    }
}

/// A segment: its span, and for each caller its floor, if it has one, and its kept calls. In
/// `(A A], 0:2, 0#3 abc+x` caller 0 has the floor 2 and its call 3.
#[derive(Clone, Copy, Debug)]
pub struct SegmentText<'a>(pub &'a Segment);

impl fmt::Display for SegmentText<'_> {
    fn fmt<W: fmt::Write>(&self, f: &mut fmt::Formatter<W>) -> fmt::Result {
        let span = SpanText(self.0.span());
        write!(f, "{span}")?;
        for own in self.0.callers() {
            let caller = own.caller();
            let floor = own.floor();
            if floor != 0 {
                write!(f, ", {caller}:{floor}")?;
            }
            let kept = DonesText(own.kept());
            write!(f, "{kept}")?;
        }
        Ok(())
    }
}

/// A part of a handover: `0#1 to 1 1/1 (A C], 0#1 abc+x with abc=x` is the only part of the
/// first one of node 0 to node 1, with its segment and one pair.
#[derive(Clone, Copy, Debug)]
pub struct PartText<'a>(pub &'a Part);

impl fmt::Display for PartText<'_> {
    fn fmt<W: fmt::Write>(&self, f: &mut fmt::Formatter<W>) -> fmt::Result {
        let part = self.0;
        let from = part.from;
        let number = part.number;
        let to = part.to;
        let place = part.place;
        let of = part.of;
        write!(f, "{from}#{number} to {to} {place}/{of}")?;
        if let Some(segment) = &part.segment {
            let segment = SegmentText(segment);
            write!(f, " {segment}")?;
        }
        for pair in part.pairs.as_slice() {
            let pair = PairText(pair);
            write!(f, " with {pair}")?;
        }
        Ok(())
    }
}
