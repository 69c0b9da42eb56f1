//! Segments.
ghost use Rattle.std.specs.Prelude.{◌≡◌, ◌+◌, ◌^◌, ◌<◌, ◌≤◌, ◌↔◌, Some, true, IsTrue, IsOk, IfOk, IfErr, OnOk, OnErr};
ghost use Rattle.chord_ident.specs.Circle.{Splits, in_span};
ghost use Rattle.chord_segment.specs.Callers.{marks_in, calls_in};
ghost use Rattle.chord_segment.specs.Marks.{mark_of};
ghost use Rattle.chord_segment.specs.Segment.{id_of, empty_segment, past_at, append};
ghost use Rattle.chord_segment.specs.Segment.Past.{New};
ghost use Rattle.chord_segment.specs.Shown.{past_shown};
ghost use Rattle.chord_segment.specs.Join.{CutIs, PartsAre, JoinIs, WholeIs};

use crate::caller_replies::CallerReplies;
use crate::callers::Callers;
use crate::fault::{CutFault, SegmentJoinFault, Uncut, Unjoined};
use crate::past::Past;
use chord_ident::{Id, Span};
use chord_map::Done;
use std::alloc::{AllocError, AllocFailed, Global};
use std::marker::Model;

/// An interval of the circle with, for each caller, a floor and the kept replies above it.
#[derive(Debug, Drop)]
pub struct Segment {
    span: Span,
    callers: Callers,
    readied: Option<u64>,
}

impl Model for Segment {
    ghost use Rattle.chord_segment.specs.Callers.{marks_in, calls_in, IsReadied};
    ghost use Rattle.chord_segment.specs.Segment.{RoomySegment};
    ghost use Rattle.chord_segment.specs.Rules.{IsSegment};

    ghost Value = { RoomySegment };

    ghost view = { λ segment. record { segment = record { span = segment.span; floors = marks_in segment.callers; kept = calls_in segment.callers }; room = segment.readied } };

    ghost invariant = { λ segment. record { rules : IsSegment (record { span = segment.span; floors = marks_in segment.callers; kept = calls_in segment.callers }); readied : IsReadied segment.readied segment.callers } };
}

impl Segment {
    /// A segment with no floors and no kept replies.
    pub fn empty(alloc: Global, span: Span) -> Segment
        ensures { result.segment ≡ empty_segment span }
    {
        Segment {
            span,
            callers: Callers::new(alloc),
            readied: None,
        }
    }

    /// The interval of the segment.
    pub fn span(&self) -> Span
        ensures value { result ≡ self.now.segment.span }
        ensures circle { (result.after.number < 2 ^ 128) × (result.upto.number < 2 ^ 128) }
    {
        Span::new(self.span.after, self.span.upto)
    }

    /// The callers that the segment has room for or knows, sorted by number, each with its floor
    /// and its kept calls.
    pub fn callers(&self) -> &[CallerReplies]
        ensures floors { marks_in result.now ≡ self.now.segment.floors }
        ensures kept { calls_in result.now ≡ self.now.segment.kept }
    {
        self.callers.as_slice()
    }

    /// The caller's floor; 0 if it has none.
    pub fn floor(&self, caller: u64) -> u64
        ensures { result ≡ mark_of caller self.now.segment.floors }
    {
        match self.callers.entry(caller) {
            Some(own) => own.floor(),
            None => 0,
        }
    }

    /// What the segment knows of a call.
    #[tactic(auto, unfolding(crate::specs::Segment::past_at))]
    pub fn find(&self, caller: u64, number: u64) -> Past<'_>
        ensures { past_shown result ≡ past_at caller number self.now.segment }
    {
        let Some(own) = self.callers.entry(caller) else {
            return if number == 0 { Past::Seen } else { Past::New };
        };
        if number <= own.floor() {
            return Past::Seen;
        }
        match own.find(caller, number) {
            Some(done) => Past::Kept(done),
            None => Past::New,
        }
    }

    /// Reserves room for one more call of the caller,
    /// so that the next `append` of one can't lack it.
    pub fn reserve(&mut self, caller: u64) -> Result<(), AllocError>
        ensures same { self.new.segment ≡ self.old.segment }
        ensures room { OnOk result (self.new.room ≡ Some caller) }
        ensures succeeds { self.old.room ≡ Some caller → IsOk result }
    {
        self.callers.reserve(caller, 1)?;
        self.readied = Some(caller);
        Ok(())
    }

    /// Keeps a call and raises its caller's floor. Calls at or below the floor are dropped.
    pub fn append(&mut self, done: Done, floor: u64) -> Result<(), AllocFailed<Done>>
        requires key { in_span self.old.segment.span (id_of done.request) ≡ true }
        requires new { past_at done.caller done.number self.old.segment ≡ New }
        requires above { floor < done.number }
        requires near { done.number ≤ floor + 16 }
        ensures ok { OnOk result (self.new.segment ≡ append done floor self.old.segment) }
        ensures err { OnErr result (self.new.segment ≡ self.old.segment) }
        ensures value_returned { IfErr result (λ refused. refused.value ≡ done) }
        ensures succeeds { self.old.room ≡ Some done.caller → IsOk result }
    {
        if self.callers.reserve(done.caller, 1).is_err() {
            return Err(AllocFailed { value: done });
        }
        self.readied = None;
        self.callers.keep(done, floor);
        Ok(())
    }

    /// Whether both have the same span, floors and kept calls, in the same order.
    pub fn equals(&self, other: &Segment) -> bool
        ensures { IsTrue result ↔ (self.now.segment ≡ other.now.segment) }
    {
        other.span == self.span && self.callers.equals(&other.callers)
    }

    /// An equal copy.
    pub fn try_copy(&self) -> Result<Segment, AllocError>
        ensures { IfOk result (λ copy. copy.segment ≡ self.now.segment) }
    {
        let callers = self.callers.try_copy()?;
        Ok(Segment {
            span: self.span,
            callers,
            readied: None,
        })
    }

    /// Cuts the segment: this one becomes the part before
    /// the point, and the part behind it is answered.
    pub fn split_off(&mut self, at: Id) -> Result<Segment, CutFault>
        ensures answer { CutIs at self.old.segment result self.new.segment }
        ensures split { OnOk result (Splits self.old.segment.span.after.number at.number self.old.segment.span.upto.number) }
    {
        let Ok((first, second)) = self.span.cut(at) else {
            return Err(CutFault::NotInside);
        };
        let mut callers = self.callers.try_copy()?;
        callers.keep_inside(second);
        self.readied = None;
        self.callers.keep_inside(first);
        self.span = first;
        Ok(Segment {
            span: second,
            callers,
            readied: None,
        })
    }

    /// Cuts the segment into the parts before and behind the point.
    pub fn cut(mut self, at: Id) -> Result<(Segment, Segment), Uncut>
        ensures { PartsAre at self.segment result }
    {
        match self.split_off(at) {
            Ok(second) => Ok((self, second)),
            Err(fault) => Err(Uncut {
                fault,
                segment: self,
            }),
        }
    }

    /// Joins the next segment behind this one, and empties the next.
    pub fn absorb(&mut self, next: &mut Segment) -> Result<(), SegmentJoinFault>
        ensures answer { JoinIs self.old.segment next.old.segment result self.new.segment }
        ensures err { OnErr result (next.new.segment ≡ next.old.segment) }
        ensures left { OnOk result (next.new.segment ≡ empty_segment next.old.segment.span) }
        ensures split { OnOk result (Splits self.old.segment.span.after.number self.old.segment.span.upto.number next.old.segment.span.upto.number) }
    {
        let at = self.span.upto;
        if at != next.span.after {
            return Err(SegmentJoinFault::NotAdjacent);
        }
        let whole = Span {
            after: self.span.after,
            upto: next.span.upto,
        };
        let Ok(_) = whole.cut(at) else {
            return Err(SegmentJoinFault::Overlap);
        };
        if self.callers.any_twice(&next.callers) {
            return Err(SegmentJoinFault::Twice);
        }
        self.callers.ready(&next.callers)?;
        self.readied = None;
        next.readied = None;
        self.callers.take_all(&mut next.callers);
        self.span = whole;
        Ok(())
    }

    /// Joins the next segment behind this one.
    pub fn join(mut self, mut next: Segment) -> Result<Segment, Unjoined>
        ensures { WholeIs self.segment next.segment result }
    {
        match self.absorb(&mut next) {
            Ok(()) => Ok(self),
            Err(fault) => Err(Unjoined {
                fault,
                first: self,
                second: next,
            }),
        }
    }
}
