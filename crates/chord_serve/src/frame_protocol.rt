//! Frames, as the protocol of a link.
ghost use Rattle.std.specs.Prelude.{◌≡◌, ◌++◌, ℕ, List, length, Ok, false, true, IfErr};
ghost use Rattle.std.specs.Option.{ForSome};
ghost use Rattle.chord_wire.specs.Spelling.{IsWireRequest};
ghost use Rattle.chord_serve.specs.Ends.{IsStop};
ghost use Rattle.chord_serve.specs.Parting.{parted_as};
ghost use Rattle.chord_serve.specs.Question.{IsAnswer};
ghost use Rattle.chord_serve.specs.Steps.{IsKept};
ghost use Rattle.chord_serve.specs.declared.link.stage.Step.TheVariants.{Later};

use crate::asker::{Asked, Asker};
use crate::client_session::ClientSession;
use crate::due::Due;
use crate::link::protocol::Protocol;
use crate::link::stage::Step;
use crate::parted::Parted;
use crate::refusing::{BAD_VERSION, OUT_OF_PLACE, close, is_other, refuse};
use crate::served::Served;
use chord_wire::{FaultCode, SessionFrame, SessionFrames, WireRequest};
use std::alloc::{AllocError, Global};

/// The bytes that came and are not answered yet, the session, and the request that waits for its
/// answer.
#[derive(Drop)]
pub struct FrameProtocol<A> {
    frames: SessionFrames,
    client: ClientSession<A>,
    // Whether the connection began with an open.
    is_opened: bool,
    // Whether the session cannot go on.
    is_over: bool,
    // The number of the request that waits, if one does.
    waiting: Option<u64>,
    ghost kept: { ForSome waiting (λ number. IsKept number client.numbers) },
}

impl<A> FrameProtocol<A> {
    ghost use Rattle.chord_serve.specs.Framing.{FrameIdles};

    /// A session goes on with these bytes. `is_opened` says whether it began with an open.
    pub fn new(frames: SessionFrames, client: ClientSession<A>, is_opened: bool) -> FrameProtocol<A>
        ensures frames { result.frames ≡ frames }
        ensures client { result.client ≡ client }
        ensures opened { result.is_opened ≡ is_opened }
        ensures over { result.is_over ≡ false }
        ensures idle { FrameIdles result }
    {
        FrameProtocol {
            frames,
            client,
            is_opened,
            is_over: false,
            waiting: None,
        }
    }

    /// What is left of the session.
    pub fn into_parted(self) -> Parted<A>
        ensures { result ≡ parted_as self.is_over self.client }
    {
        let FrameProtocol {
            frames,
            client,
            is_opened: _,
            is_over,
            waiting: _,
        } = self;
        drop(frames);
        if is_over {
            return Parted::Over(client.into_asker());
        }
        Parted::Kept(client)
    }
}

impl<A: Asker> FrameProtocol<A> {
    ghost use Rattle.chord_serve.specs.Framing.{FrameAsked, FrameIdles, FrameSteps, TakesRequest};

    /// Tells the answer to the request of this number, unless that has none yet and may wait.
    fn settle(
        &mut self,
        alloc: Global,
        due: &mut Due,
        number: u64,
        answer: Asked,
        may_wait: bool,
    ) -> Result<Step, Served>
        requires fits { IsAnswer answer }
        requires kept { IsKept number self.old.client.numbers }
        requires idle { FrameIdles self.old }
        ensures next { (before : _) → FrameAsked A.answers before number answer self.old
            → FrameSteps A.answers result before due.old due.new self.new }
        ensures frames { self.new.frames ≡ self.old.frames }
        ensures grows { (bytes : List ℕ) × (due.new ≡ due.old ++ bytes) }
        ensures stop { IfErr result IsStop }
        ensures patient { result ≡ Ok Later → may_wait ≡ true }
    {
        if may_wait && matches!(answer, Asked::NoAnswer) && self.client.asker.may_try_again() {
            self.waiting = Some(number);
            return Ok(Step::Later);
        }
        if matches!(answer, Asked::NoAnswer) {
            self.client.asker.leave_unanswered();
        }
        match self.client.tell(alloc, due, number, answer) {
            Ok(()) => Ok(Step::Answered),
            Err(_) => {
                self.is_over = true;
                Err(Served::Memory)
            }
        }
    }

    /// Answers a request whose frame was taken off, unless it may wait for its answer.
    fn answer(
        &mut self,
        alloc: Global,
        due: &mut Due,
        wire: WireRequest,
        may_wait: bool,
    ) -> Result<Step, Served>
        requires fits { IsWireRequest wire }
        requires idle { FrameIdles self.old }
        ensures next { (before : _) → TakesRequest before wire self.old
            → before.client ≡ self.old.client
            → FrameSteps A.answers result before due.old due.new self.new }
        ensures frames { self.new.frames ≡ self.old.frames }
        ensures grows { (bytes : List ℕ) × (due.new ≡ due.old ++ bytes) }
        ensures stop { IfErr result IsStop }
        ensures patient { result ≡ Ok Later → may_wait ≡ true }
    {
        if is_other(self.client.version, wire.version) {
            return Err(refuse(alloc, due, BAD_VERSION));
        }
        let number = wire.number;
        match self.client.begin(alloc, due, wire) {
            Ok(None) => Ok(Step::Answered),
            Ok(Some(answer)) => self.settle(alloc, due, number, answer, may_wait),
            Err(_) => {
                self.is_over = true;
                Err(Served::Memory)
            }
        }
    }
}

impl<A: Asker> Protocol for FrameProtocol<A> {
    ghost use Rattle.chord_serve.specs.Framing.{FrameBegun, FrameHears, FrameIdles, FrameRests, FrameSays, FrameStops, is_between};

    ghost hears = { FrameHears };

    ghost says = { FrameSays A.answers };

    ghost stops = { FrameStops A.answers };

    ghost rests = { FrameRests };

    ghost idle = { FrameIdles };

    ghost begun = { FrameBegun A.answers };

    ghost between = { is_between };

    ghost unread = { λ c. length c.frames };

    ghost partial = { λ c. length c.frames };

    fn is_between(&self) -> bool {
        self.frames.left() == 0
    }

    fn partial(&self) -> u64 {
        self.frames.left() as u64
    }

    fn feed(&mut self, piece: &[u8]) -> Result<(), AllocError> {
        match self.frames.feed(piece) {
            Ok(()) => Ok(()),
            Err(_) => Err(AllocError),
        }
    }

    fn answer_next(
        &mut self,
        alloc: Global,
        due: &mut Due,
        may_wait: bool,
    ) -> Result<Step, Served> {
        if let Some(number) = self.waiting {
            self.waiting = None;
            let answer = self.client.asker.try_again();
            return self.settle(alloc, due, number, answer, may_wait);
        }
        let next = match self.frames.next() {
            Ok(next) => next,
            Err(fault) => {
                if fault.code == FaultCode::Memory {
                    return Err(Served::Memory);
                }
                return Err(refuse(alloc, due, fault));
            }
        };
        let Some(frame) = next else {
            return Ok(Step::Nothing);
        };
        match frame {
            SessionFrame::Request(wire) => self.answer(alloc, due, wire, may_wait),
            SessionFrame::Open(_) => Err(refuse(alloc, due, OUT_OF_PLACE)),
            SessionFrame::Close => {
                if !self.is_opened {
                    return Err(refuse(alloc, due, OUT_OF_PLACE));
                }
                self.is_over = true;
                Err(close(alloc, due))
            }
        }
    }
}
