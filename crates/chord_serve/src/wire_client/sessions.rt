//! A client whose session goes on over other connections.
ghost use Rattle.std.specs.Prelude.{◌≡◌, ◌*◌, ◌++◌, IfOk, Err};
ghost use Rattle.std.specs.List.{All, flat_map};
ghost use Rattle.std.specs.Io.KnownBytes.{IsAtEnd};
ghost use Rattle.chord_wire.specs.Spelling.{IsWireRequest};
ghost use Rattle.chord_wire.specs.Streams.{request_frame};
ghost use Rattle.chord_serve.specs.BytesRead.{ReadsInTurns};
ghost use Rattle.chord_serve.specs.Resuming.{behind_loss, awaited_frames, refusal_of, opened_by, closed_by, OpenIs, BeginIs, ResumeIs, EndIs, CloseIs};

use crate::calls::CallFault;
use crate::told::be_told;
use crate::wire_client::{WireClient, frame_of};
use crate::write_bytes::write_bytes;
use chord_wire::{
    Answer, Answers, FaultCode, Opening, SessionAnswer, Token, WireRequest, write_close, write_open,
};
use std::alloc::{AllocError, Global};
use std::io::{Read, Write};
use thiserror::Error;

/// Why a server does not open a session.
#[derive(Clone, Copy, Debug, PartialEq, Eq, Error)]
pub enum OpenFault {
    #[error("the session is known already")]
    SessionKnown,
    #[error("no such session is kept")]
    NoSession,
    #[error("the server has no caller or session for the connection, and did nothing")]
    CallersSpent,
    #[error("the server keeps no sessions")]
    OutOfPlace,
    #[error("the server refused the open: {0}")]
    Refused(FaultCode),
    #[error("the answer is none to an open")]
    OtherAnswer,
    #[error("bytes came that nobody asked for")]
    Unasked,
    #[error("the session has numbers that the client never gave")]
    OtherNumbers,
    #[error("no answer to the open came: {0}")]
    Call(CallFault),
}

/// Why a session does not begin.
#[derive(Clone, Copy, Debug, PartialEq, Eq, Error)]
pub enum BeginFault {
    #[error("a session is of version 2")]
    Version,
    #[error("the client sent requests already")]
    Used,
    #[error("{0}")]
    Open(OpenFault),
}

/// Why a session does not go on.
#[derive(Clone, Copy, Debug, PartialEq, Eq, Error)]
pub enum ResumeFault {
    #[error("a session is of version 2")]
    Version,
    #[error("{0}")]
    Open(OpenFault),
    #[error("the requests could not be written again")]
    Write,
    #[error("out of memory")]
    Memory,
}

/// Why a session is not known to have ended.
#[derive(Clone, Copy, Debug, PartialEq, Eq, Error)]
pub enum CloseFault {
    #[error("a session is of version 2")]
    Version,
    #[error("answers are awaited")]
    InFlight,
    #[error("bytes came that nobody asked for")]
    Unasked,
    #[error("the server refused the close: {0}")]
    Refused(FaultCode),
    #[error("the answer is none to a close")]
    OtherAnswer,
    #[error("no answer to the close came: {0}")]
    Call(CallFault),
}

// The frames of these requests, one behind the other.
fn frames_of(alloc: Global, wires: &[WireRequest]) -> Result<Vec<u8>, AllocError>
    requires { All IsWireRequest wires.now }
    ensures { IfOk result (λ out. out.items ≡ flat_map request_frame wires.now) }
{
    let mut frames = Vec::new(alloc);
    for wire in wires {
        let frame = frame_of(alloc, wire)?;
        frames.extend_from_slice(&frame)?;
    }
    Ok(frames)
}

// Why a session is not opened that the server refuses with this fault.
fn refusal_of(code: FaultCode) -> OpenFault
    ensures { result ≡ refusal_of code }
{
    match code {
        FaultCode::SessionKnown => OpenFault::SessionKnown,
        FaultCode::NoSession => OpenFault::NoSession,
        FaultCode::CallersSpent => OpenFault::CallersSpent,
        FaultCode::OutOfPlace => OpenFault::OutOfPlace,
        other => OpenFault::Refused(other),
    }
}

// What the answer to a close says.
fn closed_by(answer: &SessionAnswer) -> Result<(), CloseFault>
    ensures { result ≡ closed_by answer.now }
{
    match answer {
        SessionAnswer::Closed => Ok(()),
        SessionAnswer::Answer(Answer::Fault { number: 0, code }) => {
            Err(CloseFault::Refused(*code))
        }
        _ => Err(CloseFault::OtherAnswer),
    }
}

// Writes a close, and takes its answer.
fn end_session<R: Read, W: Write>(
    alloc: Global,
    reader: &mut R,
    writer: &mut W,
    turns: u64,
) -> Result<(), CloseFault>
    ensures ends { EndIs result (R.remaining reader.old) (R.remaining reader.new) (W.contents writer.old) (W.contents writer.new) }
    ensures end { result ≡ Err (CloseFault.Call CallFault.Ended) → IsAtEnd (R.remaining reader.new) }
    ensures turns { ReadsInTurns (result ≡ Err (CloseFault.Call CallFault.TurnsSpent)) 4096 turns (R.remaining reader.old) (R.remaining reader.new) }
{
    let Ok(frame) = write_close(alloc) else {
        return Err(CloseFault::Call(CallFault::Memory));
    };
    match be_told(alloc, reader, writer, &frame, turns) {
        Ok(told) => closed_by(&told.answer),
        Err(fault) => Err(CloseFault::Call(fault)),
    }
}

impl WireClient {
    // Drops what was read of an answer.
    fn forget(&mut self)
        ensures { self.new ≡ behind_loss self.old }
    {
        self.answers = Answers::new(*self.awaited.allocator());
    }

    // What the answer to an open says.
    fn opened_by(&self, answer: &SessionAnswer, is_alone: bool) -> Result<(), OpenFault>
        ensures { result ≡ opened_by self.now answer.now is_alone }
    {
        match answer {
            SessionAnswer::Opened { floor, last } => {
                if !is_alone {
                    Err(OpenFault::Unasked)
                } else if *floor <= self.floor() && *last <= self.last {
                    Ok(())
                } else {
                    Err(OpenFault::OtherNumbers)
                }
            }
            SessionAnswer::Answer(Answer::Fault { number: 0, code }) => Err(refusal_of(*code)),
            _ => Err(OpenFault::OtherAnswer),
        }
    }

    // Writes an open, and takes its answer.
    fn open<R: Read, W: Write>(
        &self,
        reader: &mut R,
        writer: &mut W,
        opening: Opening,
        turns: u64,
    ) -> Result<(), OpenFault>
        ensures opens { OpenIs result opening self.now (R.remaining reader.old) (R.remaining reader.new) (W.contents writer.old) (W.contents writer.new) }
        ensures end { result ≡ Err (OpenFault.Call CallFault.Ended) → IsAtEnd (R.remaining reader.new) }
        ensures turns { ReadsInTurns (result ≡ Err (OpenFault.Call CallFault.TurnsSpent)) 4096 turns (R.remaining reader.old) (R.remaining reader.new) }
    {
        let alloc = *self.awaited.allocator();
        let Ok(frame) = write_open(alloc, opening) else {
            return Err(OpenFault::Call(CallFault::Memory));
        };
        match be_told(alloc, reader, writer, &frame, turns) {
            Ok(told) => self.opened_by(&told.answer, told.is_alone),
            Err(fault) => Err(OpenFault::Call(fault)),
        }
    }

    /// Begins a session of this token over a new connection. If the connection is lost before the
    /// answer, nobody knows whether the session began: resume it, and begin once more if there is
    /// none.
    pub fn begin<R: Read, W: Write>(
        &mut self,
        reader: &mut R,
        writer: &mut W,
        token: Token,
        turns: u64,
    ) -> Result<(), BeginFault>
        ensures begins { BeginIs result token self.old (R.remaining reader.old) (R.remaining reader.new) (W.contents writer.old) (W.contents writer.new) self.new }
        ensures end { result ≡ Err (BeginFault.Open (OpenFault.Call CallFault.Ended)) → IsAtEnd (R.remaining reader.new) }
        ensures turns { ReadsInTurns (result ≡ Err (BeginFault.Open (OpenFault.Call CallFault.TurnsSpent))) 4096 turns (R.remaining reader.old) (R.remaining reader.new) }
    {
        if self.version != 2 {
            return Err(BeginFault::Version);
        }
        if self.last != 0 {
            return Err(BeginFault::Used);
        }
        self.forget();
        let opening = Opening {
            token,
            resumes: false,
        };
        match self.open(reader, writer, opening, turns) {
            Ok(()) => Ok(()),
            Err(fault) => Err(BeginFault::Open(fault)),
        }
    }

    /// Goes on over a new connection with the session of this token, which lost its connection. The
    /// requests that got a fault are not among those that are written again: [`WireClient::again`]
    /// is for them. After a fault of reading or writing the client can be resumed over a further
    /// connection.
    pub fn resume<R: Read, W: Write>(
        &mut self,
        reader: &mut R,
        writer: &mut W,
        token: Token,
        turns: u64,
    ) -> Result<(), ResumeFault>
        ensures resumes { ResumeIs result token self.old (R.remaining reader.old) (R.remaining reader.new) (W.contents writer.old) (W.contents writer.new) self.new }
        ensures end { result ≡ Err (ResumeFault.Open (OpenFault.Call CallFault.Ended)) → IsAtEnd (R.remaining reader.new) }
        ensures turns { ReadsInTurns (result ≡ Err (ResumeFault.Open (OpenFault.Call CallFault.TurnsSpent))) 4096 turns (R.remaining reader.old) (R.remaining reader.new) }
    {
        if self.version != 2 {
            return Err(ResumeFault::Version);
        }
        self.forget();
        let Ok(frames) = frames_of(*self.awaited.allocator(), &self.awaited) else {
            return Err(ResumeFault::Memory);
        };
        let opening = Opening {
            token,
            resumes: true,
        };
        if let Err(fault) = self.open(reader, writer, opening, turns) {
            return Err(ResumeFault::Open(fault));
        }
        match write_bytes(writer, &frames) {
            Ok(()) => Ok(()),
            Err(_) => Err(ResumeFault::Write),
        }
    }

    /// Ends the session. Requests that got a fault are given up.
    pub fn close<R: Read, W: Write>(
        &self,
        reader: &mut R,
        writer: &mut W,
        turns: u64,
    ) -> Result<(), CloseFault>
        ensures closes { CloseIs result self.now (R.remaining reader.old) (R.remaining reader.new) (W.contents writer.old) (W.contents writer.new) }
        ensures end { result ≡ Err (CloseFault.Call CallFault.Ended) → IsAtEnd (R.remaining reader.new) }
        ensures turns { ReadsInTurns (result ≡ Err (CloseFault.Call CallFault.TurnsSpent)) 4096 turns (R.remaining reader.old) (R.remaining reader.new) }
    {
        if self.version != 2 {
            return Err(CloseFault::Version);
        }
        if !self.awaited.is_empty() {
            return Err(CloseFault::InFlight);
        }
        if self.answers.left() != 0 {
            return Err(CloseFault::Unasked);
        }
        end_session(*self.awaited.allocator(), reader, writer, turns)
    }
}
