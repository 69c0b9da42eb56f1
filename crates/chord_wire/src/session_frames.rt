//! A stream of a client's frames in a session.
ghost use Rattle.std.specs.Prelude.{◌≡◌, ◌++◌, ◌⊎◌, List, ℕ, Ok, Err, Some, IfOk, IfSome};
ghost use Rattle.chord_wire.specs.Fault.{out_of_memory};
ghost use Rattle.chord_wire.specs.Spelling.{IsBytes};
ghost use Rattle.chord_wire.specs.Reading.{TakesNext, FindsNext};
ghost use Rattle.chord_wire.specs.SessionSpelling.{IsSessionFrame, session_frame};
ghost use Rattle.chord_wire.specs.SessionReading.{next_session, begins_with_open, is_open, AsAlone};
ghost use Rattle.chord_wire.specs.declared.session_frame.SessionFrame.{SessionFrame};

use crate::codes::{LEAST_REQUEST, MOST_REQUEST, OPEN, VERSION_2};
use crate::fault::WireFault;
use crate::reader::{Framed, Reader};
use crate::reading::frame::body_at;
use crate::reading::session_body::session_in;
use crate::session_frame::SessionFrame;
use std::alloc::Global;

/// A stream of a client's frames in a session, in pieces of any length.
pub type SessionFrames = Reader<SessionFrame>;

// The next frame's content, and the length of the frame.
#[tactic(auto, unfolding(crate::specs::SessionReading::next_session))]
fn next_session(alloc: Global, bytes: &[u8]) -> Result<Option<(SessionFrame, usize)>, WireFault>
    ensures bytes { IsBytes bytes.now }
    ensures exact { FindsNext next_session bytes.now result }
{
    let Some((body, rest)) = body_at(LEAST_REQUEST, MOST_REQUEST, bytes)? else {
        return Ok(None);
    };
    let frame = session_in(alloc, body)?;
    Ok(Some((frame, bytes.len() - rest.len())))
}

// Whether the next frame is an open, if enough bytes are there to tell.
fn begins_with_open(bytes: &[u8]) -> Option<bool>
    ensures { result ≡ begins_with_open bytes.now }
{
    if bytes.len() < 6 {
        return None;
    }
    Some(bytes[4] == VERSION_2 && bytes[5] == OPEN)
}

impl Framed for SessionFrame {
    ghost next = { next_session };

    fn next_in(alloc: Global, bytes: &[u8]) -> Result<Option<(SessionFrame, usize)>, WireFault> {
        next_session(alloc, bytes)
    }
}

impl Reader<SessionFrame> {
    /// What the next frame has in it, if all of the frame was fed.
    pub fn next(&mut self) -> Result<Option<SessionFrame>, WireFault>
        // A frame has its one spelling, and is consumed.
        ensures found { IfOk result (λ next. IfSome next (λ x. IsSessionFrame x × (self.old ≡ session_frame x ++ self.new))) }
        // What the bytes spell is found, unless memory runs out.
        ensures only { (x : SessionFrame) (rest : List ℕ) → IsSessionFrame x → self.old ≡ session_frame x ++ rest
            → (result ≡ Ok (Some x)) ⊎ (result ≡ Err out_of_memory) }
        // A request is found, or none yet, as if all frames were requests.
        ensures alone { AsAlone result self.old self.new }
        // Two bytes tell an open.
        ensures begun { IfOk result (λ next. IfSome next (λ x. begins_with_open self.old ≡ Some (is_open x))) }
        // Which fault it is, and when more bytes must come.
        ensures exact { TakesNext next_session self.old result self.new }
    {
        self.take()
    }

    /// Whether the next frame is an open; none where too few bytes were fed to tell.
    pub fn begins_with_open(&self) -> Option<bool>
        ensures { result ≡ begins_with_open self.now }
    {
        begins_with_open(self.as_slice())
    }
}
