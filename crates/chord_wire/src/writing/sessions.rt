//! Writing the frames that begin and end a session.
ghost use Rattle.std.specs.Prelude.{◌≡◌, IfOk};
ghost use Rattle.chord_wire.specs.SessionSpelling.{session_frame, opened_frame, closed_frame};
ghost use Rattle.chord_wire.specs.declared.session_frame.SessionFrame.TheVariants.{Open, Close};

use crate::codes::{
    BEGINS, CLOSE, CLOSED, OPEN, OPENED, RESUMES, TOKEN_BYTES, VERSION_1, VERSION_2,
};
use crate::session_frame::Opening;
use crate::writing::fields::put_head;
use crate::writing::{FLOOR_BYTES, HEAD_BYTES, begin};
use std::alloc::{AllocError, Global};

/// The frame that begins or resumes a session.
pub fn write_open(alloc: Global, opening: Opening) -> Result<Vec<u8>, AllocError>
    ensures { IfOk result (λ out. out.items ≡ session_frame (Open opening)) }
{
    let mut out = begin(alloc, HEAD_BYTES + FLOOR_BYTES + TOKEN_BYTES + 1)?;
    put_head(&mut out, VERSION_2, OPEN, 0)?;
    out.extend_from_slice(&0u64.to_be_bytes())?;
    out.extend_from_slice(&opening.token.bytes)?;
    out.push(if opening.resumes { RESUMES } else { BEGINS })?;
    Ok(out)
}

/// The frame that ends a session.
pub fn write_close(alloc: Global) -> Result<Vec<u8>, AllocError>
    ensures { IfOk result (λ out. out.items ≡ session_frame Close) }
{
    let mut out = begin(alloc, HEAD_BYTES + FLOOR_BYTES)?;
    put_head(&mut out, VERSION_2, CLOSE, 0)?;
    out.extend_from_slice(&0u64.to_be_bytes())?;
    Ok(out)
}

/// The frame that says that a session goes on: its floor, and the last number that was read.
pub fn write_opened(alloc: Global, floor: u64, last: u64) -> Result<Vec<u8>, AllocError>
    ensures { IfOk result (λ out. out.items ≡ opened_frame floor last) }
{
    let mut out = begin(alloc, HEAD_BYTES + 16)?;
    put_head(&mut out, VERSION_1, OPENED, 0)?;
    out.extend_from_slice(&floor.to_be_bytes())?;
    out.extend_from_slice(&last.to_be_bytes())?;
    Ok(out)
}

/// The frame that says that a session ended.
pub fn write_closed(alloc: Global) -> Result<Vec<u8>, AllocError>
    ensures { IfOk result (λ out. out.items ≡ closed_frame) }
{
    let mut out = begin(alloc, HEAD_BYTES)?;
    put_head(&mut out, VERSION_1, CLOSED, 0)?;
    Ok(out)
}
