//! How a connection begins.
ghost use Rattle.chord_serve.specs.Greeting.{LooksAt};

use crate::served::Served;
use chord_wire::{FaultCode, Opening, SessionFrame, SessionFrames};

/// The open that the first frame of a connection is, if it is one. It is taken off then, and
/// another one is not. None where more bytes must come.
pub fn first_opening(frames: &mut SessionFrames) -> Result<Option<Option<Opening>>, Served>
    ensures { LooksAt result frames.old frames.new }
{
    if frames.begins_with_open() == Some(false) {
        return Ok(Some(None));
    }
    match frames.next() {
        Ok(None) => Ok(None),
        Ok(Some(SessionFrame::Open(opening))) => Ok(Some(Some(opening))),
        Ok(Some(_)) => unreachable!(),
        Err(fault) => {
            if fault.code == FaultCode::Memory {
                Err(Served::Memory)
            } else {
                Ok(Some(None))
            }
        }
    }
}
