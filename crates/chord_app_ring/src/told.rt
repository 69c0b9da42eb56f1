//! What an answer says.
ghost use Rattle.std.specs.Prelude.{◌≡◌};
ghost use Rattle.chord_app_ring.specs.Telling.{text_of};

use crate::fault::RingFault;
use crate::inbox::Answer;

/// The text of an answer by which what was asked for is done, or why it is not.
pub fn text_of(answer: Answer) -> Result<Vec<u8>, RingFault>
    ensures { result ≡ text_of answer }
{
    let Answer {
        status,
        is_text,
        body,
        ..
    } = answer;
    if is_text && 200 <= status && status < 300 {
        return Ok(body);
    }
    if is_text && 400 <= status {
        return Err(RingFault::Refused(body));
    }
    let is_empty = body.is_empty();
    drop(body);
    if status == 507 && is_empty {
        return Err(RingFault::ServerMemory);
    }
    Err(RingFault::NotUnderstood)
}
