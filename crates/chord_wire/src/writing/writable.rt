//! Which replies have a frame.
ghost use Rattle.std.specs.Prelude.{◌≡◌, ◌↔◌, ◌&&◌, nat_le, length, IsTrue, None};
ghost use Rattle.chord_wire.specs.Replies.{IsReply};
ghost use Rattle.chord_wire.specs.ReadingReplies.{rise_from};

use crate::reading::values::is_above;
use chord_map::limits::{SET_VALUES, VALUE_BYTES};
use chord_map::{Bytes, Reply};

fn are_values(values: &[Bytes]) -> bool
    ensures { result ≡ (nat_le (length values.now) 1000 && rise_from None values.now) }
{
    if values.len() > SET_VALUES {
        return false;
    }
    let mut before = None;
    for value in values {
        let value = value.as_slice();
        if value.len() > VALUE_BYTES || !is_above(before, value) {
            return false;
        }
        before = Some(value);
    }
    true
}

/// Whether the reply has a frame: at most 1,000 values, strictly rising, of at most 4,096 bytes.
pub fn is_writable(reply: &Reply) -> bool
    ensures { IsTrue result ↔ IsReply reply.now }
{
    match reply {
        Reply::Values(values) => are_values(values.as_slice()),
        _ => true,
    }
}
