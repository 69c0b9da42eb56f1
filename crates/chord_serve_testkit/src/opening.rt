//! The first frame of a session's connection.

use chord_serve::first_opening;
use chord_wire::{Opening, SessionFrames};
use std::io::Read;

/// The open with which a connection begins, in at most `turns` reads. What came behind it is left
/// in the frames.
pub fn greeted<R: Read>(reader: &mut R, frames: &mut SessionFrames, turns: u64) -> Option<Opening> {
    let mut buffer = [0u8; 4_096];
    for _ in 0..turns {
        let count = reader.read(&mut buffer).ok()?;
        if count == 0 {
            return None;
        }
        frames.feed(&buffer[..count]).ok()?;
        if let Some(beginning) = first_opening(frames).ok()? {
            return beginning;
        }
    }
    None
}
