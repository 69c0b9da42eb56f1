//! Lines that a browser writes and no client of Redis's protocol does.
ghost use Rattle.std.specs.Prelude.{◌≡◌, take};
ghost use Rattle.chord_resp.specs.Foreign.{begins_head, is_request_line, is_foreign};

use crate::table::verb::{Verb, is_same};
use chord_map::Bytes;

/// The first five bytes, or fewer if there are not as many.
fn front(bytes: &[u8]) -> &[u8]
    ensures { result.now ≡ take 5 bytes.now }
{
    if bytes.len() <= 5 {
        return bytes;
    }
    &bytes[..5]
}

/// Whether this is the first word of a line that only HTTP has.
fn begins_head(word: &[u8]) -> bool
    ensures { result ≡ begins_head word.now }
{
    is_same(word, b"post") || is_same(front(word), b"host:")
}

/// Whether these are the words of a request's first line.
fn is_request_line(words: &[Bytes]) -> bool
    ensures { result ≡ is_request_line words.now }
{
    match words {
        [name, _, version] => {
            Verb::of_name(name.as_slice()).is_none()
                && front(version.as_slice()) == b"HTTP/".as_slice()
        }
        _ => false,
    }
}

/// Whether these are the words of a line of HTTP.
#[tactic(auto, unfolding(crate::specs::Foreign::is_foreign))]
pub fn is_foreign(words: &[Bytes]) -> bool
    ensures { result ≡ is_foreign words.now }
{
    match words {
        [] => false,
        [word, ..] => begins_head(word.as_slice()) || is_request_line(words),
    }
}
