//! The forms of answers.
ghost use Rattle.std.specs.Prelude.{◌≡◌};
ghost use Rattle.http.specs.Request.{head_of};
ghost use Rattle.chord_app_operator.specs.Requests.{format_of};

use bytes::Bytes;
use http::Request;

/// The form in which an answer is wanted.
#[derive(Clone, Copy, Debug, PartialEq, Eq)]
pub enum Format {
    /// JSON, for scripts and for the page.
    Json,
    /// Lines of text, for people.
    Text,
}

impl Format {
    /// The form that a request asks for: text if its first field `accept` is `text/plain`.
    pub fn of(request: &Request<Bytes>) -> Format
        ensures { result ≡ format_of (head_of request.now) }
    {
        match request.headers().get("accept") {
            Some(kind) if kind.as_bytes() == b"text/plain".as_slice() => Format::Text,
            _ => Format::Json,
        }
    }
}
