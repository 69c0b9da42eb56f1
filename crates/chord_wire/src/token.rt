//! What a session is known by.

use crate::codes::TOKEN_BYTES;
use std::fmt::{self, Debug, Formatter, Write};

/// What a session is known by. It is a secret of the client and the server, so `Debug` hides it.
#[derive(Clone, Copy, PartialEq, Eq)]
pub struct Token {
    pub bytes: [u8; TOKEN_BYTES],
}

impl Debug for Token {
    fn fmt<W: Write>(&self, f: &mut Formatter<W>) -> fmt::Result {
        f.write_str("Token")
    }
}
