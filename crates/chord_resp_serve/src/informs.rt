//! The source of what INFO and TIME are answered.
ghost use Rattle.std.specs.Prelude.{IfOk};
ghost use Rattle.chord_resp_serve.specs.News.{Info, News, Time};

use crate::moment::Moment;
use std::alloc::{AllocError, Global};

/// Tells what INFO and TIME are answered.
pub trait Informs {
    /// What the text and the moment may be.
    ghost tells: { Self → News → Type 0 };

    /// Lines of a name, a colon and a value, each ended by `\r\n`.
    fn info(&self, alloc: Global) -> Result<Vec<u8>, AllocError>
        ensures { IfOk result (λ text. tells self.now (Info text.items)) };

    /// The moment by the server's clock.
    fn time(&self) -> Moment
        ensures { tells self.now (Time result) };
}
