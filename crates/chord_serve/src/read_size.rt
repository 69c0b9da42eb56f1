//! How much one read takes.
ghost use Rattle.std.specs.Prelude.{◌≡◌};
ghost use Rattle.chord_serve.specs.BytesRead.{most_bytes};

/// How many bytes one read of a connection takes at most.
#[derive(Clone, Copy, Debug, PartialEq, Eq)]
pub enum ReadSize {
    /// 4,096.
    Small,
    /// 65,536, so that large requests that come together are taken in together.
    Large,
}

impl ReadSize {
    pub fn most_bytes(self) -> usize
        ensures { result ≡ most_bytes self }
    {
        match self {
            ReadSize::Small => 4_096,
            ReadSize::Large => 65_536,
        }
    }
}
