//! What a connection leaves of its session.
ghost use Rattle.std.specs.Prelude.{◌≡◌};
ghost use Rattle.chord_serve.specs.Parting.{asker_of};

use crate::client_session::ClientSession;

/// What a connection leaves of its session.
#[derive(Drop)]
pub enum Parted<A> {
    /// It can go on over another connection.
    Kept(ClientSession<A>),
    /// It is over: it was closed, or memory ran out while a request was answered, so that nobody
    /// knows whether the request was asked.
    Over(A),
}

impl<A> Parted<A> {
    /// The asker, whether the session could go on or not.
    pub fn into_asker(self) -> A
        ensures { result ≡ asker_of self }
    {
        match self {
            Parted::Kept(client) => client.into_asker(),
            Parted::Over(asker) => asker,
        }
    }
}
