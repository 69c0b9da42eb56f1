//! The sessions that have no connection.
ghost use Rattle.std.specs.Prelude.{◌≡◌, ◌<◌, ◌++◌, ◌∷◌, [], length, is_some, Some, IfSome, IfErr, OnOk};
ghost use Rattle.chord_serve.specs.Keeping.{place_of, oldest_of, bytes_kept, TakesAt};

use crate::client_session::ClientSession;
use chord_wire::Token;
use std::alloc::Global;
use std::marker::Model;

/// A session, and the moment at which it lost its connection.
#[derive(Drop)]
pub struct KeptSession<A> {
    pub token: Token,
    pub since: u64,
    pub client: ClientSession<A>,
}

/// Sessions without a connection, in the order in which they lost theirs.
#[derive(Drop)]
pub struct KeptSessions<A> {
    kept: Vec<KeptSession<A>>,
}

impl<A> Model for KeptSessions<A> {
    ghost use Rattle.std.specs.Prelude.{List};
    ghost use Rattle.chord_serve.specs.declared.kept_sessions.KeptSession.{KeptSession};

    ghost Value = { List (KeptSession A) };

    ghost view = { λ k. k.kept.items };
}

// The index of the session of this token, which is compared whole.
fn place_of<A>(token: Token, kept: &[KeptSession<A>]) -> Option<usize>
    ensures place { result ≡ place_of token kept.now }
    ensures bound { IfSome result (λ place. place < length kept.now) }
{
    kept.iter().position(|one| one.token == token)
}

// The index of the first session that lost its connection by then.
fn oldest_of<A>(until: u64, kept: &[KeptSession<A>]) -> Option<usize>
    ensures place { result ≡ oldest_of until kept.now }
    ensures bound { IfSome result (λ place. place < length kept.now) }
{
    kept.iter().position(|one| one.since <= until)
}

impl<A> KeptSessions<A> {
    pub fn new(alloc: Global) -> KeptSessions<A>
        ensures { result ≡ [] }
    {
        KeptSessions {
            kept: Vec::new(alloc),
        }
    }

    /// How many sessions are kept.
    pub fn len(&self) -> usize
        ensures { result ≡ length self.now }
    {
        self.kept.len()
    }

    /// How many bytes their kept answers have; `u64::MAX` stands for more.
    pub fn bytes(&self) -> u64
        ensures { result ≡ bytes_kept self.now }
    {
        self.kept
            .iter()
            .fold(0, |sum, one| sum.saturating_add(one.client.bytes()))
    }

    /// Whether the session of this token is kept.
    pub fn knows(&self, token: Token) -> bool
        ensures { result ≡ is_some (place_of token self.now) }
    {
        place_of(token, &self.kept).is_some()
    }

    /// Keeps a session that lost its connection, behind the others. It is given back if there is no
    /// memory for it.
    pub fn keep(
        &mut self,
        token: Token,
        since: u64,
        client: ClientSession<A>,
    ) -> Result<(), ClientSession<A>>
        ensures ok { OnOk result (self.new ≡ self.old ++ record { token = token; since = since; client = client } ∷ []) }
        ensures err { IfErr result (λ back. (back ≡ client) × (self.new ≡ self.old)) }
    {
        if self.kept.reserve(1).is_err() {
            return Err(client);
        }
        self.kept.push_reserved(KeptSession {
            token,
            since,
            client,
        });
        Ok(())
    }

    /// Whether a session has been without a connection since that moment or before.
    pub fn has_oldest(&self, until: u64) -> bool
        ensures { result ≡ is_some (oldest_of until self.now) }
    {
        oldest_of(until, &self.kept).is_some()
    }

    // Takes the session at this index.
    fn take_at(&mut self, place: usize) -> ClientSession<A>
        requires { place < length self.old }
        ensures { TakesAt (Some place) (Some result) self.old self.new }
    {
        let KeptSession {
            token: _,
            since: _,
            client,
        } = self.kept.remove(place);
        client
    }

    /// Takes the session of this token, which is to go on over another connection.
    pub fn take(&mut self, token: Token) -> Option<ClientSession<A>>
        ensures { TakesAt (place_of token self.old) result self.old self.new }
    {
        let place = place_of(token, &self.kept)?;
        Some(self.take_at(place))
    }

    /// Takes the session that has been without a connection longest, if since that moment or
    /// before; its caller is needed.
    pub fn take_oldest(&mut self, until: u64) -> Option<ClientSession<A>>
        ensures { TakesAt (oldest_of until self.old) result self.old self.new }
    {
        let place = oldest_of(until, &self.kept)?;
        Some(self.take_at(place))
    }
}
