//! The sessions of a server.
ghost use Rattle.std.specs.Prelude.{◌≡◌, ◌<◌, ◌+◌, [], IfSome, is_some, length};
ghost use Rattle.chord_serve.specs.Keeping.{oldest_of, bytes_kept};
ghost use Rattle.chord_serve.specs.SessionTable.{held_at, connection_of, token_of, BeginsAs, ResumesAs, PartsAs, EndsAs, DropsAs};

use crate::client_session::ClientSession;
use crate::kept_sessions::KeptSessions;
use chord_wire::Token;
use std::alloc::Global;
use std::marker::Model;

/// A session that a connection has.
#[derive(Clone, Copy, Debug, PartialEq, Eq)]
pub struct HeldSession {
    pub token: Token,
    pub connection: u64,
}

/// Why a session does not begin.
#[derive(Clone, Copy, Debug, PartialEq, Eq)]
pub enum BeginRefusal {
    /// Another session has the token.
    Known,
    Memory,
}

/// Where a session is that a client wants to resume.
#[derive(Drop)]
pub enum Resumed<A> {
    /// It had no connection, and has the new one now.
    Here(ClientSession<A>),
    /// This connection has it still.
    Elsewhere(u64),
    /// No session has the token.
    Unknown,
    /// Out of memory. The session is where it was.
    Memory,
}

/// The sessions that connections have, and those that are kept without one.
#[derive(Drop)]
pub struct SessionTable<A> {
    held: Vec<HeldSession>,
    kept: KeptSessions<A>,
}

impl<A> Model for SessionTable<A> {
    ghost use Rattle.chord_serve.specs.TableState.{TableState};

    ghost Value = { TableState A };

    ghost view = { λ t. record { held = t.held.items; kept = t.kept } };
}

// The index of the session of this token, which is compared whole.
fn held_at(token: Token, held: &[HeldSession]) -> Option<usize>
    ensures place { result ≡ held_at token held.now }
    ensures bound { IfSome result (λ place. place < length held.now) }
{
    held.iter().position(|one| one.token == token)
}

impl<A> SessionTable<A> {
    pub fn new(alloc: Global) -> SessionTable<A>
        ensures { result ≡ record { held = []; kept = [] } }
    {
        SessionTable {
            held: Vec::new(alloc),
            kept: KeptSessions::new(alloc),
        }
    }

    /// How many sessions have no connection.
    pub fn kept_count(&self) -> usize
        ensures { result ≡ length self.now.kept }
    {
        self.kept.len()
    }

    /// How many bytes the kept answers of these sessions have; `u64::MAX` stands for more.
    pub fn kept_bytes(&self) -> u64
        ensures { result ≡ bytes_kept self.now.kept }
    {
        self.kept.bytes()
    }

    /// The connection that has the session of this token.
    pub fn connection_of(&self, token: Token) -> Option<u64>
        ensures { result ≡ connection_of token self.now.held }
    {
        let place = held_at(token, &self.held)?;
        Some(self.held[place].connection)
    }

    /// The token of the session that this connection has, if it has one.
    pub fn token_of(&self, connection: u64) -> Option<Token>
        ensures { result ≡ token_of connection self.now.held }
    {
        let held = self.held.iter().find(|one| one.connection == connection)?;
        Some(held.token)
    }

    /// Notes that a session of this token begins over this connection.
    pub fn begin(&mut self, token: Token, connection: u64) -> Result<(), BeginRefusal>
        ensures { BeginsAs result token connection self.old self.new }
    {
        if held_at(token, &self.held).is_some() || self.kept.knows(token) {
            return Err(BeginRefusal::Known);
        }
        match self.held.push(HeldSession { token, connection }) {
            Ok(()) => Ok(()),
            Err(_) => Err(BeginRefusal::Memory),
        }
    }

    /// Gives the session of this token to this connection, unless another one has it still.
    pub fn resume(&mut self, token: Token, connection: u64) -> Resumed<A>
        ensures { ResumesAs result token connection self.old self.new }
    {
        if let Some(older) = self.connection_of(token) {
            return Resumed::Elsewhere(older);
        }
        if !self.kept.knows(token) {
            return Resumed::Unknown;
        }
        if self.held.reserve(1).is_err() {
            return Resumed::Memory;
        }
        let Some(client) = self.kept.take(token) else {
            return Resumed::Unknown;
        };
        self.held.push_reserved(HeldSession { token, connection });
        Resumed::Here(client)
    }

    /// Keeps a session that lost its connection at the moment `since`, behind the others. It is
    /// given back if there is no memory for it.
    pub fn part(
        &mut self,
        token: Token,
        since: u64,
        client: ClientSession<A>,
    ) -> Result<(), ClientSession<A>>
        ensures { PartsAs result token since client self.old self.new }
    {
        self.kept.keep(token, since, client)?;
        self.end(token);
        Ok(())
    }

    /// Forgets the session of this token that a connection has.
    pub fn end(&mut self, token: Token)
        ensures { EndsAs token self.old self.new }
    {
        if let Some(place) = held_at(token, &self.held) {
            self.held.remove(place);
        }
    }

    /// Whether [`SessionTable::drop_oldest`] would drop a session.
    pub fn can_drop(&self, until: u64) -> bool
        ensures { result ≡ is_some (oldest_of until self.now.kept) }
    {
        self.kept.has_oldest(until)
    }

    /// Drops the session that has been without a connection longest, if since the moment `until`
    /// or before. Gives its asker.
    pub fn drop_oldest(&mut self, until: u64) -> Option<A>
        ensures { DropsAs (oldest_of until self.old.kept) result self.old self.new }
    {
        let client = self.kept.take_oldest(until)?;
        Some(client.into_asker())
    }
}
