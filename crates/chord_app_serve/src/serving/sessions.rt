//! The sessions of a server's clients.
ghost use Rattle.std.specs.Prelude.{◌≡◌};
ghost use Rattle.chord_app_serve.specs.Keeping.{is_surplus, kept_until};

use crate::serving::trying::TryingAsker;
use chord_serve::{BeginRefusal, ClientSession, Resumed, SessionTable};
use chord_store::EntryStore;
use chord_table::Naming;
use chord_wire::Token;
use std::alloc::Global;
use std::sync::{Mutex, Wait};
use std::time::Clock;

/// How many bytes the kept answers of all sessions without a connection may have.
const MOST_KEPT_BYTES: u64 = 64 << 20;

/// The latest moment at which a session may have lost its connection that is kept no longer now,
/// where one is kept for these seconds and its caller is needed.
fn kept_until(now: u64, seconds: u64) -> Option<u64>
    ensures { result ≡ kept_until now seconds }
{
    now.checked_sub(seconds.checked_mul(1_000)?)
}

/// Whether these are too many bytes of kept answers.
fn is_surplus(bytes: u64) -> bool
    ensures { result ≡ is_surplus bytes }
{
    bytes > MOST_KEPT_BYTES
}

/// The sessions of a server's clients, with connections and without.
#[derive(Drop)]
pub struct Sessions<'r, J: Naming, S: EntryStore, R> {
    table: Mutex<SessionTable<TryingAsker<'r, J, S, R>>>,
    /// For how many seconds a session without a connection is kept though its caller is needed.
    seconds: u64,
}

impl<'r, J: Naming, S: EntryStore, R: Wait + Clock> Sessions<'r, J, S, R> {
    /// No sessions. For 0 seconds none is kept.
    pub fn new(alloc: Global, seconds: u64) -> Sessions<'r, J, S, R> {
        Sessions {
            table: Mutex::new(SessionTable::new(alloc)),
            seconds,
        }
    }

    /// How many sessions are kept without a connection.
    pub fn kept(&self, rt: &R) -> u64 {
        self.table.lock(rt).kept_count() as u64
    }

    /// Notes that a session of this token begins over this connection.
    pub fn begin(&self, rt: &R, token: Token, connection: u64) -> Result<(), BeginRefusal> {
        self.table.lock(rt).begin(token, connection)
    }

    /// Gives the session of this token to this connection, unless another one has it still.
    pub fn resume(
        &self,
        rt: &R,
        token: Token,
        connection: u64,
    ) -> Resumed<TryingAsker<'r, J, S, R>> {
        self.table.lock(rt).resume(token, connection)
    }

    /// The token of the session that this connection has, if it has one.
    pub fn token_of(&self, rt: &R, connection: u64) -> Option<Token> {
        self.table.lock(rt).token_of(connection)
    }

    /// Keeps a session that lost its connection at this moment. Gives its asker if it is not kept.
    pub fn part(
        &self,
        rt: &R,
        token: Token,
        now: u64,
        client: ClientSession<TryingAsker<'r, J, S, R>>,
    ) -> Option<TryingAsker<'r, J, S, R>> {
        if self.seconds == 0 {
            self.end(rt, token);
            return Some(client.into_asker());
        }
        let parted = self.table.lock(rt).part(token, now, client);
        match parted {
            Ok(()) => None,
            Err(client) => {
                self.end(rt, token);
                Some(client.into_asker())
            }
        }
    }

    /// Forgets the session of this token that a connection has.
    pub fn end(&self, rt: &R, token: Token) {
        self.table.lock(rt).end(token);
    }

    /// Drops the session that was kept longest, if for as long as one is kept at least. Its caller
    /// is needed.
    pub fn drop_oldest(&self, rt: &R, now: u64) -> Option<TryingAsker<'r, J, S, R>> {
        let until = kept_until(now, self.seconds)?;
        self.table.lock(rt).drop_oldest(until)
    }

    /// Whether a session could be dropped for its caller now.
    pub fn can_drop(&self, rt: &R, now: u64) -> bool {
        match kept_until(now, self.seconds) {
            Some(until) => self.table.lock(rt).can_drop(until),
            None => false,
        }
    }

    /// Drops the session that was kept longest, if the kept answers take too much memory.
    pub fn drop_surplus(&self, rt: &R) -> Option<TryingAsker<'r, J, S, R>> {
        let mut table = self.table.lock(rt);
        if !is_surplus(table.kept_bytes()) {
            return None;
        }
        table.drop_oldest(u64::MAX)
    }

    /// Drops a session that is kept: the server ends.
    pub fn drop_first(&self, rt: &R) -> Option<TryingAsker<'r, J, S, R>> {
        self.table.lock(rt).drop_oldest(u64::MAX)
    }
}
