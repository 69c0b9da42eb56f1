//! The size and kind of a load.
ghost use Rattle.std.specs.Prelude.{◌≡◌, ◌&&◌, nat_le};
ghost use Rattle.chord_app_ask.specs.Shares.{inserts_under_cuts, share_of};

use crate::ask::tokens::Tokens;

/// The fewest bytes of a value that nobody else inserts.
pub const UNIQUE_VALUE: usize = 16;

/// What each request does.
#[derive(Clone, Copy, Debug, PartialEq, Eq)]
pub enum Kind {
    Insert,
    Retrieve,
}

/// When no more requests are begun.
#[derive(Clone, Copy, Debug, PartialEq, Eq)]
pub enum Until {
    Seconds(u64),
    /// How many are sent over all connections together.
    Requests(u64),
}

/// How often connections are cut.
#[derive(Clone, Copy, Debug, PartialEq, Eq)]
pub struct Drops {
    /// About how many requests each has.
    pub every: u64,
    /// Loads with the same seed cut theirs behind the same requests.
    pub seed: u64,
}

#[derive(Clone, Copy, Debug)]
pub struct Load {
    /// The server's port on 127.0.0.1.
    pub port: u16,
    pub connections: u64,
    /// How many requests are in flight on each.
    pub in_flight: u64,
    /// How many different keys the requests have.
    pub keys: u64,
    /// How many bytes each value has.
    pub value_size: usize,
    pub kind: Kind,
    pub until: Until,
    /// The tokens of the sessions, one for each connection; without them there are none.
    pub tokens: Option<Tokens>,
    /// Cuts connections, whose sessions go on over others. Each value that is inserted is another
    /// one then, if it has at least [`UNIQUE_VALUE`] bytes.
    pub drops: Option<Drops>,
}

impl Load {
    /// Whether nobody else inserts its values: an insert that finds its value there acted twice.
    pub fn has_unique_values(&self) -> bool
        ensures { result ≡ (inserts_under_cuts self.now && nat_le 16 self.now.value_size) }
    {
        self.kind == Kind::Insert
            && self.drops.is_some()
            && self.tokens.is_some()
            && self.value_size >= UNIQUE_VALUE
    }

    /// How many requests the connection of this number, from 0, sends at most.
    pub fn share(&self, connection: u64) -> u64
        ensures { result ≡ share_of self.now.until self.now.connections connection }
    {
        match self.until {
            Until::Seconds(_) => u64::MAX,
            Until::Requests(count) => {
                let connections = self.connections.max(1);
                let more = connection < count % connections;
                (count / connections).saturating_add(more as u64)
            }
        }
    }
}
