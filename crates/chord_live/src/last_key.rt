//! The key that was asked last.
ghost use Rattle.std.specs.Prelude.{◌≡◌, ◌≤◌, [], length};
ghost use Rattle.chord_ident.specs.Circle.{key_id};
ghost use Rattle.chord_live.specs.LastKeys.{remembered};
ghost use Rattle.chord_live_steps.specs.Keys.{IsKeyId};

use chord_ident::Id;
use chord_node::Message;
use std::marker::Model;

/// The most bytes of a key that is remembered.
const MOST_BYTES: usize = 64;

/// A key of at most 64 bytes, and its identifier. Clients often ask for the same key several times
/// in a row, and keys are compared in less time than an identifier is computed. Contracts see the
/// key.
#[derive(Drop)]
pub struct LastKey {
    len: usize,
    bytes: [u8; 64],
    id: Id,
}

impl Model for LastKey {
    ghost use Rattle.std.specs.Prelude.{◌≡◌, ◌≤◌, ℕ, List, take};
    ghost use Rattle.chord_ident.specs.Circle.{key_id};

    ghost Value = { List ℕ };

    ghost view = { λ last. take last.len last.bytes };

    ghost invariant = { λ last. (last.len ≤ 64) × (last.id.number ≡ key_id (take last.len last.bytes)) };
}

impl LastKey {
    /// The key without bytes, which no request has.
    pub fn new() -> LastKey
        ensures { result ≡ [] }
    {
        LastKey {
            len: 0,
            bytes: [0; 64],
            id: Id::of_bytes(&[]),
        }
    }

    /// Remembers a key and its identifier.
    fn remember(&mut self, key: &[u8], id: Id)
        requires few { length key.now ≤ 64 }
        requires its { id.number ≡ key_id key.now }
        ensures { self.new ≡ key.now }
    {
        self.bytes[..key.len()].copy_from_slice(key);
        self.len = key.len();
        self.id = id;
    }

    /// The identifier of a key, which is remembered if it has few bytes.
    pub fn id_of(&mut self, key: &[u8]) -> Id
        ensures id { result.number ≡ key_id key.now }
        ensures last { self.new ≡ remembered self.old key.now }
    {
        if key == &self.bytes[..self.len] {
            return self.id;
        }
        let id = Id::of_bytes(key);
        if key.len() <= MOST_BYTES {
            self.remember(key, id);
        }
        id
    }

    /// The identifier of a call's key, and 0 for any other message.
    pub fn id_in(&mut self, message: &Message) -> Id
        ensures { IsKeyId result.number message.now }
    {
        match message {
            Message::Ask(ask) => self.id_of(ask.request.key()),
            Message::Told(_) | Message::Full { .. } | Message::Note(_) => Id::new(0),
            Message::Part(_) | Message::Got(_) | Message::Declined(_) => Id::new(0),
        }
    }
}
