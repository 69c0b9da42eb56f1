//! What is due, as a plain table of pairs says it.

use crate::simulated::PATIENCE;

/// The keys of these tests.
pub const KEYS: &[u8] = b"abcdef";

/// Their members.
pub const MEMBERS: &[u8] = b"pqrs";

/// At which try requests of a key are answered.
pub fn tries_of(key: u8) -> u32 {
    match key {
        b'c' => 2,
        b'd' => 3,
        b'e' => 5,
        b'f' => 9,
        _ => 1,
    }
}

/// Which pairs there are, how many requests were asked, and how long the last command waited.
#[derive(Drop)]
pub struct Model {
    pairs: [[bool; 4]; 6],
    pub asked: usize,
    /// How many tries of the command's requests were in vain.
    misses: u32,
    /// Whether no request of the command may wait any more.
    is_last: bool,
}

impl Model {
    pub fn new() -> Model {
        Model {
            pairs: [[false; 4]; 6],
            asked: 0,
            misses: 0,
            is_last: false,
        }
    }

    /// A command begins.
    pub fn begin(&mut self) {
        self.misses = 0;
        self.is_last = false;
    }

    /// Asks a request of this key, and says whether it is answered before its time is over.
    pub fn asks(&mut self, key: u8) -> bool {
        self.asked = self.asked.saturating_add(1);
        self.is_answered(key)
    }

    /// Whether a request of this key is answered before its time is over.
    pub fn is_answered(&mut self, key: u8) -> bool {
        for _ in 1..tries_of(key) {
            if self.is_last {
                return false;
            }
            self.misses = self.misses.saturating_add(1);
            self.is_last = self.misses >= PATIENCE;
        }
        true
    }

    /// Whether the key has the member.
    pub fn has(&self, key: u8, member: u8) -> bool {
        self.pairs[(key % 6) as usize][(member % 4) as usize]
    }

    /// How many members the key has.
    pub fn count(&self, key: u8) -> u64 {
        let row = self.pairs[(key % 6) as usize];
        row.iter().filter(|has| **has).count() as u64
    }

    /// Puts the pair in, or takes it out. Says whether that changed anything.
    pub fn put(&mut self, key: u8, member: u8, is_there: bool) -> bool {
        let place = &mut self.pairs[(key % 6) as usize][(member % 4) as usize];
        let was_there = *place;
        *place = is_there;
        was_there != is_there
    }
}
