//! Numbers drawn from a seed.

use rand_core::{Rng, SeedableRng};
use rand_xoshiro::SplitMix64;

/// Numbers drawn from a seed.
#[derive(Drop)]
pub struct Dice {
    words: SplitMix64,
}

impl Dice {
    pub fn new(seed: u64) -> Dice {
        Dice {
            words: SplitMix64::seed_from_u64(seed),
        }
    }

    /// Dice of their own.
    pub fn split(&mut self) -> Dice {
        Dice::new(self.words.next_u64())
    }

    /// One of this many numbers, from 0.
    pub fn below(&mut self, count: u64) -> u64 {
        self.words.next_u64() % count.max(1)
    }

    /// A number from 1 to the most.
    pub fn up_to(&mut self, most: u64) -> usize {
        self.below(most).saturating_add(1) as usize
    }

    /// Whether it happens that happens once in this many times.
    pub fn is_one_in(&mut self, count: u64) -> bool {
        self.below(count) == 0
    }

    /// One of the bytes, or 0 where there is none.
    pub fn pick(&mut self, bytes: &[u8]) -> u8 {
        let place = self.below(bytes.len() as u64) as usize;
        bytes.get(place).copied().unwrap_or(0)
    }
}
