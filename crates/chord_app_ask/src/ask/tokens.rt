//! The tokens of sessions.
ghost use Rattle.std.specs.Prelude.{◌≡◌};
ghost use Rattle.chord_app_ask.specs.Tokens.{joined, token_of, word_of};

use chord_wire::Token;
use std::hash::{BuildHasher, Hasher, RandomState};
use std::io;
use std::random::RandomSource;

/// Makes the tokens of a run's sessions.
#[derive(Clone, Copy, Debug)]
pub struct Tokens {
    keys: RandomState,
}

/// Two words as one number, the first one in front.
fn joined(first: u64, second: u64) -> u128
    ensures { result ≡ joined first second }
{
    first as u128 * 18_446_744_073_709_551_616 + second as u128
}

impl Tokens {
    /// Draws 128 bits from the system's source of random bytes. A token rests on these alone: it is
    /// SipHash of its number under them, which nobody can tell from random bytes who does not know
    /// them.
    pub fn new<R: RandomSource>(rt: &R) -> io::Result<Tokens> {
        let keys = RandomState::new(rt)?;
        Ok(Tokens { keys })
    }

    /// Eight bytes of what the keys make of a number.
    pub fn word(&self, number: u64, place: u64) -> u64
        ensures { result ≡ word_of self.now.keys number place }
    {
        let mut hasher = self.keys.build_hasher();
        hasher.write_u64(number);
        hasher.write_u64(place);
        hasher.finish()
    }

    /// The token of this number, which is another one for each number.
    pub fn token(&self, number: u64) -> Token
        ensures { result.bytes ≡ token_of self.now.keys number }
    {
        let whole = joined(self.word(number, 0), self.word(number, 1));
        Token {
            bytes: whole.to_be_bytes(),
        }
    }
}
