//! The operands of a command, from left to right.
ghost use Rattle.std.specs.Prelude.{◌≡◌, ◌∷◌, [], ◌≤◌, length, MatchOption, IsErrOf};
ghost use Rattle.chord_resp.specs.Table.{TakesOne, Gives, each};

use crate::reading::word::Word;
use crate::reading::words::Words;
use crate::table::denied::Denied;
use crate::table::operand::Operand;
use crate::table::refusal::Refusal;
use chord_map::{Bytes, Values};
use std::alloc::Global;
use std::marker::Model;
use std::vec::IntoIter;

/// The words of a command that are not taken yet.
#[derive(Debug, Drop)]
pub struct Operands {
    words: IntoIter<Word>,
}

impl Model for Operands {
    ghost use Rattle.std.specs.Prelude.{List, ◌≡◌, length};
    ghost use Rattle.std.specs.Vec.Iter.{into_iter_items, into_iter_len};
    ghost use Rattle.chord_resp.specs.declared.reading.word.Word.{Word};

    ghost Value = { List Word };

    ghost view = { λ o. into_iter_items o.words };

    ghost invariant = { λ o. into_iter_len o.words ≡ length (into_iter_items o.words) };
}

impl Operands {
    pub fn new(words: Words) -> Operands
        ensures { result ≡ words }
    {
        Operands {
            words: words.into_vec().into_iter(),
        }
    }

    /// How many are left.
    pub fn left(&self) -> usize
        ensures { result ≡ length self.now }
    {
        self.words.len()
    }

    /// Takes the next word.
    pub fn next(&mut self) -> Option<Word>
        ensures { MatchOption result ((self.old ≡ []) × (self.new ≡ [])) (λ word. self.old ≡ word ∷ self.new) }
    {
        self.words.next()
    }

    /// Takes the next word as such an operand.
    pub fn take(&mut self, operand: Operand) -> Result<Bytes, Refusal>
        ensures { TakesOne operand self.old result self.new }
    {
        match self.next() {
            None => Err(operand.refusal()),
            Some(word) => operand.bytes_of(word),
        }
    }

    /// All that are left, as such operands.
    pub fn each(mut self, alloc: Global, operand: Operand) -> Result<Values, Denied>
        ensures exact { Gives (λ x. x) result (each operand self) }
        ensures memory { IsErrOf result Denied.Memory → 2 ≤ length self }
    {
        let mut values = Values::new(alloc);
        while let Some(word) = self.next() {
            values.push(operand.bytes_of(word)?)?;
        }
        Ok(values)
    }
}
