//! The words of one command.
ghost use Rattle.std.specs.Prelude.{◌≡◌};

use crate::reading::word::Word;
use std::marker::Model;

/// A command as a client wrote it: at least one word.
#[derive(Debug, Drop)]
pub struct Words {
    items: Vec<Word>,
}

impl Model for Words {
    ghost use Rattle.std.specs.Prelude.{List};
    ghost use Rattle.chord_resp.specs.declared.reading.word.Word.{Word};

    ghost Value = { List Word };

    ghost view = { λ words. words.items.items };
}

impl Words {
    pub(crate) fn from_vec(items: Vec<Word>) -> Words
        ensures { result ≡ items.items }
    {
        Words { items }
    }

    pub fn as_slice(&self) -> &[Word]
        ensures { result.now ≡ self.now }
    {
        &self.items
    }

    pub fn into_vec(self) -> Vec<Word>
        ensures { result.items ≡ self }
    {
        self.items
    }
}
