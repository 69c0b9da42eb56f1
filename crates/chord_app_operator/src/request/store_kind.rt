//! The kinds of stores.
ghost use Rattle.std.specs.Prelude.{◌≡◌};
ghost use Rattle.chord_app_operator.specs.Words.{store_word, store_of};

/// How a node keeps its pairs.
#[derive(Clone, Copy, Debug, PartialEq, Eq)]
pub enum StoreKind {
    Tree,
    List,
    /// It has a limit of pairs.
    Capped,
}

impl StoreKind {
    /// Its word in JSON.
    pub fn word(self) -> &'static str
        ensures { result.now ≡ store_word self }
    {
        match self {
            StoreKind::Tree => "tree",
            StoreKind::List => "list",
            StoreKind::Capped => "capped",
        }
    }

    /// The kind with this word.
    pub fn of_word(word: &str) -> Option<StoreKind>
        ensures { result ≡ store_of word.now }
    {
        match word {
            "tree" => Some(StoreKind::Tree),
            "list" => Some(StoreKind::List),
            "capped" => Some(StoreKind::Capped),
            _ => None,
        }
    }
}
