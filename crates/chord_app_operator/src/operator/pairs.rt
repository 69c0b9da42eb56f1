//! Pairs that are read.

use chord_ident::Id;

/// A key with one of its values.
#[derive(Debug, Drop)]
pub struct Pair {
    pub key: Vec<u8>,
    pub value: Vec<u8>,
}

/// Who holds the identifier that a page begins with.
#[derive(Clone, Copy, Debug, PartialEq, Eq)]
pub enum PageState {
    /// A node, which has the pairs of the page.
    Held,
    /// No node now: it moves from one to another.
    UnderWay,
    /// No node any more: it was lost with one that crashed.
    Lost,
}

/// Some pairs, in order of identifier.
#[derive(Debug, Drop)]
pub struct PairsPage {
    pub pairs: Vec<Pair>,
    /// The identifier to go on from, where there are more.
    pub next: Option<Id>,
    pub state: PageState,
}

impl PageState {
    ghost use Rattle.std.specs.Prelude.{◌≡◌};
    ghost use Rattle.chord_app_operator.specs.Words.{state_word, state_of};

    /// Its word in an answer.
    pub fn word(self) -> &'static str
        ensures { result.now ≡ state_word self }
    {
        match self {
            PageState::Held => "held",
            PageState::UnderWay => "underway",
            PageState::Lost => "lost",
        }
    }

    /// The state with this word.
    pub fn of_word(word: &str) -> Option<PageState>
        ensures { result ≡ state_of word.now }
    {
        match word {
            "held" => Some(PageState::Held),
            "underway" => Some(PageState::UnderWay),
            "lost" => Some(PageState::Lost),
            _ => None,
        }
    }
}
