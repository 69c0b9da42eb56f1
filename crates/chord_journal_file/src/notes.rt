//! Notes, which change nothing.
ghost use Rattle.std.specs.Prelude.{◌≡◌};
ghost use Rattle.chord_journal_file.specs.Reading.{has_mark, is_note, begins_note};

use chord_resp::Word;

/// Whether the first byte is `#`.
fn has_mark(bytes: &[u8]) -> bool
    ensures { result ≡ has_mark bytes.now }
{
    match bytes {
        [] => false,
        [byte, ..] => *byte == b'#',
    }
}

/// Whether the name of a note begins with this word.
fn begins_note(word: &Word) -> bool
    ensures { result ≡ begins_note word.now }
{
    match word {
        Word::Whole(bytes) => has_mark(bytes.as_slice()),
        Word::Long(_) => false,
    }
}

/// Whether the words are a note.
#[tactic(auto, unfolding(crate::specs::Reading::is_note))]
pub(crate) fn is_note(words: &[Word]) -> bool
    ensures { result ≡ is_note words.now }
{
    match words {
        [] => false,
        [word, ..] => begins_note(word),
    }
}
