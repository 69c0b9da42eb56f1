//! What holds of all streams. These functions have no code; their contracts are the laws.
ghost use Rattle.std.specs.Prelude.{◌≡◌, ◌++◌, ◌∷◌, ◌<◌, [], List, ℕ, Err, length, map, take};
ghost use Rattle.chord_resp.specs.Machine.{State, line_of, start, without_return, word_of};
ghost use Rattle.chord_resp.specs.Quotes.{words_in};
ghost use Rattle.chord_resp.specs.Reading.{Broken, KeepsLittle, Open, after, reading, with_commands, with_more};
ghost use Rattle.chord_resp.specs.Spelling.{AreInline, AreManyWords, AreWords, IsLine, array, inline, words_known};
ghost use Rattle.chord_resp.specs.Table.{command_of};
ghost use Rattle.chord_resp.specs.declared.table.refusal.Refusal.TheVariants.{TooManyWords};
ghost use Rattle.chord_resp.specs.declared.reading.protocol_error.ProtocolError.TheVariants.{Foreign};

/// How a stream was cut does not matter: what the bytes spell and how they
/// end stays, and more bytes go on from there.
pub fn cuts_do_not_matter()
    ensures { (s : State) (bytes more : List ℕ) → reading s (bytes ++ more) ≡ with_more (reading s bytes) more }
{}

/// However much of a command has come, little of it is kept.
pub fn little_is_kept()
    ensures { (bytes : List ℕ) (s : State) → (reading start bytes).ending ≡ Open s → KeepsLittle s }
{}

/// The words of a command that is written as an array are read, whatever follows.
pub fn arrays_are_read()
    ensures { (words : List (List ℕ)) (rest : List ℕ) → AreWords words → reading start (array words ++ rest) ≡ with_commands (map word_of words ∷ []) (reading start rest) }
{}

/// A command of more than 1,024 words is read to its end, whatever follows. Of the words that are not
/// among the first 1,024 only the length of the first is kept.
pub fn long_arrays_are_read()
    ensures { (words : List (List ℕ)) (rest : List ℕ) → AreManyWords words
        → reading start (array words ++ rest)
        ≡ with_commands (words_known words ∷ []) (reading start rest) }
{}

/// Such a command is refused.
pub fn long_commands_are_refused()
    ensures { (words : List (List ℕ)) → AreManyWords words
        → command_of (words_known words) ≡ Err TooManyWords }
{}

/// A command that is written as an array is none before its last byte.
pub fn cut_arrays_are_no_commands()
    ensures { (words : List (List ℕ)) (n : ℕ) → AreWords words → n < length (array words)
        → (reading start (take n (array words))).commands ≡ [] }
{}

/// A line is read as its words, or refused as one of HTTP, whatever follows.
pub fn lines_are_read()
    ensures { (line rest : List ℕ) → IsLine line → reading start (line ++ 10 ∷ rest) ≡ after (line_of (words_in (without_return line))) (λ s. reading s rest) }
{}

/// A line with a byte 0 is refused there.
pub fn lines_with_a_byte_0_are_refused()
    ensures { (front rest : List ℕ) → IsLine front → reading start (front ++ 0 ∷ rest) ≡ record { commands = []; ending = Broken Foreign } }
{}

/// The words of an inline command with single spaces are read, whatever follows, with and without
/// quotes.
pub fn inline_commands_are_read()
    ensures { (word text : List ℕ) (words texts : List (List ℕ)) (rest : List ℕ)
        → AreInline word text words texts
        → reading start (inline text texts ++ rest)
        ≡ with_commands ((word_of word ∷ map word_of words) ∷ []) (reading start rest) }
{}
