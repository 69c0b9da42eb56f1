//! Requests as words.
ghost use Rattle.std.specs.Prelude.{◌≡◌, ◌||◌, true, IfOk, IfSome, OnErr, length, option_map};
ghost use Rattle.chord_map.specs.Checked.{IsRequest};
ghost use Rattle.chord_app_text.specs.Words.{words_of};
ghost use Rattle.chord_app_ask.specs.Asked.{asked_takes, key_of_words, pair_of_words};
ghost use Rattle.chord_app_ask.specs.Asked.{pair_takes, pair_written, request_of};
ghost use Rattle.chord_app_ask.specs.Asked.{request_of_words, takes, words_take, written};
ghost use Rattle.chord_app_ask.specs.Requests.{IsRead, bytes_of, fault_of_counts, key_within};
ghost use Rattle.chord_app_ask.specs.Requests.{mapped, memory_for, pair_within, request_in};
ghost use Rattle.chord_app_ask.specs.Requests.{request_on, takes_memory, texts_of};

use chord_app_text::{Digits, WordFault, Words};
use chord_map::{Bytes, Request};
use std::alloc::{AllocError, Global};

/// What stands before digits.
const MARK: &[u8] = b"x:";

/// What a word of a request stands for.
#[derive(Drop)]
enum Word<'a> {
    /// Its own bytes.
    Text(&'a [u8]),
    /// The bytes that digits write.
    Digits(Digits<'a>),
}

impl<'a> Word<'a> {
    /// What a word stands for: behind `x:` stand digits.
    fn of(word: &'a str) -> Option<Word<'a>>
        ensures bytes { option_map written result ≡ bytes_of word.now }
        ensures memory { IfSome result (λ read. takes read ≡ takes_memory word.now) }
    {
        let word = word.as_bytes();
        match word.strip_prefix(MARK) {
            Some(digits) => Some(Word::Digits(Digits::of_word(digits)?)),
            None => Some(Word::Text(word)),
        }
    }

    /// How many bytes it stands for.
    fn count(&self) -> usize
        ensures { result ≡ length (written self.now) }
    {
        match self {
            Word::Text(text) => text.len(),
            Word::Digits(digits) => digits.count(),
        }
    }

    /// A copy of the bytes that it stands for.
    fn bytes(&self, alloc: Global) -> Result<Bytes, AllocError>
        ensures bytes { IfOk result (λ bytes. bytes ≡ written self.now) }
        ensures memory { OnErr result (takes self.now ≡ true) }
    {
        match self {
            Word::Text(text) => Bytes::from_slice(alloc, text),
            Word::Digits(digits) => digits.bytes(alloc),
        }
    }
}

/// The words of an insert or a remove.
#[derive(Drop)]
struct PairWords<'a> {
    key: Word<'a>,
    value: Word<'a>,
}

/// A request whose key and value are not copied yet.
#[derive(Drop)]
enum Asked<'a> {
    Insert(PairWords<'a>),
    Retrieve(Word<'a>),
    Remove(PairWords<'a>),
}

impl Asked<'_> {
    /// The request, with copies.
    fn request(&self, alloc: Global) -> Result<Request, AllocError>
        ensures request { IfOk result (λ request. request ≡ request_of self.now) }
        ensures memory { OnErr result (asked_takes self.now ≡ true) }
    {
        match self {
            Asked::Insert(pair) => Ok(Request::Insert {
                key: pair.key.bytes(alloc)?,
                value: pair.value.bytes(alloc)?,
            }),
            Asked::Retrieve(key) => Ok(Request::Retrieve {
                key: key.bytes(alloc)?,
            }),
            Asked::Remove(pair) => Ok(Request::Remove {
                key: pair.key.bytes(alloc)?,
                value: pair.value.bytes(alloc)?,
            }),
        }
    }
}

/// The limit that a key and a value of these lengths break, if any.
fn fault_of_counts(key: usize, value: usize) -> Option<WordFault>
    ensures { result ≡ fault_of_counts key value }
{
    if key < 1 || 255 < key {
        Some(WordFault::KeyLength)
    } else if 4096 < value {
        Some(WordFault::ValueLength)
    } else {
        None
    }
}

/// The key that this word of a retrieve stands for.
fn key_of<'a>(key: &'a str) -> Result<Word<'a>, WordFault>
    ensures key { mapped written result ≡ key_within (bytes_of key.now) }
    ensures memory { IfOk result (λ read. takes read ≡ takes_memory key.now) }
{
    let Some(key) = Word::of(key) else {
        return Err(WordFault::KeyDigits);
    };
    match fault_of_counts(key.count(), 0) {
        Some(why) => Err(why),
        None => Ok(key),
    }
}

/// The key and the value that these words of an insert or a remove stand for.
fn pair_of<'a>(key: &'a str, value: &'a str) -> Result<PairWords<'a>, WordFault>
    ensures pair { mapped pair_written result
        ≡ pair_within (bytes_of key.now) (bytes_of value.now) }
    ensures key { IfOk result (λ pair. takes pair.key ≡ takes_memory key.now) }
    ensures value { IfOk result (λ pair. takes pair.value ≡ takes_memory value.now) }
{
    let Some(key) = Word::of(key) else {
        return Err(WordFault::KeyDigits);
    };
    let Some(value) = Word::of(value) else {
        return Err(WordFault::ValueDigits);
    };
    match fault_of_counts(key.count(), value.count()) {
        Some(why) => Err(why),
        None => Ok(PairWords { key, value }),
    }
}

/// The words of a request, as far as they are there.
#[derive(Clone, Copy, Debug)]
struct RequestWords<'a> {
    operation: &'a str,
    key: Option<&'a str>,
    value: Option<&'a str>,
    /// Whether there are further words.
    has_more: bool,
}

impl<'a> RequestWords<'a> {
    /// The words of a line, with one space between them.
    fn of_line(text: &'a str) -> RequestWords<'a>
        ensures request { request_of_words result ≡ request_in (words_of text.now) }
        ensures memory { words_take result ≡ memory_for (words_of text.now) }
    {
        let mut words = Words::new(text);
        let operation = words.word().unwrap_or("");
        let key = words.word().ok();
        let value = words.word().ok();
        let has_more = words.has_more();
        RequestWords {
            operation,
            key,
            value,
            has_more,
        }
    }

    fn of_words(words: &[&'a str]) -> RequestWords<'a>
        ensures request { request_of_words result ≡ request_in (texts_of words.now) }
        ensures memory { words_take result ≡ memory_for (texts_of words.now) }
    {
        RequestWords {
            operation: words.first().copied().unwrap_or(""),
            key: words.get(1).copied(),
            value: words.get(2).copied(),
            has_more: words.len() > 3,
        }
    }

    /// The key of a retrieve.
    fn key(self) -> Result<Word<'a>, WordFault>
        ensures key { mapped written result ≡ key_of_words self.entry }
        ensures memory { IfOk result (λ key. takes key ≡ words_take self.entry) }
    {
        let Some(key) = self.key else {
            return Err(WordFault::NoKey);
        };
        if self.value.is_some() {
            return Err(WordFault::ValueOfRetrieve);
        }
        key_of(key)
    }

    /// The key and the value of an insert or a remove.
    fn pair(self) -> Result<PairWords<'a>, WordFault>
        ensures pair { mapped pair_written result ≡ pair_of_words self.entry }
        ensures memory { IfOk result (λ pair. pair_takes pair ≡ words_take self.entry) }
    {
        let Some(key) = self.key else {
            return Err(WordFault::NoKey);
        };
        let Some(value) = self.value else {
            return Err(WordFault::NoValue);
        };
        if self.has_more {
            return Err(WordFault::FourthWord);
        }
        pair_of(key, value)
    }

    /// The request of these words, which takes no memory.
    fn asked(self) -> Result<Asked<'a>, WordFault>
        ensures request { mapped request_of result ≡ request_of_words self.entry }
        ensures memory { IfOk result (λ asked. asked_takes asked ≡ words_take self.entry) }
    {
        match self.operation {
            "insert" => Ok(Asked::Insert(self.pair()?)),
            "retrieve" => Ok(Asked::Retrieve(self.key()?)),
            "remove" => Ok(Asked::Remove(self.pair()?)),
            _ => Err(WordFault::NoOperation),
        }
    }

    /// The request of these words.
    fn request(self, alloc: Global) -> Result<Request, WordFault>
        ensures limits { IfOk result IsRequest }
        ensures request { IsRead (request_of_words self.entry) (words_take self.entry) result }
    {
        let asked = self.asked()?;
        Ok(asked.request(alloc)?)
    }
}

/// The request on a line without its end, with one space between words.
pub fn read_line(alloc: Global, line: &[u8]) -> Result<Request, WordFault>
    ensures limits { IfOk result IsRequest }
    ensures request { IsRead (request_on line.now) (memory_for (words_of line.now)) result }
{
    match str::from_utf8(line) {
        Ok(text) => RequestWords::of_line(text).request(alloc),
        Err(_) => Err(WordFault::NoText),
    }
}

/// The request in the words of a command line.
pub fn read_words(alloc: Global, words: &[&str]) -> Result<Request, WordFault>
    ensures limits { IfOk result IsRequest }
    ensures request { IsRead (request_in (texts_of words.now)) (memory_for (texts_of words.now))
        result }
{
    RequestWords::of_words(words).request(alloc)
}
