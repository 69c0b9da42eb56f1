//! The commands that were not taken out yet.
ghost use Rattle.std.specs.Prelude.{◌≡◌, ◌+◌, ◌≤◌, ◌<◌, ◌^◌, ◌++◌, [], length, true, false, IsOk, OnOk};
ghost use Rattle.std.specs.Vec.{vec_len, vec_capacity};
ghost use Rattle.chord_resp.specs.Spelling.{bulk};
ghost use Rattle.chord_journal.specs.Journal.{HasRoom, added_by, mark_of};

use crate::piece::JournalPiece;
use chord_map::{Reply, Request};
use itoa::Buffer;
use std::alloc::{AllocError, Global};
use std::marker::Model;

/// How many bytes a command has at most beside its key and its value: 14 of its head, and for each
/// of the two a mark, a length of up to 20 digits and the ends of two lines.
const MOST_BESIDE: usize = 104;

/// The commands of the changes that were made and not taken out yet. A journal has fewer than 2^64
/// bytes in all; what would go beyond is refused as memory is.
#[derive(Drop)]
pub struct JournalBuffer {
    bytes: Vec<u8>,
    /// How many bytes were taken out.
    taken: u64,
    /// Whether there is a journal; without one nothing is added.
    is_on: bool,
    ghost counted: { taken + vec_len bytes < 2 ^ 64 },
}

impl Model for JournalBuffer {
    ghost use Rattle.std.specs.Prelude.{◌-◌};
    ghost use Rattle.std.specs.Vec.{vec_len, vec_capacity};
    ghost use Rattle.chord_journal.specs.Journal.{Buffered};

    ghost Value = { Buffered };

    ghost view = { λ buffer. record {
      on = buffer.is_on;
      taken = buffer.taken;
      bytes = buffer.bytes.items;
      room = vec_capacity buffer.bytes - vec_len buffer.bytes;
    } };
}

/// Adds a word. There is room for it.
fn put_word(out: &mut Vec<u8>, word: &[u8])
    requires { vec_len out.old + (length word.now + 45) ≤ vec_capacity out.old }
    ensures bytes { out.new.items ≡ out.old.items ++ bulk word.now }
    ensures len { vec_len out.new ≤ vec_len out.old + (length word.now + 45) }
    ensures capacity { vec_capacity out.old ≤ vec_capacity out.new }
{
    let mut buffer = Buffer::new();
    let digits = buffer.format(word.len()).as_bytes();
    out.extend_from_slice(b"$").unwrap();
    out.extend_from_slice(digits).unwrap();
    out.extend_from_slice(b"\r\n").unwrap();
    out.extend_from_slice(word).unwrap();
    out.extend_from_slice(b"\r\n").unwrap();
}

/// Adds a command of three words, of which the first stands in the head. There is room.
fn put_command(out: &mut Vec<u8>, head: &[u8], key: &[u8], value: &[u8])
    requires short { length head.now ≤ 14 }
    requires room { vec_len out.old + (length key.now + (length value.now + 104))
        ≤ vec_capacity out.old }
    ensures bytes { out.new.items
        ≡ out.old.items ++ (head.now ++ (bulk key.now ++ bulk value.now)) }
    ensures len { vec_len out.new ≤ vec_len out.old + (length key.now + (length value.now + 104)) }
{
    out.extend_from_slice(head).unwrap();
    put_word(out, key);
    put_word(out, value);
}

impl JournalBuffer {
    /// A journal with no change yet.
    pub fn new(alloc: Global) -> JournalBuffer
        ensures on { result.on ≡ true }
        ensures taken { result.taken ≡ 0 }
        ensures bytes { result.bytes ≡ [] }
    {
        JournalBuffer {
            bytes: Vec::new(alloc),
            taken: 0,
            is_on: true,
        }
    }

    /// No journal: nothing is added, and no room is wanted.
    pub fn none(alloc: Global) -> JournalBuffer
        ensures on { result.on ≡ false }
        ensures taken { result.taken ≡ 0 }
        ensures bytes { result.bytes ≡ [] }
    {
        JournalBuffer {
            bytes: Vec::new(alloc),
            taken: 0,
            is_on: false,
        }
    }

    /// The commands, in the order of the changes.
    pub fn as_slice(&self) -> &[u8]
        ensures { result.now ≡ self.now.bytes }
    {
        self.bytes.as_slice()
    }

    /// How many bytes were added in all. It rises with each, and what is taken out leaves it.
    pub fn mark(&self) -> u64
        ensures { result ≡ mark_of self.now }
    {
        self.taken + self.bytes.len() as u64
    }

    /// Makes room for the command of the request, as the next `append` requires.
    pub fn reserve(&mut self, request: &Request) -> Result<(), AllocError>
        ensures on { self.new.on ≡ self.old.on }
        ensures taken { self.new.taken ≡ self.old.taken }
        ensures bytes { self.new.bytes ≡ self.old.bytes }
        ensures room { OnOk result (HasRoom request.now self.new) }
        ensures had { HasRoom request.now self.old → IsOk result }
    {
        if !self.is_on {
            return Ok(());
        }
        let words = request.key().len().checked_add(request.value().len());
        let Some(needed) = words.and_then(|words| words.checked_add(MOST_BESIDE)) else {
            return Err(AllocError);
        };
        if self.mark().checked_add(needed as u64).is_none() {
            return Err(AllocError);
        }
        self.bytes.reserve(needed)
    }

    /// The request was executed and given this reply. The buffer grows by its command where that
    /// says that the map changed.
    pub fn append(&mut self, request: &Request, reply: &Reply)
        requires { HasRoom request.now self.old }
        ensures on { self.new.on ≡ self.old.on }
        ensures taken { self.new.taken ≡ self.old.taken }
        ensures bytes { self.new.bytes
            ≡ self.old.bytes ++ added_by self.old.on request.now reply.now }
    {
        if !self.is_on {
            return;
        }
        match (request, reply) {
            (Request::Insert { key, value }, Reply::Added) => put_command(
                &mut self.bytes,
                b"*3\r\n$4\r\nSADD\r\n",
                key.as_slice(),
                value.as_slice(),
            ),
            (Request::Remove { key, value }, Reply::Removed) => put_command(
                &mut self.bytes,
                b"*3\r\n$4\r\nSREM\r\n",
                key.as_slice(),
                value.as_slice(),
            ),
            _ => {}
        }
    }

    /// Takes out what is there. The spare vector is emptied and comes in its place: two that change
    /// places each time soon take no more memory.
    pub fn take(&mut self, spare: Vec<u8>) -> JournalPiece
        ensures piece { result.bytes.items ≡ self.old.bytes }
        ensures mark { result.mark ≡ mark_of self.old }
        ensures on { self.new.on ≡ self.old.on }
        ensures taken { self.new.taken ≡ mark_of self.old }
        ensures bytes { self.new.bytes ≡ [] }
    {
        let mut spare = spare;
        spare.clear();
        let mark = self.mark();
        self.taken = mark;
        JournalPiece {
            bytes: std::mem::replace(&mut self.bytes, spare),
            mark,
        }
    }
}
