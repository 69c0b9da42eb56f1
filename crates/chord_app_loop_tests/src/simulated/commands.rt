//! What a client of Redis's protocol sends, and what is due for it.

use crate::simulated::dice::Dice;
use crate::simulated::model::{KEYS, MEMBERS, Model};
use crate::simulated::talk::Talk;
use chord_serve::Served;
use std::alloc::Global;
use std::io::{self, Write};

/// A command of the table.
#[derive(Clone, Copy, PartialEq, Eq)]
enum Verb {
    Sadd,
    Srem,
    Exists,
    Sismember,
    Smismember,
    Scard,
    Ping,
    Foo,
}

const VERBS: [Verb; 8] = [
    Verb::Sadd,
    Verb::Srem,
    Verb::Exists,
    Verb::Sismember,
    Verb::Smismember,
    Verb::Scard,
    Verb::Ping,
    Verb::Foo,
];

impl Verb {
    fn name(self) -> &'static str {
        match self {
            Verb::Sadd => "SADD",
            Verb::Srem => "srem",
            Verb::Exists => "EXISTS",
            Verb::Sismember => "SIsMember",
            Verb::Smismember => "SMISMEMBER",
            Verb::Scard => "SCARD",
            Verb::Ping => "PING",
            Verb::Foo => "FOO",
        }
    }

    /// How many words stand behind the name.
    fn draw_count(self, dice: &mut Dice) -> usize {
        match self {
            Verb::Ping | Verb::Foo => 0,
            Verb::Scard => 1,
            Verb::Sismember => 2,
            _ => dice.up_to(3).saturating_add(1),
        }
    }
}

/// A command, with words of one byte.
#[derive(Clone, Copy)]
struct Command {
    verb: Verb,
    words: [u8; 4],
    count: usize,
}

/// What a command is answered.
#[derive(Clone, Copy)]
enum Told {
    Text(&'static str),
    Number(u64),
    /// A 1 for each of the members that the key has, and a 0 for each other one.
    Marks(u8),
    /// No answer came to a request. This many before it were done.
    Nothing(usize),
}

impl Command {
    fn draw(dice: &mut Dice) -> Command {
        let verb = VERBS[dice.below(8) as usize % 8];
        let mut words = [dice.pick(KEYS); 4];
        for word in words[1..].iter_mut() {
            *word = dice.pick(if verb == Verb::Exists { KEYS } else { MEMBERS });
        }
        Command {
            verb,
            words,
            count: verb.draw_count(dice).min(4),
        }
    }

    fn key(&self) -> u8 {
        self.words[0]
    }

    fn words(&self) -> &[u8] {
        &self.words[..self.count.min(4)]
    }

    /// The members behind the key.
    fn members(&self) -> &[u8] {
        self.words().get(1..).unwrap_or(&[])
    }

    /// Adds the command as one line.
    fn write_line(&self, out: &mut Vec<u8>) -> io::Result<()> {
        let name = self.verb.name();
        write!(out, "{name}")?;
        for word in self.words().iter() {
            out.extend_from_slice(&[b' ', *word])?;
        }
        write!(out, "\r\n")
    }

    /// Adds the command as an array.
    fn write_array(&self, out: &mut Vec<u8>) -> io::Result<()> {
        let (name, count) = (self.verb.name(), self.count.saturating_add(1));
        let len = name.len();
        write!(out, "*{count}\r\n${len}\r\n{name}\r\n")?;
        for word in self.words().iter() {
            write!(out, "$1\r\n")?;
            out.extend_from_slice(&[*word, b'\r', b'\n'])?;
        }
        Ok(())
    }

    /// Whether the request for this word does something that counts.
    fn counts(&self, model: &mut Model, word: u8) -> bool {
        match self.verb {
            Verb::Sadd => model.put(self.key(), word, true),
            Verb::Srem => model.put(self.key(), word, false),
            _ => model.count(word) > 0,
        }
    }

    /// What a command is told that asks a request for each of these words.
    fn told_of_each(&self, model: &mut Model, words: &[u8]) -> Told {
        let mut count: u64 = 0;
        for (done, word) in words.iter().enumerate() {
            let key = if self.verb == Verb::Exists {
                *word
            } else {
                self.key()
            };
            if !model.asks(key) {
                return Told::Nothing(done);
            }
            if self.counts(model, *word) {
                count = count.saturating_add(1);
            }
        }
        Told::Number(count)
    }

    /// What a command is told that asks for the set of its key.
    fn told_of_set(&self, model: &mut Model) -> Told {
        if !model.asks(self.key()) {
            return Told::Nothing(0);
        }
        match self.verb {
            Verb::Scard => Told::Number(model.count(self.key())),
            Verb::Sismember => Told::Number(u64::from(model.has(self.key(), self.words[1]))),
            _ => Told::Marks(self.key()),
        }
    }

    fn told(&self, model: &mut Model) -> Told {
        model.begin();
        match self.verb {
            Verb::Ping => Told::Text("+PONG"),
            Verb::Foo => Told::Text("-ERR unknown command 'FOO'"),
            Verb::Sadd | Verb::Srem => self.told_of_each(model, self.members()),
            Verb::Exists => self.told_of_each(model, self.words()),
            _ => self.told_of_set(model),
        }
    }

    /// Adds the bytes of the answer.
    fn write_told(&self, model: &Model, told: &Told, out: &mut Vec<u8>) -> io::Result<()> {
        let of = match self.verb {
            Verb::Sadd | Verb::Srem => self.members().len(),
            Verb::Exists => self.count,
            _ => 1,
        };
        match told {
            Told::Text(text) => write!(out, "{text}\r\n"),
            Told::Number(number) => write!(out, ":{number}\r\n"),
            Told::Marks(key) => {
                let count = self.members().len();
                write!(out, "*{count}\r\n")?;
                for member in self.members().iter() {
                    let mark = u64::from(model.has(*key, *member));
                    write!(out, ":{mark}\r\n")?;
                }
                Ok(())
            }
            Told::Nothing(done) => {
                write!(out, "-TRYAGAIN no answer in time, it may have acted")?;
                if of > 1 {
                    write!(out, ", {done} of {of} done")?;
                }
                write!(out, "\r\n")
            }
        }
    }
}

/// Adds what a client sends at last, and what is due for it. Says how its connection ends.
fn finish(dice: &mut Dice, input: &mut Vec<u8>, output: &mut Vec<u8>) -> io::Result<Served> {
    match dice.below(6) {
        0 => {
            write!(input, "*2\r\n$4\r\nSC")?;
            Ok(Served::Truncated)
        }
        1 => {
            write!(input, "QUIT\r\nPING\r\n")?;
            write!(output, "+OK\r\n")?;
            Ok(Served::Quit)
        }
        2 => {
            write!(input, "*x\r\nPING\r\n")?;
            write!(output, "-ERR Protocol error: invalid multibulk length\r\n")?;
            Ok(Served::Protocol)
        }
        3 => {
            write!(
                input,
                "GET / HTTP/1.1\r\nHost: 127.0.0.1\r\n\r\nSADD a p\r\n"
            )?;
            Ok(Served::Foreign)
        }
        _ => Ok(Served::Ended),
    }
}

/// What a client sends, some commands, and what is due for it.
pub fn commands(alloc: Global, dice: &mut Dice) -> io::Result<Talk> {
    let (mut input, mut output) = (Vec::new(alloc), Vec::new(alloc));
    let mut model = Model::new();
    for _ in 0..dice.below(40) {
        let command = Command::draw(dice);
        if dice.is_one_in(2) {
            command.write_line(&mut input)?;
        } else {
            command.write_array(&mut input)?;
        }
        let told = command.told(&mut model);
        command.write_told(&model, &told, &mut output)?;
    }
    let end = finish(dice, &mut input, &mut output)?;
    Ok(Talk {
        input,
        output,
        asked: model.asked,
        end,
        room: Talk::room(dice),
    })
}
