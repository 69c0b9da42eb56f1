//! What a command asks the server of its connection for.
ghost use Rattle.std.specs.Prelude.{◌≡◌, IfOk};
ghost use Rattle.chord_resp_serve.specs.News.{NewsIs, moment_text, subject_of};

use crate::informs::Informs;
use crate::moment::Moment;
use chord_resp::{Verb, Words, is_text, put_bulk};
use itoa::Buffer;
use std::alloc::{AllocError, Global};

/// What a command asks the server of its connection for.
#[derive(Clone, Copy, Debug, PartialEq, Eq)]
pub enum Subject {
    Nothing,
    /// The text of INFO.
    Info,
    /// The moment, for TIME.
    Time,
}

impl Subject {
    pub fn of_words(words: &Words) -> Subject
        ensures { result ≡ subject_of words.now }
    {
        match words.as_slice() {
            [] => Subject::Nothing,
            [name, ..] => {
                if is_text(name, Verb::Info.text()) {
                    Subject::Info
                } else if is_text(name, Verb::Time.text()) {
                    Subject::Time
                } else {
                    Subject::Nothing
                }
            }
        }
    }

    /// What the source tells of it.
    pub fn told_by<I: Informs>(self, alloc: Global, source: &I) -> Result<Vec<u8>, AllocError>
        ensures { IfOk result (λ text. NewsIs (I.tells source.now) self text.items) }
    {
        match self {
            Subject::Nothing => Ok(Vec::new(alloc)),
            Subject::Info => source.info(alloc),
            Subject::Time => moment_text(alloc, source.time()),
        }
    }
}

/// The answer to TIME.
fn moment_text(alloc: Global, moment: Moment) -> Result<Vec<u8>, AllocError>
    ensures { IfOk result (λ text. text.items ≡ moment_text moment) }
{
    let mut seconds = Buffer::new();
    let mut micros = Buffer::new();
    let mut text = Vec::from_slice(alloc, b"*2\r\n")?;
    put_bulk(&mut text, seconds.format(moment.seconds).as_bytes())?;
    put_bulk(&mut text, micros.format(moment.micros).as_bytes())?;
    Ok(text)
}
