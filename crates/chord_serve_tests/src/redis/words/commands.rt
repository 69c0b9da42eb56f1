//! What commands call for.

use crate::escapes::EscapedText;
use chord_map::{Bytes, Values};
use chord_resp::{Command, Commands, Denied, Refusal, command_of, refusal_text};
use chord_testkit::{MEMORY, Text, name_of};
use std::alloc::Global;

/// Bytes as they are, or their length.
pub fn shown(bytes: &[u8]) -> Text {
    let len = bytes.len();
    if len > 64 {
        Text::of(format_args!("<whole {len}>"))
    } else {
        Text::of(EscapedText(bytes))
    }
}

fn keyed(name: &str, key: &Bytes) -> Text {
    let key = shown(key.as_slice());
    Text::of(name).and_str(" ", 1).and_str(key.as_str(), 64)
}

fn with_all(mut text: Text, values: &Values) -> Text {
    for value in values.as_slice() {
        let value = shown(value.as_slice());
        text = text.and_str(" ", 1).and_str(value.as_str(), 64);
    }
    text
}

fn command_text(command: &Command) -> Text {
    match command {
        Command::Add { key, members } => with_all(keyed("add", key), members),
        Command::Remove { key, members } => with_all(keyed("remove", key), members),
        Command::AreMembers { key, members } => with_all(keyed("has each", key), members),
        Command::IsMember { key, member } => {
            let member = shown(member.as_slice());
            keyed("has", key)
                .and_str(" ", 1)
                .and_str(member.as_str(), 64)
        }
        Command::Members { key } => keyed("members", key),
        Command::Count { key } => keyed("count", key),
        Command::Kind { key } => keyed("type", key),
        Command::Exist { keys } => with_all(Text::of("exist"), keys),
        Command::Echo { word } => keyed("echo", word),
        plain => name_of(plain),
    }
}

fn told(alloc: Global, refusal: Refusal) -> Text {
    let text = match refusal_text(alloc, &refusal) {
        Ok(text) => Text::of(EscapedText(&text)),
        Err(_) => Text::of(MEMORY),
    };
    drop(refusal);
    text
}

/// What the first command of the bytes calls for, or its refusal.
pub fn call(alloc: Global, bytes: &[u8]) -> Text {
    let mut commands = Commands::new(alloc);
    let is_fed = commands.feed(bytes).is_ok();
    let next = commands.next();
    drop(commands);
    let Ok(Some(words)) = next else {
        return Text::of(if is_fed { "no command" } else { MEMORY });
    };
    match command_of(alloc, words) {
        Ok(command) => {
            let text = command_text(&command);
            drop(command);
            text
        }
        Err(Denied::Refused(refusal)) => told(alloc, refusal),
        Err(Denied::Memory) => Text::of(MEMORY),
    }
}
