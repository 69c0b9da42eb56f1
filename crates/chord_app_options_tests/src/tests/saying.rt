//! What command lines say, in words: their values, and of those that have a usual value only the
//! others.

use chord_app_ask::{ClientOptions, Drops, Load};
use chord_app_operator::JoinRequest;
use chord_app_options::{
    RingSource, ServeLine, client_options_of, load_of, plan_path_of, request_of, ring_task_of,
    serve_line_of, stores_of, wants_session,
};
use chord_app_ring::{RingCommand, RingTask};
use chord_testkit::{IdText, RequestText, Text};
use clap::ArgMatches;
use std::alloc::Global;
use std::fmt::Display;

/// What the line of the command with this name says, or the fault of a wrong value.
pub fn said_by(alloc: Global, name: &str, found: &ArgMatches) -> Result<Text, clap::Error> {
    match name {
        "world" => match stores_of(alloc, found) {
            Ok(stores) => Ok(Text::of(format_args!("stores {stores}"))),
            Err(fault) => Err(fault),
        },
        "run" => {
            let path = plan_path_of(found);
            Ok(Text::of(format_args!("plan {path}")))
        }
        "serve" => match serve_line_of(alloc, found) {
            Ok(line) => Ok(of_serve(line)),
            Err(fault) => Err(fault),
        },
        "ask" => of_ask(alloc, found),
        "load" => Ok(with_session(of_load(load_of(alloc, found)?), found)),
        "ring" => Ok(of_ring(ring_task_of(alloc, found)?)),
        _ => Ok(Text::of("unknown")),
    }
}

/// With a value, if there is one.
fn with<V: Display + Copy>(text: Text, name: &str, value: Option<V>) -> Text {
    match value {
        Some(value) => {
            let more = Text::of(format_args!(", {name} {value}"));
            text.and_str(more.as_str(), 64)
        }
        None => text,
    }
}

/// With a number, if it is not the usual one.
fn with_other(text: Text, name: &str, number: u64, usual: u64) -> Text {
    let other = if number == usual { None } else { Some(number) };
    with(text, name, other)
}

/// With the journal and when it is synced, if there is one.
fn with_journal(text: Text, line: &ServeLine) -> Text {
    let Some(path) = line.journal else {
        return text;
    };
    let sync = line.sync;
    text.and(format_args!(", journal {path} {sync:?}"), 64)
}

/// Usual are 300 seconds to be idle, 600 to be kept, and 256 MB of buffers.
fn of_serve(line: ServeLine) -> Text {
    let text = match line.ring {
        RingSource::Plan(path) => Text::of(format_args!("plan {path}")),
        RingSource::Even(nodes) => Text::of(format_args!("nodes {nodes}")),
    };
    let text = with(text, "port", line.port);
    let text = with(text, "redis", line.redis);
    let text = with(text, "operator", line.operator);
    let text = with(text, "connections", line.connections);
    let text = with(text, "slots", line.slots);
    let text = with(text, "callers", line.callers);
    let text = with_other(text, "idle", line.idle, 300);
    let text = with_other(text, "keep", line.keep, 600);
    let text = with_other(text, "buffers", line.buffers, 268_435_456);
    let text = with_journal(text, &line);
    let text = with_word(text, "ends with its input", line.ends_with_input);
    with_word(text, "notes", line.notes)
}

/// With a word, if it is so.
fn with_word(text: Text, word: &str, is_so: bool) -> Text {
    if is_so {
        return text.and_str(", ", 2).and_str(word, 32);
    }
    text
}

/// Usual are version 2 and three tries.
fn of_ask(alloc: Global, found: &ArgMatches) -> Result<Text, clap::Error> {
    let ClientOptions {
        port,
        version,
        window,
        tries,
        ..
    } = client_options_of(alloc, found)?;
    let text = Text::of(format_args!("port {port}, window {window}"));
    let text = with_other(text, "version", u64::from(version), 2);
    let text = with_other(text, "tries", u64::from(tries), 3);
    let request = request_of(alloc, found)?;
    let asked = request
        .as_ref()
        .map(|request| Text::of(RequestText(request)));
    drop(request);
    let text = match asked {
        Some(asked) => text.and_str(", asks ", 8).and_str(asked.as_str(), 64),
        None => text,
    };
    Ok(with_session(text, found))
}

fn with_session(text: Text, found: &ArgMatches) -> Text {
    with_word(text, "no session", !wants_session(found))
}

/// `2x3` are 3 requests in flight on each of 2 connections, `1000x16` 1,000 keys with values of 16
/// bytes.
fn of_load(load: Load) -> Text {
    let Load {
        port,
        connections,
        in_flight,
        keys,
        value_size,
        kind,
        until,
        drops,
        ..
    } = load;
    let text = Text::of(format_args!(
        "port {port}, {connections}x{in_flight}, {keys}x{value_size}, {kind:?} {until:?}"
    ));
    match drops {
        Some(Drops { every, seed }) => { with(with(text, "drop", Some(every)), "seed", Some(seed)) }
        None => text,
    }
}

fn of_ring(task: RingTask) -> Text {
    let line = match task {
        RingTask::Ask(line) => line,
        RingTask::Dump(port) => return Text::of(format_args!("operator {port}: Dump")),
        RingTask::Restore(port) => return Text::of(format_args!("port {port}: Restore")),
    };
    let port = line.port;
    let text = Text::of(format_args!("operator {port}: "));
    let asked = match line.command {
        RingCommand::Join(join) => of_join(join),
        other => Text::of(format_args!("{other:?}")),
    };
    with_other(text.and_str(asked.as_str(), 128), "times", line.times, 1)
}

fn of_join(join: JoinRequest) -> Text {
    let store = join.store;
    let text = Text::of(format_args!("Join {store:?}"));
    let text = with(text, "id", join.id.map(IdText));
    with(with(text, "limit", join.limit), "via", join.via)
}
