//! The doors of a server over loopback, and when it takes no more connections.
//!
//! - `doors Both`: the server has these doors: what the first speaks, and the second one, if that
//!   has the address of the listener for Redis's clients.
//! - `wake`: the first door is woken.
//! - `stop`, `end-of-input`: the server is stopped, or its input of three bytes ends. `until stop`:
//!   it is stopped if it is not yet.
//! - `look`: whether it is stopped, and which listeners were woken since, which do not wait.
//! - `until`: what a server does that stays, with 300 seconds to be idle, 60 for sessions and 1 MB
//!   of buffers. `seven`, `seven stop`: what one does that takes seven connections, once it was to
//!   be stopped.

use crate::checks::check;
use chord_app_sockets::{ClientLimits, Doors, Lines, Stop, Until};
use chord_app_text::{GrammarFault, LineFault, Words};
use chord_testkit::{Subject, Text, follow_on};
use std::alloc::Global;
use std::io;
use std::net::{Net, TcpListener, TcpStream};
use std::sync::Wait;
use std::test::Fail;
use std::time::Clock;

/// A server with two listeners, of which it may use one.
#[derive(Drop)]
struct Doored<'a, R> {
    rt: &'a R,
    frames: TcpListener,
    redis: TcpListener,
    stop: Stop,
}

/// A listener that does not wait, so that a test ends if nobody connects.
fn bound<R: Net<Listener = TcpListener, Stream = TcpStream>>(rt: &R) -> io::Result<TcpListener> {
    let listener = TcpListener::bind(rt, "127.0.0.1:0")?;
    listener.set_nonblocking(true)?;
    Ok(listener)
}

impl<'a, R: Net<Listener = TcpListener, Stream = TcpStream> + Clock> Doored<'a, R> {
    fn new(rt: &'a R) -> io::Result<Doored<'a, R>> {
        let frames = bound(rt)?;
        let redis = bound(rt)?;
        let stop = Stop::of(Doors::Frames(&frames))?;
        Ok(Doored {
            rt,
            frames,
            redis,
            stop,
        })
    }

    fn doors(&mut self, name: &str) -> io::Result<Text> {
        let frames = &self.frames;
        let redis = &self.redis;
        let doors = match name {
            "Frames" => Doors::Frames(frames),
            "Redis" => Doors::Redis(redis),
            _ => Doors::Both { frames, redis },
        };
        let first = doors.first().protocol;
        let second = doors.second().map(|door| door.protocol);
        let is_its = doors.second_address()? == second.and(Some(redis.local_addr()?));
        self.stop = Stop::of(doors)?;
        Ok(Text::of(format_args!("{first:?}, {second:?}, {is_its}")))
    }

    /// Who connected since.
    fn look(&self) -> Text {
        let text = Text::of(if self.stop.is_stopped() {
            "stopped"
        } else {
            "runs"
        });
        let frames = if self.frames.accept().is_ok() {
            ", woken at Frames"
        } else {
            ""
        };
        let redis = if self.redis.accept().is_ok() {
            ", woken at Redis"
        } else {
            ""
        };
        text.and_str(frames, 20).and_str(redis, 20)
    }

    fn until(&self) -> Until<'_> {
        Until::Stopped {
            stop: &self.stop,
            limits: ClientLimits {
                idle: 300,
                keep: 60,
                buffers: 1_048_576,
            },
        }
    }
}

impl<R: Net<Listener = TcpListener, Stream = TcpStream> + Clock> Subject for Doored<'_, R> {
    fn act(&mut self, words: &mut Words) -> Result<Text, LineFault> {
        let deed = words.word()?;
        let stops = words.has_more() && deed != "doors";
        if stops && words.word()? != "stop" {
            return Err(GrammarFault::NoLine.into());
        }
        match deed {
            "doors" => Ok(self.doors(words.word()?).unwrap_or(Text::of("no doors"))),
            "look" => Ok(self.look()),
            "wake" => {
                Doors::Frames(&self.frames).first().wake(self.rt);
                Ok(Text::of("Done"))
            }
            "stop" => {
                self.stop.stop(self.rt);
                Ok(Text::of("Done"))
            }
            "end-of-input" => {
                self.stop.stop_behind(self.rt, &mut b"abc".as_slice());
                Ok(Text::of("Done"))
            }
            "until" => Ok(seen(self.rt, self.until(), stops)),
            "seven" => Ok(seen(self.rt, Until::Connections(7), stops)),
            _ => Err(GrammarFault::NoLine.into()),
        }
    }

    fn show(&self) -> Text {
        Text::of("")
    }
}

/// What a server does that ends so, once it was to be stopped, if it was.
fn seen<R: Net + Clock>(rt: &R, until: Until<'_>, stops: bool) -> Text {
    if stops {
        until.stop(rt);
    }
    let most = until.most();
    let turns = until.turns();
    let size = until.read_size();
    let keeps = until.keeps_callers();
    let idle = until.idle();
    let session = until.session_seconds();
    let buffers = until.buffers();
    let ends = Text::of(format_args!(
        "connections {most}, turns {turns}, {size:?}, keeps callers {keeps}"
    ));
    let ends = ends.as_str();
    let is_stopped = until.is_stopped();
    Text::of(format_args!(
        "{ends}, idle {idle:?}, session {session}, buffers {buffers}, stopped {is_stopped}"
    ))
}

const SCRIPT: &str = "
# a stop wakes each door, once
doors Redis > Redis, None, true
look > runs
stop > Done
look > stopped, woken at Redis
look > stopped
doors Both > Frames, Some(Redis), true
look > runs
stop > Done
look > stopped, woken at Frames, woken at Redis
look > stopped
doors Frames > Frames, None, true
look > runs
stop > Done
look > stopped, woken at Frames
look > stopped
# a door is woken by a connection
wake > Done
look > stopped, woken at Frames
# a server that takes seven connections can't be stopped
seven > connections 7, turns 65536, Small, keeps callers false, idle None, session 600, buffers 268435456, stopped false
seven stop > connections 7, turns 65536, Small, keeps callers false, idle None, session 600, buffers 268435456, stopped false
# one that stays is stopped at its input's end
doors Frames > Frames, None, true
until > connections 18446744073709551615, turns 18446744073709551615, Large, keeps callers true, idle Some(300), session 60, buffers 1048576, stopped false
end-of-input > Done
until > connections 18446744073709551615, turns 18446744073709551615, Large, keeps callers true, idle Some(300), session 60, buffers 1048576, stopped true
look > stopped, woken at Frames
# or by a stop; the second one wakes nobody
doors Frames > Frames, None, true
look > runs
until stop > connections 18446744073709551615, turns 18446744073709551615, Large, keeps callers true, idle Some(300), session 60, buffers 1048576, stopped true
look > stopped, woken at Frames
until stop > connections 18446744073709551615, turns 18446744073709551615, Large, keeps callers true, idle Some(300), session 60, buffers 1048576, stopped true
look > stopped
";

#[test]
fn doors_and_stops(rt: HostRuntime) -> Result<(), Fail> {
    follow_on(&mut Doored::new(&rt)?, SCRIPT)
}

/// Whether the line of an operator's address is written, and nothing else.
fn tells_operators<R: Net<Listener = TcpListener, Stream = TcpStream> + Wait>(
    rt: &R,
    alloc: Global,
) -> Option<bool> {
    let listener = bound(rt).ok()?;
    let address = listener.local_addr().ok()?;
    let mut written: Vec<u8> = Vec::new(alloc);
    let lines = Lines::as_they_end(alloc, &mut written);
    let is_told = lines.begin_operator(rt, &listener).is_ok();
    drop(lines);
    let wanted = format!(in alloc; "operator on {address}\n").ok()?;
    Some(is_told && written.as_slice() == wanted.as_bytes())
}

#[test]
fn the_line_of_an_operator(rt: HostRuntime) {
    let is_told = tells_operators(&rt, rt.alloc());
    check!(&rt; is_told == Some(true), "the address of operators");
}
