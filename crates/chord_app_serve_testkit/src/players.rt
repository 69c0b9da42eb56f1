//! A server beside who asks it, each on a thread of its own.

use crate::handle::Handle;
use crate::plans::plan_with;
use crate::servers::{Ending, Found, Size, Written, all_bound, end_waiting, look_at, serve_at};
use chord_app_sockets::ClientLimits;
use chord_serve_testkit::{Acts, Addresses, Script, do_acts_at};
use log::Log;
use log::sink::Discard;
use std::alloc::Global;
use std::io::{self, PipeReader, PipeWriter};
use std::net::{Net, TcpListener, TcpStream};
use std::thread;
use std::time::{Clock, Duration};

/// What a server allows its clients: no test leaves them idle for as long, or has them hold as
/// much.
pub const WAITS: ClientLimits = ClientLimits {
    idle: 300,
    keep: 600,
    buffers: 268_435_456,
};

/// What a server wrote, and what was told by who asked it.
pub type Played<T> = Option<(Written, io::Result<T>)>;

/// Serves until the server's end, beside who asks it at its addresses; none where there are no
/// ports.
pub fn serve_beside<
    R: Handle + Net<Listener = TcpListener, Stream = TcpStream>,
    L: Log + Sync,
    T: Drop + Send,
    F: FnOnce(Addresses) -> io::Result<T> + Send,
>(rt: &R, alloc: Global, size: Size, notes: &L, ending: Ending, play: F) -> Played<T>
    requires { (f : _) (x : _) → F.pre f x }
{
    let plan = plan_with(alloc, size.callers)?;
    let (listeners, at) = all_bound(rt)?;
    let connections = ending.connections();
    let (written, told) = thread::join(
        rt,
        || serve_at(rt, alloc, &plan, size, listeners, ending, notes),
        || {
            let told = play(at);
            end_waiting(rt, at, connections);
            told
        },
    );
    drop(plan);
    Some((Written::of(size, at, written), told))
}

/// The same for a server that stays until its input ends, which is when they are done who ask it.
pub fn stay_beside<
    R: Handle + Net<Listener = TcpListener, Stream = TcpStream>,
    L: Log + Sync,
    T: Drop + Send,
    F: FnOnce(Addresses) -> io::Result<T> + Send,
>(
    rt: &R,
    alloc: Global,
    server: (Size, ClientLimits),
    notes: &L,
    pipe: (PipeReader, PipeWriter),
    play: F,
) -> Played<T>
    requires { (f : _) (x : _) → F.pre f x }
{
    let (size, seconds) = server;
    let (input, end) = pipe;
    let ending = Ending::Input(input, seconds);
    serve_beside(rt, alloc, size, notes, ending, move |at| {
        let told = play(at);
        drop(end);
        told
    })
}

/// Follows a script at a server, whose input ends behind the second part of it.
fn act<R: Net + Clock>(
    rt: &R,
    alloc: Global,
    at: Addresses,
    script: Script,
    input: PipeWriter,
) -> io::Result<()> {
    let mut streams = Vec::new(alloc);
    do_acts_at(rt, alloc, at, &mut streams, script.first)?;
    thread::sleep(rt, Duration::from_millis(script.pause));
    do_acts_at(rt, alloc, at, &mut streams, script.then)?;
    drop(input);
    do_acts_at(rt, alloc, at, &mut streams, script.after)
}

/// What is found at a server of this size and with these waits, whose clients follow a script until
/// its input ends, and which is to write these lines.
pub fn follow<R: Handle + Net<Listener = TcpListener, Stream = TcpStream>>(
    rt: &R,
    alloc: Global,
    server: (Size, ClientLimits),
    script: Script,
    pipe: (PipeReader, PipeWriter),
    lines: &str,
) -> Option<Found> {
    follow_noted(rt, alloc, server, &Discard, script, pipe, lines)
}

/// The same for a server that logs there.
pub fn follow_noted<R: Handle + Net<Listener = TcpListener, Stream = TcpStream>, L: Log + Sync>(
    rt: &R,
    alloc: Global,
    (size, seconds): (Size, ClientLimits),
    notes: &L,
    script: Script,
    (input, end): (PipeReader, PipeWriter),
    lines: &str,
) -> Option<Found> {
    let ending = Ending::Input(input, seconds);
    let played = serve_beside(rt, alloc, size, notes, ending, move |at| {
        act(rt, alloc, at, script, end)
    });
    look_at(alloc, played, lines)
}

/// What is found at a server that ends after some connections, whose clients do these acts.
pub fn follow_to_the_end<R: Handle + Net<Listener = TcpListener, Stream = TcpStream>>(
    rt: &R,
    alloc: Global,
    (size, connections): (Size, usize),
    acts: Acts,
    lines: &str,
) -> Option<Found> {
    let ending = Ending::Connections(connections);
    let played = serve_beside(rt, alloc, size, &Discard, ending, |at| {
        do_acts_at(rt, alloc, at, &mut Vec::new(alloc), acts)
    });
    look_at(alloc, played, lines)
}
