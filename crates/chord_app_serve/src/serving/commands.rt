//! The two forms of the command `serve`.
ghost use Rattle.std.specs.Prelude.{IfOk};
ghost use Rattle.chord_app_serve.specs.Whole.{StandsWhole};

use crate::plan_run::ring_parts_of;
use crate::serving::made_store::MadeStore;
use crate::serving::request_tally::RequestTally;
use crate::serving::server::Serving;
use crate::serving::whole_ring::WholeRing;
use chord_app_sockets::{ClientLimits, Host, Lines, ServerSetup, Stop, Until};
use chord_app_text::Finish;
use chord_live_ring::RingParts;
use log::Log;
use std::io::{Read, Write};
use std::marker::Brand;
use std::sync::Arc;
use std::thread;

/// Serves until then, and writes the lines that are left. Where they can't be written a server that
/// stays has done its work all the same.
fn serve_until<S: MadeStore + Send, R: Host, L: Log + Sync, W: Write + Send + Drop>(
    rt: &R,
    setup: &ServerSetup<'_, L>,
    stores: Vec<S>,
    until: Until<'_>,
    lines: Lines<W>,
    parts: RingParts,
) -> Result<WholeRing, Finish>
    ensures { IfOk result (λ ring. StandsWhole ring) }
{
    let requests = match RequestTally::new(setup.alloc) {
        Ok(requests) => requests,
        Err(_) => {
            drop(stores);
            drop(lines);
            drop(parts);
            return Err(Finish::OutOfMemory);
        }
    };
    let serving = Serving {
        rt,
        setup,
        stores,
        until,
        lines: &lines,
        requests: &requests,
    };
    match serving.serve_named::<Brand>(parts) {
        Ok(ring) => {
            let written = lines.finish();
            if !until.keeps_callers() {
                written?;
            }
            Ok(ring)
        }
        Err(finish) => {
            drop(lines);
            Err(finish)
        }
    }
}

/// The command `serve --connections`: a ring of the plan's nodes over these stores, one for each,
/// serves that many connections.
pub fn serve<S: MadeStore + Send, R: Host, L: Log + Sync, W: Write + Send + Drop>(
    rt: &R,
    setup: &ServerSetup<'_, L>,
    stores: Vec<S>,
    connections: usize,
    writer: W,
) -> Result<WholeRing, Finish>
    ensures { IfOk result (λ ring. StandsWhole ring) }
{
    let parts = ring_parts_of(setup.alloc, setup.settings)?;
    let lines = Lines::by_number(setup.alloc, writer, connections);
    let until = Until::Connections(connections);
    serve_until(rt, setup, stores, until, lines, parts)
}

/// Starts a thread that stops the server at the end of the input. Nothing waits for that thread.
fn stop_behind<R: Host, I: Read + Send + Drop + 'static>(
    rt: &R,
    stop: &Arc<Stop>,
    input: I,
) -> Result<(), Finish> {
    let rt = *rt;
    let stop = Arc::try_clone(stop)?;
    let mut input = input;
    match thread::spawn(&rt, move || stop.stop_behind(&rt, &mut input)) {
        Ok(_) => Ok(()),
        Err(_) => Err(Finish::OutOfMemory),
    }
}

/// What stops a server of this setup, at the end of the input if there is one.
fn stop_of<R: Host, L, I: Read + Send + Drop + 'static>(
    rt: &R,
    setup: &ServerSetup<'_, L>,
    input: Option<I>,
) -> Result<Arc<Stop>, Finish> {
    let stop = Arc::new(setup.alloc, Stop::of(setup.doors)?)?;
    if let Some(input) = input {
        stop_behind(rt, &stop, input)?;
    }
    Ok(stop)
}

/// The command `serve --stay`: a ring of the plan's nodes over these stores, one for each, serves
/// until an operator stops it or the input ends, if there is one.
pub fn stay<
    S: MadeStore + Send,
    R: Host,
    L: Log + Sync,
    W: Write + Send + Drop,
    I: Read + Send + Drop + 'static,
>(
    rt: &R,
    setup: &ServerSetup<'_, L>,
    stores: Vec<S>,
    limits: ClientLimits,
    input: Option<I>,
    writer: W,
) -> Result<WholeRing, Finish>
    ensures { IfOk result (λ ring. StandsWhole ring) }
{
    let parts = ring_parts_of(setup.alloc, setup.settings)?;
    let stop = match stop_of(rt, setup, input) {
        Ok(stop) => stop,
        Err(finish) => {
            drop(stores);
            drop(writer);
            drop(parts);
            return Err(finish);
        }
    };
    let lines = Lines::as_they_end(setup.alloc, writer);
    let until = Until::Stopped {
        stop: &stop,
        limits,
    };
    let stayed = serve_until(rt, setup, stores, until, lines, parts);
    drop(stop);
    stayed
}
