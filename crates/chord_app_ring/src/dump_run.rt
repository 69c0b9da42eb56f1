//! The command `dump`.
ghost use Rattle.std.specs.Prelude.{◌≡◌, ◌⊎◌, Option, Result};
ghost use Rattle.chord_app_text.specs.declared.finish.Finish.TheVariants as End;
ghost use Rattle.chord_app_text.specs.declared.finish.Fault.TheVariants as Cause;
ghost use Rattle.chord_app_ring.specs.Faults.{dump_finish_of, EndsSo};

use crate::connecting::connect;
use crate::dumping::{DumpFault, PageTeller, dump};
use crate::fault::RingFault;
use crate::page::{Page, page_of};
use crate::run::end_by;
use crate::stream::exchange_pairs;
use chord_app_operator::PairsRequest;
use chord_app_text::{Fault, Finish};
use std::alloc::Global;
use std::io::Write;
use std::net::{Net, TcpStream};
use std::thread;
use std::time::{Clock, Duration};

/// How many milliseconds pass before a page that is under way is asked for again.
const REST_MILLISECONDS: u64 = 50;

/// The pages of the server with this operator's port, each over a connection of its own.
#[derive(Drop)]
struct ServerPages<'a, R> {
    rt: &'a R,
    alloc: Global,
    port: u16,
}

impl<R: Net<Stream = TcpStream> + Clock> PageTeller for ServerPages<'_, R> {
    ghost tells = { λ _ _ _ _. Unit {0} };

    fn page(&mut self, request: PairsRequest) -> Result<Page, RingFault> {
        let mut stream = connect(self.rt, self.port)?;
        let answer = exchange_pairs(self.alloc, &mut stream, self.port, request);
        drop(stream);
        page_of(answer?)
    }

    fn rest(&self) {
        thread::sleep(self.rt, Duration::from_millis(REST_MILLISECONDS));
    }
}

/// How the command ends by a fault.
fn end_dump<E: Write>(fault: DumpFault, port: u16, errors: &mut E) -> Finish
    ensures { (result ≡ dump_finish_of port fault) ⊎ (result ≡ End.Fault Cause.Write) }
{
    match fault {
        DumpFault::Ring(fault) => end_by(fault, port, errors),
        DumpFault::UnderWay => Finish::Fault(Fault::UnderWay),
        DumpFault::Write => Finish::Fault(Fault::Write),
        DumpFault::Memory => Finish::OutOfMemory,
    }
}

/// How a copy ends.
fn end_copy<E: Write>(
    copied: Result<bool, DumpFault>,
    port: u16,
    errors: &mut E,
) -> Result<Finish, Finish>
    ensures { EndsSo port copied result }
{
    match copied {
        Ok(false) => Ok(Finish::Done),
        Ok(true) => Err(Finish::Fault(Fault::PassedOver)),
        Err(fault) => Err(end_dump(fault, port, errors)),
    }
}

/// Writes all pairs of the server with this operator's port to `writer`, as inserts, a line each,
/// and behind them their number. What is passed over, and what the server says of a refusal, is
/// written to `errors`.
pub fn run_dump<R: Net<Stream = TcpStream> + Clock, W: Write, E: Write>(
    rt: &R,
    alloc: Global,
    port: u16,
    writer: &mut W,
    errors: &mut E,
) -> Result<Finish, Finish> {
    let mut pages = ServerPages { rt, alloc, port };
    let copied = dump(alloc, &mut pages, writer, errors);
    end_copy(copied, port, errors)
}
